//! The lines of a text.

ghost use Rattle.std.specs.Prelude.{◌≡◌, ◌<◌, length};
ghost use Rattle.std.specs.Option.{option_map};
ghost use Rattle.cc_words.specs.Lines.{lines_of, next_line, text_cut};

use crate::words::cut_at;

/// The first line, and what stands behind it.
pub fn next_line(bytes: &[u8]) -> (&[u8], &[u8])
    ensures { (result.0.now, result.1.now) ≡ next_line bytes.now }
{
    match cut_at(bytes, b'\n') {
        Some(cut) => cut,
        None => (bytes, &bytes[bytes.len()..]),
    }
}

/// The first lines, so many, each with its line feed, and what stands behind them.
pub fn text_cut(bytes: &[u8], count: u32) -> Option<(&[u8], &[u8])>
    ensures { option_map (λ cut. (cut.0.now, cut.1.now)) result ≡ text_cut count bytes.now }
{
    let mut left = count;
    for (at, byte) in bytes.iter().enumerate() {
        if left == 0 {
            return Some((&bytes[..at], &bytes[at..]));
        }
        if *byte == b'\n' {
            left -= 1;
        }
    }
    if left == 0 {
        return Some((bytes, &bytes[bytes.len()..]));
    }
    None
}

/// How many lines a text has.
pub fn line_count(bytes: &[u8]) -> u32
    requires { length bytes.now < 4294967295 }
    ensures { result ≡ length (lines_of bytes.now) }
{
    let mut rest = bytes;
    let mut count: u32 = 0;
    while !rest.is_empty() {
        let (_, behind) = next_line(rest);
        count += 1;
        rest = behind;
    }
    count
}
