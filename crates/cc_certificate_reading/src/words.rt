//! Words and texts at the front of bytes.

ghost use Rattle.std.specs.Prelude.{◌≡◌};
ghost use Rattle.cc_certificate_text.specs.Reading.{is_word_byte, word_at, exact_at};
ghost use Rattle.cc_certificate_reading.specs.Agreement.{Agrees};

use crate::stop::{Reading, Stop};
use cc_words::words::behind;

/// This text.
#[tactic(auto, unfolding(cc_certificate_text::specs::Reading::exact_at, cc_certificate_text::specs::Reading::begun))]
pub fn read_exact<'a>(text: &str, bytes: &'a [u8]) -> Reading<'a, ()>
    ensures { Agrees (λ it. it) result (exact_at text.now bytes.now) }
{
    match behind(bytes, text) {
        Some(rest) => Ok(((), rest)),
        None => Err(Stop::Misfit),
    }
}

/// Whether the byte stands in words.
fn is_word_byte(byte: u8) -> bool
    ensures { result ≡ is_word_byte byte }
{
    !(byte < 128) || (byte.is_ascii_alphanumeric() || byte == b'_')
}

/// The word at the front, and what stands behind it.
#[tactic(auto, unfolding(cc_certificate_text::specs::Reading::word_at))]
pub fn word_at(bytes: &[u8]) -> (&[u8], &[u8])
    ensures { (result.0.now, result.1.now) ≡ word_at bytes.now }
{
    for (at, byte) in bytes.iter().enumerate() {
        if !is_word_byte(*byte) {
            return (&bytes[..at], &bytes[at..]);
        }
    }
    (bytes, &bytes[bytes.len()..])
}
