ghost use Rattle.std.specs.Prelude.{◌≡◌, ◌+◌, ◌<◌, ◌≤◌, [], ◌++◌, length, take, drop};

/// Copies the bytes from place `at` on to the front of `buf`, at most `most`, and answers how many.
pub(crate) fn copy_from(bytes: &[u8], at: usize, most: usize, buf: &mut [u8]) -> usize
    requires { at ≤ length bytes.now }
    ensures room { result ≤ length buf.old }
    ensures most { result ≤ most }
    ensures inside { at + result ≤ length bytes.now }
    ensures copied { drop at bytes.now ≡ take result buf.new ++ drop (at + result) bytes.now }
    ensures none { result ≡ 0 → 0 < most → 0 < length buf.old → drop at bytes.now ≡ [] }
{
    let count = most.min(buf.len()).min(bytes.len() - at);
    buf[..count].copy_from_slice(&bytes[at..at + count]);
    count
}
