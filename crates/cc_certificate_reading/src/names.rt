//! Which name a word spells.

ghost use Rattle.std.specs.Prelude.{◌≡◌, ◌≤◌, length};
ghost use Rattle.cc_certificate_text.specs.Reading.{spelled_position};

use cc_names::Names;

// The position of the name that the word spells, if it spells one of these.
pub(crate) fn position_of(names: &Names, word: &[u8]) -> Option<u32>
    requires { length names.now ≤ 4294967296 }
    ensures { result ≡ spelled_position names.now word.now }
{
    names.spelled(word)
}
