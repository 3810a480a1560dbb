ghost use Rattle.std.specs.Prelude.{◌≡◌, ◌↔◌, false, refl, Some, IfOk, OnOk, IsErrOf, encode_utf8_all};
ghost use Rattle.std.specs.Str.{chars, bytes_eq};
ghost use Rattle.std.specs.List.{list_all, list_any};
ghost use Rattle.std.specs.Cmp.{partial_equiv_from_equiv, partial_order_from_agreeing_total, on_total};
ghost use Rattle.std.specs.Cmp.Lexicographic.{slice_cmp, bytes_decides, nat_list_eq_equiv, nat_list_cmp_total};
ghost use Rattle.std.specs.Hash as fed;
ghost use Rattle.std.proofs.Math.Path.{ap};
ghost use Rattle.std.specs.Ordering.{nat_cmp, on, as_partial_cmp};
ghost use Rattle.unicode_ident.specs.Ident.{is_xid_start, is_xid_continue};
ghost use Rattle.cc_base.specs.NameTexts.{bytes_eq-order};
ghost use Rattle.cc_base.specs.Names.{first_passes, is_reserved, spells_name, IsName};

use std::alloc::{AllocError, Global};
use std::cmp::Ordering;
use std::fmt;
use std::hash::{Hash, Hasher};
use std::marker::Model;
use std::rc::RcStr;

/// The words of the language, which name nothing.
pub const RESERVED_WORDS: [&str; 27] = [
    "import", "def", "rec", "fun", "val", "if", "then", "else", "box", "unbox", "boundary", "exit",
    "repeat", "true", "false", "unit", "cap", "Unit", "Bool", "Int", "Str", "Any", "Console",
    "File", "Counter", "Exit", "Box",
];

fn first_may_start(text: &str) -> bool
    ensures { result ≡ first_passes is_xid_start (chars text.now) }
{
    match text.chars().next() {
        Some(first) => unicode_ident::is_xid_start(first),
        None => false,
    }
}

fn all_may_continue(text: &str) -> bool
    ensures { result ≡ list_all is_xid_continue (chars text.now) }
{
    text.chars()
        .all(|character| unicode_ident::is_xid_continue(character))
}

// Whether the two are one. Most that are not differ in the first byte.
#[inline]
fn is_same(word: &str, text: &str) -> bool
    ensures { result ≡ bytes_eq word.now text.now }
{
    word.as_bytes().first() == text.as_bytes().first() && word == text
}

fn is_among(words: &[&str], text: &str) -> bool
    ensures { result ≡ list_any (λ word. bytes_eq word.now text.now) words.now }
{
    words.iter().any(|word| is_same(*word, text))
}

/// Whether the text is one of the reserved words.
pub fn is_reserved(text: &str) -> bool
    ensures { result ≡ is_reserved (chars text.now) }
{
    if text.len() > 8 {
        return false;
    }
    match text.len() {
        1 => false,
        2 => is_among(&["if"], text),
        3 => is_among(
            &[
                "def", "rec", "fun", "val", "box", "cap", "Int", "Str", "Any", "Box",
            ],
            text,
        ),
        4 => is_among(
            &[
                "then", "else", "exit", "true", "unit", "Unit", "Bool", "File", "Exit",
            ],
            text,
        ),
        5 => is_among(&["unbox", "false"], text),
        6 => is_among(&["import", "repeat"], text),
        7 => is_among(&["Console", "Counter"], text),
        8 => is_among(&["boundary"], text),
        _ => is_among(&RESERVED_WORDS, text),
    }
}

/// Whether the text is a name: a character that may start an identifier, then characters that may continue one, and no
/// reserved word.
pub fn is_name(text: &str) -> bool
    ensures { result ≡ spells_name (chars text.now) }
{
    first_may_start(text) && all_may_continue(text) && !is_reserved(text)
}

/// Why a text gives no `Name`.
#[derive(Clone, Copy, Debug, PartialEq, Eq)]
pub enum NameError {
    /// `is_name` answers false.
    NotAName,
    /// There is no memory for a copy.
    NoMemory,
}

/// A name, which contracts see as its list of code points. It is ordered as std orders text.
#[derive(Drop)]
pub struct Name {
    text: RcStr,
}

impl Model for Name {
    ghost use Rattle.std.specs.Prelude.{List, ℕ};
    ghost use Rattle.std.specs.Rc.{rc_str_bytes};
    ghost use Rattle.std.specs.Str.{chars};
    ghost use Rattle.cc_base.specs.Names.{IsName};

    ghost Value = { List ℕ };

    ghost view = { λ n. chars (rc_str_bytes n.text) };

    ghost invariant = { λ n. IsName (chars (rc_str_bytes n.text)) };
}

impl Name {
    /// The name that the text is, refused exactly where it is none.
    pub fn read(alloc: Global, text: &str) -> Result<Name, NameError>
        ensures ok { IfOk result (λ name. name ≡ chars text.now) }
        ensures named { OnOk result (IsName (chars text.now)) }
        ensures refused { IsErrOf result NameError.NotAName ↔ (spells_name (chars text.now) ≡ false) }
    {
        if !is_name(text) {
            return Err(NameError::NotAName);
        }
        match RcStr::from_str(alloc, text) {
            Ok(text) => Ok(Name { text }),
            Err(AllocError) => Err(NameError::NoMemory),
        }
    }

    /// The name as text.
    pub fn as_str(&self) -> &str
        ensures bytes { result.now ≡ encode_utf8_all self.now }
        ensures characters { chars result.now ≡ self.now }
    {
        self.text.as_str()
    }
}

/// The text of the name.
impl fmt::Display for Name {
    ghost output = { λ name. Some (encode_utf8_all name) };

    fn fmt<W: fmt::Write>(&self, f: &mut fmt::Formatter<W>) -> fmt::Result {
        f.write_str(self.as_str())
    }
}

/// A clone shares the text.
impl Clone for Name {
    ghost is_clone = { λ name copy. copy ≡ name };

    fn clone(&self) -> Result<Name, AllocError> {
        let text = self.text.clone()?;
        Ok(Name { text })
    }
}

impl PartialEq for Name {
    ghost eq = { λ a b. bytes_eq a b };

    ghost laws = { partial_equiv_from_equiv nat_list_eq_equiv };

    fn eq(&self, other: &Name) -> bool {
        self.as_str() == other.as_str()
    }
}

impl Eq for Name {
    ghost laws = { nat_list_eq_equiv };
}

/// The hash of the name's text.
impl Hash for Name {
    ghost hash_input = { λ name. fed.str (encode_utf8_all name) };

    ghost respects_eq = { λ a b same. ap (λ name. fed.str (encode_utf8_all name)) ((bytes_decides a b).0 same) };

    fn hash<H: Hasher>(&self, state: &mut H) {
        self.as_str().hash(state);
    }
}

impl PartialOrd for Name {
    ghost partial_cmp = { as_partial_cmp (on encode_utf8_all (slice_cmp nat_cmp)) };

    ghost laws = { partial_order_from_agreeing_total (on encode_utf8_all (slice_cmp nat_cmp)) (on_total encode_utf8_all nat_list_cmp_total) (λ a b. refl) bytes_eq-order };

    fn partial_cmp(&self, other: &Name) -> Option<Ordering> {
        Some(self.cmp(other))
    }
}

/// The order of std's texts: by the bytes of UTF-8, the first difference decides.
impl Ord for Name {
    ghost cmp = { on encode_utf8_all (slice_cmp nat_cmp) };

    ghost total = { on_total encode_utf8_all nat_list_cmp_total };

    ghost matches_partial_cmp = { λ a b. refl };

    ghost matches_eq = { bytes_eq-order };

    fn cmp(&self, other: &Name) -> Ordering {
        self.as_str().cmp(other.as_str())
    }
}
