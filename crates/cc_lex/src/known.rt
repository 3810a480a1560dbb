//! What words, names and strings of a text were read as, so that one that comes again is not read again.

ghost use Rattle.std.specs.Prelude.{◌≡◌, IfOk, IfSome, None};
ghost use Rattle.std.specs.Rc.{rc_str_bytes};
ghost use Rattle.std.specs.Str.{chars};
ghost use Rattle.cc_lex.specs.Lexemes.{lexeme_of};
ghost use Rattle.cc_lex.specs.Cutting.{word_of, word_or_name};

use crate::token::{TokenKind, Word};
use crate::words::word_text;
use cc_base::name::Name;
use std::alloc::{AllocError, Global};
use std::rc::RcStr;

// So many are remembered of a text, and so many of a text with fewer bytes than the last number. Both are powers of two.
const COUNT: usize = 256;

const COUNT_OF_SHORT: usize = 32;

const BYTES_OF_SHORT: usize = 512;

// A name, which is no reserved word.
#[derive(Drop)]
struct KnownName {
    name: Name,
    ghost is: { word_of name ≡ None },
}

// A word or a name that was read.
#[derive(Drop)]
enum Spelling {
    Word(Word),
    Name(KnownName),
}

/// Words and names of a text that were read, and the string that was read last. Letters have one place, which others may
/// take from them.
#[derive(Drop)]
pub struct Known {
    places: Vec<Option<Spelling>>,
    last: Option<RcStr>,
}

// The place of the letters among so many, which is a power of two.
fn place_of(letters: &str, count: usize) -> usize {
    let mut sum: usize = 0;
    for byte in letters.as_bytes() {
        sum = sum.wrapping_mul(31).wrapping_add(*byte as usize);
    }
    sum & count.wrapping_sub(1)
}

// The word, where it has these letters.
fn word_if_of(word: Word, letters: &str) -> Option<TokenKind>
    ensures { IfSome result (λ kind. lexeme_of kind ≡ word_or_name (chars letters.now) (word_of (chars letters.now))) }
{
    if word_text(word) == letters {
        Some(TokenKind::Word(word))
    } else {
        None
    }
}

// The name, where it has these letters. Its text is shared.
fn name_if_of(known: &KnownName, letters: &str) -> Result<Option<TokenKind>, AllocError>
    ensures { IfOk result (λ k. IfSome k (λ kind. lexeme_of kind ≡ word_or_name (chars letters.now) (word_of (chars letters.now)))) }
{
    if known.name.as_str() == letters {
        Ok(Some(TokenKind::Name(known.name.clone()?)))
    } else {
        Ok(None)
    }
}

// What the letters are, where the spelling is theirs.
fn kind_if_of(spelling: &Spelling, letters: &str) -> Result<Option<TokenKind>, AllocError>
    ensures { IfOk result (λ k. IfSome k (λ kind. lexeme_of kind ≡ word_or_name (chars letters.now) (word_of (chars letters.now)))) }
{
    match spelling {
        Spelling::Word(word) => Ok(word_if_of(*word, letters)),
        Spelling::Name(known) => name_if_of(known, letters),
    }
}

// The name, to be remembered. Its text is shared.
fn known_name(name: &Name) -> Result<KnownName, AllocError>
    requires { word_of name.now ≡ None }
{
    let name = name.clone()?;
    Ok(KnownName { name })
}

// The spelling of a kind with these letters, if it is a word or a name.
fn spelling_of(letters: &str, kind: &TokenKind) -> Result<Option<Spelling>, AllocError>
    requires { lexeme_of kind.now ≡ word_or_name (chars letters.now) (word_of (chars letters.now)) }
{
    match kind {
        TokenKind::Word(word) => Ok(Some(Spelling::Word(*word))),
        TokenKind::Name(name) => Ok(Some(Spelling::Name(known_name(name)?))),
        TokenKind::Number(_) | TokenKind::Text(_) | TokenKind::Symbol(_) => Ok(None),
    }
}

impl Known {
    /// None was read of a text of so many bytes.
    pub fn new(alloc: Global, bytes: usize) -> Result<Known, AllocError> {
        let count = if bytes < BYTES_OF_SHORT {
            COUNT_OF_SHORT
        } else {
            COUNT
        };
        let mut places = Vec::with_capacity(alloc, count)?;
        for _ in 0..count {
            places.push(None)?;
        }
        Ok(Known { places, last: None })
    }

    /// What the letters are, if that is remembered.
    pub fn kind(&self, letters: &str) -> Result<Option<TokenKind>, AllocError>
        ensures { IfOk result (λ k. IfSome k (λ kind. lexeme_of kind ≡ word_or_name (chars letters.now) (word_of (chars letters.now)))) }
    {
        match self.places.get(place_of(letters, self.places.len())) {
            Some(Some(spelling)) => kind_if_of(spelling, letters),
            _ => Ok(None),
        }
    }

    /// Remembers what the letters are. Fails only for want of memory.
    pub fn remember(&mut self, letters: &str, kind: &TokenKind) -> Result<(), AllocError>
        requires { lexeme_of kind.now ≡ word_or_name (chars letters.now) (word_of (chars letters.now)) }
    {
        let place = place_of(letters, self.places.len());
        if place < self.places.len() {
            self.places[place] = spelling_of(letters, kind)?;
        }
        Ok(())
    }

    /// What stands in a string. Its text is shared with that of the string that was read last, where they are the same.
    /// Fails only for want of memory.
    pub fn text(&mut self, alloc: Global, inside: &str) -> Result<RcStr, AllocError>
        ensures { IfOk result (λ text. chars (rc_str_bytes text) ≡ chars inside.now) }
    {
        if let Some(last) = &self.last {
            if last.as_str() == inside {
                return Ok(last.clone()?);
            }
        }
        let text = RcStr::from_str(alloc, inside)?;
        self.last = Some(text.clone()?);
        Ok(text)
    }
}
