//! Literals.

ghost use Rattle.std.specs.Prelude.{◌≡◌, ◌&&◌, nat_le, length, IfOk, option_map};
ghost use Rattle.std.specs.List.{list_all};
ghost use Rattle.std.specs.Str.{chars};
ghost use Rattle.cc_base.specs.Literals as plain;
ghost use Rattle.cc_lex.specs.Forms.{stands_in_string};
ghost use Rattle.cc_certificate_text.specs.Reading.{literal_where, text_of, number_literal, literal_of};

use cc_base::literal::Lit;
use cc_words::words::number_of;
use std::alloc::{AllocError, Global};
use std::rc::RcStr;
use std::str;

// Whether the character may stand in a string.
fn stands_in_string(character: char) -> bool
    ensures { result ≡ stands_in_string character }
{
    let code = character as u32;
    32 <= code && !(code == 34 || code == 92 || code == 127)
}

fn characters_of(alloc: Global, text: &str) -> Result<Vec<char>, AllocError>
    ensures { IfOk result (λ characters. characters.items ≡ chars text.now) }
{
    text.chars().collect(alloc)
}

// Whether each of the characters may stand in a string.
fn all_stand_in_strings(characters: &[char]) -> bool
    ensures { result ≡ list_all stands_in_string characters.now }
{
    characters
        .iter()
        .all(|character| stands_in_string(*character))
}

fn is_short(characters: &[char]) -> bool
    ensures { result ≡ nat_le (length characters.now) 200 }
{
    characters.len() <= 200
}

// Whether each of the characters may stand in a string, and there are at most 200.
fn is_string(characters: &[char]) -> bool
    ensures { result ≡ (list_all stands_in_string characters.now && nat_le (length characters.now) 200) }
{
    all_stand_in_strings(characters) && is_short(characters)
}

// The text, if it may stand in quotes.
fn string_of(alloc: Global, text: &str) -> Result<Option<Lit>, AllocError>
    ensures { IfOk result (λ literal. option_map plain.literal_of literal ≡ literal_where (list_all stands_in_string (chars text.now) && nat_le (length (chars text.now)) 200) (plain.TextLiteral (chars text.now))) }
{
    let characters = characters_of(alloc, text)?;
    if !is_string(characters.as_slice()) {
        return Ok(None);
    }
    let text = RcStr::from_str(alloc, text)?;
    Ok(Some(Lit::Str(text)))
}

/// The text that the word is, if it may stand in quotes.
pub fn text_of(alloc: Global, word: &[u8]) -> Result<Option<Lit>, AllocError>
    ensures { IfOk result (λ literal. option_map plain.literal_of literal ≡ text_of word.now) }
{
    let Ok(text) = str::from_utf8(word) else {
        return Ok(None);
    };
    string_of(alloc, text)
}

// The number that the word is.
#[tactic(auto, unfolding(cc_certificate_text::specs::Reading::number_literal))]
fn number_literal(word: &[u8]) -> Option<Lit>
    ensures { option_map plain.literal_of result ≡ number_literal word.now }
{
    match number_of(word, 9_223_372_036_854_775_807) {
        Some(number) => Some(Lit::Int(number as i64)),
        None => None,
    }
}

/// The literal that the word is.
#[tactic(auto, unfolding(cc_certificate_text::specs::Reading::literal_of))]
pub fn literal_of(word: &[u8]) -> Option<Lit>
    ensures { option_map plain.literal_of result ≡ literal_of word.now }
{
    if word == "unit".as_bytes() {
        return Some(Lit::Unit);
    }
    if word == "true".as_bytes() {
        return Some(Lit::Bool(true));
    }
    if word == "false".as_bytes() {
        return Some(Lit::Bool(false));
    }
    number_literal(word)
}
