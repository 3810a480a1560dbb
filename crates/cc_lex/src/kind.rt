ghost use Rattle.std.specs.Prelude.{◌≡◌, false, IfOk, Some};
ghost use Rattle.std.specs.Str.{chars};
ghost use Rattle.cc_base.specs.Names.{spells_name};
ghost use Rattle.cc_lex.specs.declared.form.Form.TheVariants as forms;
ghost use Rattle.cc_lex.specs.Lexemes.{lexeme_of, TextLexeme};
ghost use Rattle.cc_lex.specs.Forms.{IsDigits, IsWord, IsOfForm};
ghost use Rattle.cc_lex.specs.Cutting.{number_of, inside, word_of, word_or_name, spelled_by, no_token, Finds};

use crate::error::LexError;
use crate::form::Form;
use crate::known::Known;
use crate::token::{TokenKind, Word};
use crate::words::word_of;
use cc_base::code::{Code, Diag};
use cc_base::name::{Name, NameError};
use cc_base::place::Place;
use std::alloc::{AllocError, Global};

fn number_of(text: &str) -> Option<i64>
    requires { IsDigits (chars text.now) }
    ensures { result ≡ number_of (chars text.now) }
{
    text.parse::<i64>().ok()
}

// The reserved word that these letters are, which are no name.
fn reserved_word(text: &str) -> Word
    requires word { IsWord (chars text.now) }
    requires refused { spells_name (chars text.now) ≡ false }
    ensures { Some result ≡ word_of (chars text.now) }
{
    match word_of(text) {
        Some(word) => word,
        None => unreachable!(),
    }
}

// Names are sought first, since there are more of them.
fn word_kind(alloc: Global, text: &str) -> Result<TokenKind, AllocError>
    requires { IsWord (chars text.now) }
    ensures { IfOk result (λ kind. lexeme_of kind ≡ word_or_name (chars text.now) (word_of (chars text.now))) }
{
    match Name::read(alloc, text) {
        Ok(name) => Ok(TokenKind::Name(name)),
        Err(NameError::NoMemory) => Err(AllocError),
        Err(NameError::NotAName) => Ok(TokenKind::Word(reserved_word(text))),
    }
}

fn inside(text: &str) -> &str
    requires { IsOfForm forms.Text (chars text.now) }
    ensures { chars result.now ≡ inside (chars text.now) }
{
    &text[1..text.len() - 1]
}

fn text_kind(alloc: Global, text: &str, known: &mut Known) -> Result<TokenKind, AllocError>
    requires { IsOfForm forms.Text (chars text.now) }
    ensures { IfOk result (λ kind. lexeme_of kind ≡ TextLexeme (inside (chars text.now))) }
{
    let text = known.text(alloc, inside(text))?;
    Ok(TokenKind::Text(text))
}

/// The refusal of a text in which no token begins at this place.
pub fn no_token(place: Place) -> Diag
    ensures { result ≡ no_token place }
{
    Diag {
        code: Code::E02,
        place,
    }
}

// The same, which is remembered: letters that come again are not gone over again.
fn known_kind(alloc: Global, text: &str, known: &mut Known) -> Result<TokenKind, AllocError>
    requires { IsWord (chars text.now) }
    ensures { IfOk result (λ kind. lexeme_of kind ≡ word_or_name (chars text.now) (word_of (chars text.now))) }
{
    if let Some(kind) = known.kind(text)? {
        return Ok(kind);
    }
    let kind = word_kind(alloc, text)?;
    known.remember(text, &kind)?;
    Ok(kind)
}

/// The kind of the token that a text of this form is. A number that is too great is refused at the place.
pub fn kind_of(
    alloc: Global,
    form: Form,
    text: &str,
    at: Place,
    known: &mut Known,
) -> Result<TokenKind, LexError>
    requires { IsOfForm form (chars text.now) }
    ensures { Finds lexeme_of at result (spelled_by form (chars text.now)) }
{
    match form {
        Form::Digits => match number_of(text) {
            Some(number) => Ok(TokenKind::Number(number)),
            None => Err(LexError::Refused(no_token(at))),
        },
        Form::Word => Ok(known_kind(alloc, text, known)?),
        Form::Text => Ok(text_kind(alloc, text, known)?),
        Form::Symbol(symbol) => Ok(TokenKind::Symbol(symbol)),
    }
}
