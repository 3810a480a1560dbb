//! Readers of words, symbols and names, which take no room.

ghost use Rattle.std.specs.Prelude.{◌≡◌, nat_eq};
ghost use Rattle.cc_lex.specs.Lexemes.{lexeme_of, placed_all};
ghost use Rattle.cc_grammar.specs.Tests.{word_number, symbol_number, is_word, is_symbol, begins_word, begins_symbol};
ghost use Rattle.cc_grammar.specs.Reading.{word_at, symbol_at, name_at, placed_name_at};
ghost use Rattle.cc_parse.specs.Agreement.{Agrees};

use crate::stop::{Reading, Stop};
use cc_base::name::Name;
use cc_base::place::Place;
use cc_lex::token::{Symbol, Token, TokenKind, Word};

fn word_number(word: Word) -> u8
    ensures { result ≡ word_number word }
{
    word as u8
}

fn symbol_number(symbol: Symbol) -> u8
    ensures { result ≡ symbol_number symbol }
{
    symbol as u8
}

pub fn is_word(word: Word, kind: &TokenKind) -> bool
    ensures { result ≡ is_word word (lexeme_of kind.now) }
{
    match kind {
        TokenKind::Word(other) => word_number(word) == word_number(*other),
        _ => false,
    }
}

pub fn is_symbol(symbol: Symbol, kind: &TokenKind) -> bool
    ensures { result ≡ is_symbol symbol (lexeme_of kind.now) }
{
    match kind {
        TokenKind::Symbol(other) => symbol_number(symbol) == symbol_number(*other),
        _ => false,
    }
}

/// Whether the first token is this word.
pub fn begins_word(word: Word, tokens: &[Token]) -> bool
    ensures { result ≡ begins_word word (placed_all tokens.now) }
{
    match tokens {
        [token, ..] => is_word(word, &token.kind),
        [] => false,
    }
}

/// Whether the first token is this symbol.
pub fn begins_symbol(symbol: Symbol, tokens: &[Token]) -> bool
    ensures { result ≡ begins_symbol symbol (placed_all tokens.now) }
{
    match tokens {
        [token, ..] => is_symbol(symbol, &token.kind),
        [] => false,
    }
}

/// This word.
#[tactic(auto, unfolding(cc_grammar::specs::Reading::word_at))]
pub fn read_word(word: Word, spare: u32, tokens: &[Token]) -> Reading<'_, ()>
    ensures { Agrees (λ it. it) result (word_at word spare (placed_all tokens.now)) }
{
    match tokens {
        [token, rest @ ..] if is_word(word, &token.kind) => Ok(((), spare, rest)),
        _ => Err(Stop::Wrong(tokens)),
    }
}

/// This symbol.
#[tactic(auto, unfolding(cc_grammar::specs::Reading::symbol_at))]
pub fn read_symbol(symbol: Symbol, spare: u32, tokens: &[Token]) -> Reading<'_, ()>
    ensures { Agrees (λ it. it) result (symbol_at symbol spare (placed_all tokens.now)) }
{
    match tokens {
        [token, rest @ ..] if is_symbol(symbol, &token.kind) => Ok(((), spare, rest)),
        _ => Err(Stop::Wrong(tokens)),
    }
}

/// A name.
#[tactic(auto, unfolding(cc_grammar::specs::Reading::name_at))]
pub fn read_name(spare: u32, tokens: &[Token]) -> Reading<'_, Name>
    ensures { Agrees (λ name. name) result (name_at spare (placed_all tokens.now)) }
{
    match tokens {
        [token, rest @ ..] => match &token.kind {
            TokenKind::Name(name) => Ok((name.clone()?, spare, rest)),
            _ => Err(Stop::Wrong(tokens)),
        },
        [] => Err(Stop::Wrong(tokens)),
    }
}

/// A name with its place.
#[tactic(auto, unfolding(cc_grammar::specs::Reading::placed_name_at))]
pub fn read_placed_name(spare: u32, tokens: &[Token]) -> Reading<'_, (Place, Name)>
    ensures { Agrees (λ name. name) result (placed_name_at spare (placed_all tokens.now)) }
{
    match tokens {
        [token, rest @ ..] => match &token.kind {
            TokenKind::Name(name) => Ok(((token.at, name.clone()?), spare, rest)),
            _ => Err(Stop::Wrong(tokens)),
        },
        [] => Err(Stop::Wrong(tokens)),
    }
}
