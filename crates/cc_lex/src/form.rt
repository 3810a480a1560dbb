ghost use Rattle.std.specs.Prelude.{◌≡◌};
ghost use Rattle.std.specs.Str.{chars};
ghost use Rattle.unicode_ident.specs.Ident.{is_xid_start};
ghost use Rattle.cc_lex.specs.Lexical.{is_white};
ghost use Rattle.cc_lex.specs.Cutting.{short_symbol, pair_symbol, long_symbol, symbol_front, string_front, front_of, blank_of, sized, sized_front};

use crate::size::{Class, Size, begins_with, first_and_rest, size_in};
use crate::token::Symbol;

/// What a token is cut from, before it is asked which token it is.
#[derive(Clone, Copy, Debug, PartialEq, Eq)]
pub enum Form {
    /// Digits, which may be too great for a number.
    Digits,
    /// A name or a reserved word.
    Word,
    /// A closed string.
    Text,
    /// A symbol.
    Symbol(Symbol),
}

/// Whether the character is white space.
#[inline]
pub fn is_white(character: char) -> bool
    ensures { result ≡ is_white character }
{
    character == ' ' || character == '\t' || character == '\r' || character == '\n'
}

/// The size of what follows the first character of the white space or the comment at the front of a text, if there is
/// one.
#[tactic(auto, unfolding(crate::specs::Cutting::blank_of))]
#[inline]
pub fn blank_of(first: char, after: &str) -> Option<Size>
    ensures { result ≡ sized (chars after.now) (blank_of first (chars after.now)) }
{
    if is_white(first) {
        Some(Size {
            characters: 0,
            bytes: 0,
        })
    } else if first == '/' && begins_with(after, '/') {
        Some(size_in(Class::Lines, after))
    } else {
        None
    }
}

#[inline]
fn starts_word(character: char) -> bool
    ensures { result ≡ is_xid_start character }
{
    if character.is_ascii() {
        character.is_ascii_alphabetic()
    } else {
        unicode_ident::is_xid_start(character)
    }
}

fn string_front(after: &str) -> Option<(Form, Size)>
    ensures { result ≡ sized_front (chars after.now) (string_front (chars after.now)) }
{
    let inside = size_in(Class::Strings, after);
    if inside.characters > 200 {
        return None;
    }
    let behind = &after[inside.bytes..];
    if !begins_with(behind, '"') {
        return None;
    }
    let size = Size {
        characters: inside.characters + 1,
        bytes: after.len() - behind.len() + 1,
    };
    Some((Form::Text, size))
}

#[tactic(auto, unfolding(crate::specs::Cutting::short_symbol))]
fn short_symbol(character: char) -> Option<Symbol>
    ensures { result ≡ short_symbol character }
{
    match character {
        '(' => Some(Symbol::Open),
        ')' => Some(Symbol::Close),
        '[' => Some(Symbol::OpenBracket),
        ']' => Some(Symbol::CloseBracket),
        '{' => Some(Symbol::OpenBrace),
        '}' => Some(Symbol::CloseBrace),
        ',' => Some(Symbol::Comma),
        ':' => Some(Symbol::Colon),
        ';' => Some(Symbol::Semicolon),
        '.' => Some(Symbol::Dot),
        '^' => Some(Symbol::Caret),
        '?' => Some(Symbol::Question),
        '=' => Some(Symbol::Equals),
        '<' => Some(Symbol::Less),
        '+' => Some(Symbol::Plus),
        '-' => Some(Symbol::Minus),
        '*' => Some(Symbol::Star),
        _ => None,
    }
}

#[tactic(auto, unfolding(crate::specs::Cutting::pair_symbol))]
fn pair_symbol(first: char, second: char) -> Option<Symbol>
    ensures { result ≡ pair_symbol first second }
{
    match (first, second) {
        ('=', '=') => Some(Symbol::DoubleEquals),
        ('=', '>') => Some(Symbol::DoubleArrow),
        ('-', '>') => Some(Symbol::Arrow),
        ('<', ':') => Some(Symbol::Below),
        _ => None,
    }
}

#[inline]
fn long_symbol(first: char, after: &str) -> Option<Symbol>
    ensures { result ≡ long_symbol first (chars after.now) }
{
    match first_and_rest(after) {
        Some((second, _)) => pair_symbol(first, second),
        None => None,
    }
}

fn symbol_front(first: char, after: &str) -> Option<(Form, Size)>
    ensures { result ≡ sized_front (chars after.now) (symbol_front (long_symbol first (chars after.now)) (short_symbol first)) }
{
    match long_symbol(first, after) {
        Some(symbol) => Some((
            Form::Symbol(symbol),
            Size {
                characters: 1,
                bytes: 1,
            },
        )),
        None => match short_symbol(first) {
            Some(symbol) => Some((
                Form::Symbol(symbol),
                Size {
                    characters: 0,
                    bytes: 0,
                },
            )),
            None => None,
        },
    }
}

/// The longest form at the front of a text, with the size of what follows its first character, if there is one.
#[tactic(auto, unfolding(crate::specs::Cutting::front_of))]
pub fn front_of(first: char, after: &str) -> Option<(Form, Size)>
    ensures { result ≡ sized_front (chars after.now) (front_of first (chars after.now)) }
{
    if first.is_ascii_digit() {
        Some((Form::Digits, size_in(Class::Digits, after)))
    } else if starts_word(first) {
        Some((Form::Word, size_in(Class::Words, after)))
    } else if first == '"' {
        string_front(after)
    } else {
        symbol_front(first, after)
    }
}
