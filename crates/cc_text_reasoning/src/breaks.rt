//! What a token breaks at.

ghost use Rattle.std.specs.Prelude.{◌≡◌, option_map};
ghost use Rattle.std.specs.Str.{chars};
ghost use Rattle.cc_lex.specs.Forms as lexical;
ghost use Rattle.cc_text_reasoning.specs.Breaking.{next_of, behind_inside, breaking, IsBehindInside};
ghost use Rattle.cc_text_reasoning.specs.Views.{break_of};

use crate::reason::Break;
use crate::texts::first_and_rest;

// A text between quotes has at most so many characters.
const LONGEST_TEXT: usize = 200;

// Whether the character may stand between the quotes of a text.
fn stands_in_string(character: char) -> bool
    ensures { result ≡ lexical.stands_in_string character }
{
    character >= ' ' && !(character == '"' || character == '\\' || character == '\u{7f}')
}

// What follows the first character, if that may stand between quotes.
fn past_inside(text: &str) -> Option<&str>
    ensures { IsBehindInside (chars text.now) (option_map (λ rest. rest.now) result) }
{
    let Some((first, rest)) = first_and_rest(text) else {
        return None;
    };
    if stands_in_string(first) {
        Some(rest)
    } else {
        None
    }
}

// What stands at the front, or the end.
fn next_of(text: &str) -> Break
    ensures { break_of result ≡ next_of (chars text.now) }
{
    match first_and_rest(text) {
        Some((first, _)) => Break::AtCharacter(first),
        None => Break::AtEnd,
    }
}

// What a string breaks at, behind its first quote.
fn break_of_string(text: &str) -> Break
    ensures { break_of result ≡ next_of (behind_inside 200 (chars text.now)) }
{
    let mut rest = text;
    for _ in 0..LONGEST_TEXT {
        match past_inside(rest) {
            Some(behind) => rest = behind,
            None => return next_of(rest),
        }
    }
    next_of(rest)
}

/// What a token breaks at, at the front of a text where none begins.
#[tactic(auto, unfolding(crate::specs::Breaking::breaking))]
pub(crate) fn first_break(text: &str) -> Break
    ensures { break_of result ≡ breaking (chars text.now) }
{
    let Some((first, behind)) = first_and_rest(text) else {
        return Break::AtEnd;
    };
    if first.is_ascii_digit() {
        return Break::TooGreat;
    }
    match first {
        '"' => break_of_string(behind),
        '/' => next_of(behind),
        _ => Break::AtCharacter(first),
    }
}
