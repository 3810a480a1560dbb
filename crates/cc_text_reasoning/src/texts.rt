//! Texts from a place on.

ghost use Rattle.std.specs.Prelude.{◌≡◌, ◌∷◌, [], IfOk, IsUtf8, MatchOption};
ghost use Rattle.std.specs.Str.{chars};
ghost use Rattle.cc_lex.specs.Lexical.{place_after, start};
ghost use Rattle.cc_text_reasoning.specs.Places.{is_same_place, from_place};

use cc_base::place::Place;
use std::alloc::AllocError;

/// Whether the places are one.
pub(crate) fn is_same(one: Place, other: Place) -> bool
    ensures { result ≡ is_same_place one other }
{
    one.line == other.line && one.col == other.col
}

/// The first character of a text, and what follows it.
pub(crate) fn first_and_rest(text: &str) -> Option<(char, &str)>
    ensures { MatchOption result (chars text.now ≡ []) (λ it. (chars text.now ≡ it.0 ∷ chars it.1.now) × IsUtf8 it.1.now) }
{
    let mut characters = text.chars();
    match characters.next() {
        Some(first) => Some((first, characters.as_str())),
        None => None,
    }
}

// The place after a character.
fn next_place(place: Place, character: char) -> Result<Place, AllocError>
    ensures { IfOk result (λ next. next ≡ place_after place character) }
{
    if character == '\n' {
        let line = place.line.checked_add(1).ok_or(AllocError)?;
        Ok(Place { line, col: 1 })
    } else {
        let col = place.col.checked_add(1).ok_or(AllocError)?;
        Ok(Place {
            line: place.line,
            col,
        })
    }
}

/// What of the text stands from the place on. Fails only where a line or a column is past `u32::MAX`.
pub(crate) fn text_from(text: &str, at: Place) -> Result<&str, AllocError>
    ensures { IfOk result (λ rest. chars rest.now ≡ from_place at start (chars text.now)) }
{
    let mut place = Place { line: 1, col: 1 };
    let mut rest = text;
    while let Some((first, behind)) = first_and_rest(rest) {
        if is_same(place, at) {
            return Ok(rest);
        }
        place = next_place(place, first)?;
        rest = behind;
    }
    Ok(rest)
}
