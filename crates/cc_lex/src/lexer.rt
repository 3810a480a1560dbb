ghost use Rattle.std.specs.Prelude.{◌≡◌, ◌+◌, ◌++◌, take, drop, length, map, IfOk, encode_utf8};
ghost use Rattle.std.specs.List.{prefix_len};
ghost use Rattle.std.specs.Str.{chars};
ghost use Rattle.std.specs.Str.Lossy.{utf8_valid_len};
ghost use Rattle.cc_lex.specs.Lexical.{place_after, place_past, start, spanned_of, Lexes};
ghost use Rattle.cc_lex.specs.Cutting.{token_of, spanned_front, size_of, columns_past, is_space, Finds, FindsFront, Gives, cut};

use crate::error::LexError;
use crate::form::{blank_of, front_of, is_white};
use crate::kind::{kind_of, no_token};
use crate::known::Known;
use crate::size::{Class, Size, first_and_rest, size_in};
use crate::token::{Token, Tokens};
use cc_base::code::{Code, Diag};
use cc_base::place::Place;
use std::alloc::{AllocError, Global};

// Texts have more bytes than this for each token, mostly.
const BYTES_A_TOKEN: usize = 2;

fn next_place(place: Place, character: char) -> Result<Place, AllocError>
    ensures { IfOk result (λ next. next ≡ place_after place character) }
{
    if character == '\n' {
        let line = place.line.checked_add(1).ok_or(AllocError)?;
        Ok(Place { line, col: 1 })
    } else {
        let col = place.col.checked_add(1).ok_or(AllocError)?;
        Ok(Place {
            line: place.line,
            col,
        })
    }
}

fn sum(number: u32, count: usize) -> Result<u32, AllocError>
    ensures { IfOk result (λ sum. sum ≡ number + count) }
{
    if count > u32::MAX as usize {
        return Err(AllocError);
    }
    number.checked_add(count as u32).ok_or(AllocError)
}

fn offset_past(offset: u32, first: char, bytes: usize) -> Result<u32, AllocError>
    ensures { IfOk result (λ end. end ≡ (offset + length (encode_utf8 first)) + bytes) }
{
    let behind = sum(offset, first.len_utf8())?;
    sum(behind, bytes)
}

fn place_past(place: Place, first: char, characters: usize) -> Result<Place, AllocError>
    ensures { IfOk result (λ end. end ≡ columns_past (place_after place first) characters) }
{
    let next = next_place(place, first)?;
    let col = sum(next.col, characters)?;
    Ok(Place {
        line: next.line,
        col,
    })
}

#[tactic(auto, unfolding(crate::specs::Cutting::token_of))]
fn token_of(
    alloc: Global,
    text: &str,
    first: char,
    after: &str,
    at: Place,
    start: u32,
    known: &mut Known,
) -> Result<(Token, Size), LexError>
    requires { text.now ≡ encode_utf8 first ++ after.now }
    ensures found { Finds spanned_front at result (token_of at start first (chars after.now)) }
    ensures size { IfOk result (λ front. front.1 ≡ size_of (take front.1.characters (chars after.now))) }
{
    let Some((form, more)) = front_of(first, after) else {
        return Err(LexError::Refused(no_token(at)));
    };
    let end = offset_past(start, first, more.bytes)?;
    match kind_of(alloc, form, &text[..(end - start) as usize], at, known) {
        Ok(kind) => {
            let token = Token {
                kind,
                at,
                start,
                end,
            };
            Ok((token, more))
        }
        Err(error) => Err(error),
    }
}

// The size of the front with the white space behind it that does not end the line.
fn with_spaces(after: &str, front: Size) -> Size
    requires { front ≡ size_of (take front.characters (chars after.now)) }
    ensures { result ≡ size_of (take (front.characters + prefix_len is_space (drop front.characters (chars after.now))) (chars after.now)) }
{
    let spaces = size_in(Class::Spaces, &after[front.bytes..]);
    Size {
        characters: front.characters + spaces.characters,
        bytes: front.bytes + spaces.bytes,
    }
}

// Finds what begins with the first character, and adds its token, if it is one. The size of what more belongs to it.
fn find_front(
    alloc: Global,
    tokens: &mut Vec<Token>,
    text: &str,
    first: char,
    after: &str,
    at: Place,
    start: u32,
    known: &mut Known,
) -> Result<Size, LexError>
    requires { text.now ≡ encode_utf8 first ++ after.now }
    ensures { FindsFront at start first (chars after.now) (map spanned_of tokens.old.items) result (map spanned_of tokens.new.items) }
{
    if is_white(first) {
        return Ok(size_in(Class::Spaces, after));
    }
    if let Some(more) = blank_of(first, after) {
        return Ok(more);
    }
    match token_of(alloc, text, first, after, at, start, known) {
        Ok(front) => {
            let (token, more) = front;
            tokens.push(token)?;
            Ok(with_spaces(after, more))
        }
        Err(error) => Err(error),
    }
}

fn cut(alloc: Global, text: &str) -> Result<Tokens, LexError>
    ensures found { Gives result (cut 0 start 0 (chars text.now)) }
    ensures end { IfOk result (λ tokens. tokens.end ≡ place_past start (chars text.now)) }
{
    let mut tokens = Vec::with_capacity(alloc, text.len() / BYTES_A_TOKEN)?;
    let mut known = Known::new(alloc, text.len())?;
    let mut place = Place { line: 1, col: 1 };
    let mut offset: u32 = 0;
    let mut rest = text;
    while let Some((first, after)) = first_and_rest(rest) {
        let more = match find_front(
            alloc,
            &mut tokens,
            rest,
            first,
            after,
            place,
            offset,
            &mut known,
        ) {
            Ok(more) => more,
            Err(error) => return Err(error),
        };
        place = place_past(place, first, more.characters)?;
        offset = offset_past(offset, first, more.bytes)?;
        rest = &after[more.bytes..];
    }
    Ok(Tokens { tokens, end: place })
}

fn valid_front(bytes: &[u8]) -> &str
    ensures { result.now ≡ take (utf8_valid_len bytes.now) bytes.now }
{
    match bytes.utf8_chunks().next() {
        Some(chunk) => chunk.valid(),
        None => "",
    }
}

fn end_of(text: &str) -> Result<Place, AllocError>
    ensures { IfOk result (λ end. end ≡ place_past start (chars text.now)) }
{
    let mut place = Place { line: 1, col: 1 };
    for character in text.chars() {
        place = next_place(place, character)?;
    }
    Ok(place)
}

/// The tokens of the bytes, or their refusal: as `E01` just past the longest front that is UTF-8, where not all of them are,
/// and as `E02` at the first place where no token begins. `NoMemory` for want of memory; a place or an offset past
/// `u32::MAX` counts as that.
pub fn lex(alloc: Global, bytes: &[u8]) -> Result<Tokens, LexError>
    ensures { Lexes bytes.now result }
{
    match str::from_utf8(bytes) {
        Ok(text) => cut(alloc, text),
        Err(_) => {
            let place = end_of(valid_front(bytes))?;
            Err(LexError::Refused(Diag {
                code: Code::E01,
                place,
            }))
        }
    }
}
