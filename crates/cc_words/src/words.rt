//! Words of a line, and the names and numbers that words are.

ghost use Rattle.std.specs.Prelude.{◌≡◌, ◌≤◌, ◌||◌, pos, map, IfOk, IfSome};
ghost use Rattle.std.specs.Char.{is_ascii_digit};
ghost use Rattle.std.specs.List.{list_all};
ghost use Rattle.std.specs.Option.{option_map};
ghost use Rattle.cc_words.specs.Words.{after_prefix, cut_at, split_at, first_and_rest, one_of, two_of, name_of, begins_numeral, is_numeral, number_of, negative_of, signed_of, all_of, pair_of};

use cc_base::name::{Name, NameError};
use std::alloc::{AllocError, Global};
use std::str;

/// What stands behind the prefix, where the bytes begin with it.
pub fn behind<'a>(bytes: &'a [u8], prefix: &str) -> Option<&'a [u8]>
    ensures { option_map (λ rest. rest.now) result ≡ after_prefix bytes.now prefix.now }
{
    bytes.strip_prefix(prefix.as_bytes())
}

/// The bytes before the first separator, and those behind it.
pub fn cut_at(bytes: &[u8], separator: u8) -> Option<(&[u8], &[u8])>
    ensures { option_map (λ cut. (cut.0.now, cut.1.now)) result ≡ cut_at separator bytes.now }
{
    for (at, byte) in bytes.iter().enumerate() {
        if *byte == separator {
            return Some((&bytes[..at], &bytes[at + 1..]));
        }
    }
    None
}

/// What stands between the separators.
pub fn split_at(alloc: Global, bytes: &[u8], separator: u8) -> Result<Vec<&[u8]>, AllocError>
    ensures { IfOk result (λ words. map (λ word. word.now) words.items ≡ split_at separator bytes.now) }
{
    let mut words = Vec::new(alloc);
    let mut rest = bytes;
    while let Some((word, behind)) = cut_at(rest, separator) {
        words.push(word)?;
        rest = behind;
    }
    words.push(rest)?;
    Ok(words)
}

/// The first word, and those behind it.
pub fn first_and_rest<'a, 'b>(words: &'b [&'a [u8]]) -> Option<(&'a [u8], &'b [&'a [u8]])>
    ensures { option_map (λ it. (it.0.now, map (λ word. word.now) it.1.now)) result ≡ first_and_rest (map (λ word. word.now) words.now) }
{
    if words.is_empty() {
        return None;
    }
    Some((words[0], &words[1..]))
}

/// The word, where there is one alone.
pub fn one_of<'a>(words: &[&'a [u8]]) -> Option<&'a [u8]>
    ensures { option_map (λ it. it.now) result ≡ one_of (map (λ word. word.now) words.now) }
{
    if words.len() != 1 {
        return None;
    }
    Some(words[0])
}

/// The two words, where there are two.
pub fn two_of<'a>(words: &[&'a [u8]]) -> Option<(&'a [u8], &'a [u8])>
    ensures { option_map (λ it. (it.0.now, it.1.now)) result ≡ two_of (map (λ word. word.now) words.now) }
{
    if words.len() != 2 {
        return None;
    }
    Some((words[0], words[1]))
}

/// The name that a word is, if it is one.
#[tactic(auto, unfolding(crate::specs::Words::name_of))]
pub fn name_of(alloc: Global, word: &[u8]) -> Result<Option<Name>, AllocError>
    ensures { IfOk result (λ name. name ≡ name_of word.now) }
{
    let Ok(text) = str::from_utf8(word) else {
        return Ok(None);
    };
    match Name::read(alloc, text) {
        Ok(name) => Ok(Some(name)),
        Err(NameError::NotAName) => Ok(None),
        Err(NameError::NoMemory) => Err(AllocError),
    }
}

// Whether one of the two holds.
fn either(one: bool, other: bool) -> bool
    ensures { result ≡ (one || other) }
{
    one || other
}

// Whether there is a first byte, and it is no 0 unless it stands alone.
fn begins_numeral(word: &[u8]) -> bool
    ensures { result ≡ begins_numeral word.now }
{
    match word.first() {
        Some(first) => either(*first != b'0', word.len() == 1),
        None => false,
    }
}

fn are_digits(word: &[u8]) -> bool
    ensures { result ≡ list_all is_ascii_digit word.now }
{
    word.iter().all(|byte| byte.is_ascii_digit())
}

// Whether the word is digits, the first of which is no 0 unless it stands alone.
fn is_numeral(word: &[u8]) -> bool
    ensures { result ≡ is_numeral word.now }
{
    begins_numeral(word) && are_digits(word)
}

/// The number up to a limit that a word writes, if it writes one.
#[tactic(auto, unfolding(crate::specs::Words::number_of))]
pub fn number_of(word: &[u8], most: u64) -> Option<u64>
    ensures value { result ≡ number_of most word.now }
    ensures low { IfSome result (λ number. number ≤ most) }
{
    if !is_numeral(word) {
        return None;
    }
    let Ok(text) = str::from_utf8(word) else {
        return None;
    };
    match text.parse::<u64>() {
        Ok(number) if number <= most => Some(number),
        _ => None,
    }
}

// The number behind a minus, which is no 0.
fn negative_of(number: u64) -> Option<i64>
    requires { number ≤ 9223372036854775808 }
    ensures { result ≡ negative_of number }
{
    if number == 0 {
        return None;
    }
    Some(-1 - (number - 1) as i64)
}

fn positive_of(number: u64) -> i64
    requires { number ≤ 9223372036854775807 }
    ensures { result ≡ pos number }
{
    number as i64
}

/// The number of 64 bits with its sign that a word writes, if it writes one.
#[tactic(auto, unfolding(crate::specs::Words::signed_of))]
pub fn signed_of(word: &[u8]) -> Option<i64>
    ensures { result ≡ signed_of word.now }
{
    match word.strip_prefix(b"-".as_slice()) {
        Some(digits) => match number_of(digits, 9_223_372_036_854_775_808) {
            Some(number) => negative_of(number),
            None => None,
        },
        None => match number_of(word, 9_223_372_036_854_775_807) {
            Some(number) => Some(positive_of(number)),
            None => None,
        },
    }
}

/// The numbers of 64 bits that words write, if each writes one.
pub fn signed_numbers_of(alloc: Global, words: &[&[u8]]) -> Result<Option<Vec<i64>>, AllocError>
    ensures { IfOk result (λ found. option_map (λ v. v.items) found ≡ all_of signed_of (map (λ word. word.now) words.now)) }
{
    let mut numbers = Vec::new(alloc);
    for word in words.iter() {
        let Some(number) = signed_of(word) else {
            return Ok(None);
        };
        numbers.push(number)?;
    }
    Ok(Some(numbers))
}

/// The numbers up to a limit that words write, if each writes one.
pub fn numbers_of(alloc: Global, words: &[&[u8]], most: u32) -> Result<Option<Vec<u32>>, AllocError>
    ensures { IfOk result (λ found. option_map (λ v. v.items) found ≡ all_of (number_of most) (map (λ word. word.now) words.now)) }
{
    let mut numbers = Vec::new(alloc);
    for word in words.iter() {
        let Some(number) = number_of(word, u64::from(most)) else {
            return Ok(None);
        };
        numbers.push(number as u32)?;
    }
    Ok(Some(numbers))
}

/// The two names with a point between them that a word is, if it is that.
#[tactic(auto, unfolding(crate::specs::Words::pair_of))]
pub fn pair_of(alloc: Global, word: &[u8]) -> Result<Option<(Name, Name)>, AllocError>
    ensures { IfOk result (λ pair. pair ≡ pair_of word.now) }
{
    let parts = split_at(alloc, word, b'.')?;
    let Some((first, second)) = two_of(parts.as_slice()) else {
        return Ok(None);
    };
    let Some(first) = name_of(alloc, first)? else {
        return Ok(None);
    };
    let Some(second) = name_of(alloc, second)? else {
        return Ok(None);
    };
    Ok(Some((first, second)))
}

/// The pairs of names that words are, if each is one.
pub fn pairs_of(alloc: Global, words: &[&[u8]]) -> Result<Option<Vec<(Name, Name)>>, AllocError>
    ensures { IfOk result (λ found. option_map (λ v. v.items) found ≡ all_of pair_of (map (λ word. word.now) words.now)) }
{
    let mut pairs = Vec::new(alloc);
    for word in words.iter() {
        let Some(pair) = pair_of(alloc, word)? else {
            return Ok(None);
        };
        pairs.push(pair)?;
    }
    Ok(Some(pairs))
}
