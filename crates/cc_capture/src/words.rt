// Sets of numbers as words of 64 bits, in the order of their indexes. Only words with a bit set stand there.
ghost use Rattle.std.specs.Prelude.{◌≡◌, ◌≤◌, ◌<◌, ◌∷◌, [], length, slice_get, Some, IfOk, OnOk, OnErr};
ghost use Rattle.cc_capture.specs.Words as words;
ghost use Rattle.cc_capture.specs.Words.{IsBounded, IsWord, IsSparse};

use std::alloc::{AllocError, Global};
use std::cmp::Ordering;

// The bits of the numbers from 64 * at on.
#[derive(Clone, Copy)]
pub struct Word {
    pub at: u32,
    pub bits: u64,
}

// The index of the first word that does not come before the one with the given index.
fn place(items: &[Word], at: u32) -> usize
    requires { IsSparse items.now }
    ensures { result ≡ words.place at items.now }
{
    items.partition_point(|item| item.at < at)
}

// The bits of the word with an index.
fn word_bits(items: &[Word], at: u32) -> u64
    requires { IsSparse items.now }
    ensures { result ≡ words.word_bits at items.now }
{
    let index = place(items, at);
    if index < items.len() && items[index].at == at {
        items[index].bits
    } else {
        0
    }
}

pub fn holds(items: &[Word], number: u64) -> bool
    requires sparse { IsSparse items.now }
    requires within { number ≤ 12884901888 }
    ensures { result ≡ words.holds number items.now }
{
    let bits = word_bits(items, (number / 64) as u32);
    (bits >> (number % 64)) & 1 == 1
}

// The lowest number in a word, and the others.
pub fn split_lowest(word: Word) -> (u64, Word)
    requires { IsWord word }
    ensures numbers { words.word_numbers word ≡ result.0 ∷ words.word_numbers result.1 }
    ensures within { result.0 ≤ 12884901888 }
    ensures others { IsBounded result.1 }
{
    let place = word.bits.trailing_zeros();
    let number = u64::from(word.at) * 64 + u64::from(place);
    let others = Word {
        at: word.at,
        bits: word.bits & !(1 << place),
    };
    (number, others)
}

// The number at an index in a word.
fn number_in(word: Word, index: usize) -> u64
    requires bounded { IsBounded word }
    requires within { index < length (words.word_numbers word) }
    ensures { Some result ≡ slice_get (words.word_numbers word) index }
{
    let mut left = word;
    let mut before = index;
    while before > 0 {
        left = split_lowest(left).1;
        before -= 1;
    }
    split_lowest(left).0
}

// The number at an index, if there are so many.
pub fn number_at(items: &[Word], index: usize) -> Option<u64>
    requires { IsSparse items.now }
    ensures { result ≡ slice_get (words.numbers items.now) index }
{
    let mut before = index;
    for word in items {
        let count = word.bits.count_ones() as usize;
        if before < count {
            return Some(number_in(*word, before));
        }
        before -= count;
    }
    None
}

// The word of one number alone.
#[tactic(auto, unfolding(crate::specs::Words::single))]
fn single(number: u64) -> Word
    requires { number ≤ 12884901888 }
    ensures { result ≡ words.single number }
{
    Word {
        at: (number / 64) as u32,
        bits: 1 << (number % 64),
    }
}

// Unites the word with the others.
fn join_word(items: &mut Vec<Word>, word: Word) -> Result<(), AllocError>
    requires { IsSparse items.old.items }
    ensures ok { OnOk result (items.new.items ≡ words.joined (word ∷ []) items.old.items) }
    ensures err { OnErr result (items.new.items ≡ items.old.items) }
{
    let index = place(items.as_slice(), word.at);
    if index >= items.len() {
        items.push(word)?;
        return Ok(());
    }
    if items[index].at == word.at {
        items[index].bits |= word.bits;
        return Ok(());
    }
    items.insert(index, word)?;
    Ok(())
}

pub fn insert_number(items: &mut Vec<Word>, number: u64) -> Result<(), AllocError>
    requires sparse { IsSparse items.old.items }
    requires within { number ≤ 12884901888 }
    ensures ok { OnOk result (items.new.items ≡ words.joined (words.single number ∷ []) items.old.items) }
    ensures err { OnErr result (items.new.items ≡ items.old.items) }
{
    join_word(items, single(number))
}

pub fn remove_number(items: &mut Vec<Word>, number: u64)
    requires sparse { IsSparse items.old.items }
    requires within { number ≤ 12884901888 }
    ensures { items.new.items ≡ words.without number items.old.items }
{
    let at = (number / 64) as u32;
    let index = place(items.as_slice(), at);
    if index < items.len() && items[index].at == at {
        let rest = items[index].bits & !(1 << (number % 64));
        if rest == 0 {
            items.remove(index);
        } else {
            items[index].bits = rest;
        }
    }
}

// The words of both lists.
pub fn join(alloc: Global, left: &[Word], right: &[Word]) -> Result<Vec<Word>, AllocError>
    requires left_sparse { IsSparse left.now }
    requires right_sparse { IsSparse right.now }
    ensures { IfOk result (λ v. v.items ≡ words.joined left.now right.now) }
{
    if left.is_empty() {
        return Vec::from_slice(alloc, right);
    }
    if right.is_empty() {
        return Vec::from_slice(alloc, left);
    }
    let mut items = Vec::new(alloc);
    let mut at = 0;
    let mut other_at = 0;
    while at < left.len() && other_at < right.len() {
        let next = left[at];
        let other = right[other_at];
        match next.at.cmp(&other.at) {
            Ordering::Less => {
                items.push(next)?;
                at += 1;
            }
            Ordering::Equal => {
                items.push(Word {
                    at: next.at,
                    bits: next.bits | other.bits,
                })?;
                at += 1;
                other_at += 1;
            }
            Ordering::Greater => {
                items.push(other)?;
                other_at += 1;
            }
        }
    }
    items.extend_from_slice(&left[at..])?;
    items.extend_from_slice(&right[other_at..])?;
    Ok(items)
}

// Whether each number in the first list is in the second.
pub fn is_within(left: &[Word], right: &[Word]) -> bool
    requires left_sparse { IsSparse left.now }
    requires right_sparse { IsSparse right.now }
    ensures { result ≡ words.is_within left.now right.now }
{
    let mut at = 0;
    let mut other_at = 0;
    while at < left.len() && other_at < right.len() {
        let next = left[at];
        let other = right[other_at];
        match next.at.cmp(&other.at) {
            Ordering::Less => return false,
            Ordering::Equal => {
                if next.bits & !other.bits != 0 {
                    return false;
                }
                at += 1;
                other_at += 1;
            }
            Ordering::Greater => other_at += 1,
        }
    }
    at == left.len()
}

// Whether the lists have the same words.
pub fn same_words(left: &[Word], right: &[Word]) -> bool
    ensures { result ≡ words.same_words left.now right.now }
{
    if left.len() != right.len() {
        return false;
    }
    for (at, word) in left.iter().enumerate() {
        if word.at != right[at].at || word.bits != right[at].bits {
            return false;
        }
    }
    true
}

// How many numbers there are.
pub fn count(items: &[Word]) -> usize
    requires { IsSparse items.now }
    ensures { result ≡ length (words.numbers items.now) }
{
    let mut count = 0;
    for word in items {
        count += word.bits.count_ones() as usize;
    }
    count
}
