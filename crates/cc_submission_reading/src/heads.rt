//! What the line of an item says, without the lines behind it.

ghost use Rattle.std.specs.Prelude.{◌≡◌, map, IfOk};
ghost use Rattle.cc_job.specs.Reading.{head_of};
ghost use Rattle.cc_words.specs.Words.{number_of};
ghost use Rattle.cc_submission_reading.specs.HeadReading.{declared_in, module_of, claim_of, head_with, item_head_of, line_count};

use cc_base::device::DeviceDecl;
use cc_base::name::Name;
use cc_job::head::{Head, head_of};
use cc_words::words::{first_and_rest, name_of, number_of, pair_of, split_at, two_of};
use std::alloc::{AllocError, Global};

/// What the line of an item says: a text or a certificate may stand behind it.
#[derive(Drop)]
pub enum ItemHead {
    /// A device is declared.
    Device(DeviceDecl),
    /// A module comes by this name, with a text of so many lines.
    Module(Name, u32),
    /// The definition of the module, both by their names, has a certificate of so many lines.
    Claim(Name, Name, u32),
}

// The device that a line of a job declares.
fn declared_in(head: Option<Head>) -> Option<ItemHead>
    ensures { result ≡ declared_in head }
{
    match head {
        None => None,
        Some(Head::Device(device)) => Some(ItemHead::Device(device)),
        Some(Head::Put(_, _)) => None,
        Some(Head::Verify(_)) => None,
        Some(Head::Policy(_)) => None,
        Some(Head::Replay(_, _, _, _)) => None,
        Some(Head::Command(_)) => None,
    }
}

// The number of lines that a text may have which a word writes, if it writes one.
fn count_of(word: &[u8]) -> Option<u32>
    ensures { result ≡ number_of 4194304 word.now }
{
    let Some(count) = number_of(word, 4_194_304) else {
        return None;
    };
    Some(count as u32)
}

#[tactic(auto, unfolding(crate::specs::HeadReading::module_of))]
fn module_of(alloc: Global, words: &[&[u8]]) -> Result<Option<ItemHead>, AllocError>
    ensures { IfOk result (λ head. head ≡ module_of (map (λ it. it.now) words.now)) }
{
    let Some((word, digits)) = two_of(words) else {
        return Ok(None);
    };
    let Some(name) = name_of(alloc, word)? else {
        return Ok(None);
    };
    let Some(count) = count_of(digits) else {
        return Ok(None);
    };
    Ok(Some(ItemHead::Module(name, count)))
}

#[tactic(auto, unfolding(crate::specs::HeadReading::claim_of))]
fn claim_of(alloc: Global, words: &[&[u8]]) -> Result<Option<ItemHead>, AllocError>
    ensures { IfOk result (λ head. head ≡ claim_of (map (λ it. it.now) words.now)) }
{
    let Some((word, digits)) = two_of(words) else {
        return Ok(None);
    };
    let Some((owner, definition)) = pair_of(alloc, word)? else {
        return Ok(None);
    };
    let Some(count) = count_of(digits) else {
        return Ok(None);
    };
    Ok(Some(ItemHead::Claim(owner, definition, count)))
}

// What the line says, of which these are the first word and those behind it.
#[tactic(auto, unfolding(crate::specs::HeadReading::head_with))]
fn head_with(
    alloc: Global,
    line: &[u8],
    word: &[u8],
    rest: &[&[u8]],
) -> Result<Option<ItemHead>, AllocError>
    ensures { IfOk result (λ head. head ≡ head_with line.now word.now (map (λ it. it.now) rest.now)) }
{
    if word == b"device".as_slice() {
        let head = head_of(alloc, line)?;
        return Ok(declared_in(head));
    }
    if word == b"module".as_slice() {
        return module_of(alloc, rest);
    }
    if word == b"claim".as_slice() {
        return claim_of(alloc, rest);
    }
    Ok(None)
}

/// What a line says, if it is the first one of an item. Fails only for want of memory.
#[tactic(auto, unfolding(crate::specs::HeadReading::item_head_of))]
pub fn item_head_of(alloc: Global, line: &[u8]) -> Result<Option<ItemHead>, AllocError>
    ensures { IfOk result (λ head. head ≡ item_head_of line.now) }
{
    let words = split_at(alloc, line, b' ')?;
    let Some((word, rest)) = first_and_rest(words.as_slice()) else {
        return Ok(None);
    };
    head_with(alloc, line, word, rest)
}

/// How many lines stand behind the line.
pub fn line_count(head: &ItemHead) -> u32
    ensures { result ≡ line_count head.now }
{
    match head {
        ItemHead::Device(_) => 0,
        ItemHead::Module(_, count) => *count,
        ItemHead::Claim(_, _, count) => *count,
    }
}
