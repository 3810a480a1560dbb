//! What a job cannot say, and the lines that say it.

ghost use Rattle.std.specs.Prelude.{◌≡◌, ◌<◌, map, IfOk};
ghost use Rattle.cc_item_reading.specs.AsideLines.{live_of, why_of, aside_with, aside_of};

use cc_base::name::Name;
use cc_words::words::{first_and_rest, name_of, number_of, one_of, pair_of, split_at, two_of};
use std::alloc::{AllocError, Global};

/// What a job cannot say.
#[derive(Drop)]
pub enum Aside {
    /// The definition of a module is run on the devices of the host, for at most so many steps.
    Live(Name, Name, u32),
    /// It is asked why the module of the name is refused.
    Why(Name),
}

// The run on the devices of the host that words say, if they do.
#[tactic(auto, unfolding(crate::specs::AsideLines::live_of))]
fn live_of(alloc: Global, words: &[&[u8]]) -> Result<Option<Aside>, AllocError>
    ensures { IfOk result (λ it. it ≡ live_of (map (λ it. it.now) words.now)) }
{
    let Some((word, digits)) = two_of(words) else {
        return Ok(None);
    };
    let Some((module, definition)) = pair_of(alloc, word)? else {
        return Ok(None);
    };
    let Some(fuel) = number_of(digits, 1_000_000) else {
        return Ok(None);
    };
    Ok(Some(Aside::Live(module, definition, fuel as u32)))
}

// The question why the module is refused that words name, if they do.
#[tactic(auto, unfolding(crate::specs::AsideLines::why_of))]
fn why_of(alloc: Global, words: &[&[u8]]) -> Result<Option<Aside>, AllocError>
    ensures { IfOk result (λ it. it ≡ why_of (map (λ it. it.now) words.now)) }
{
    let Some(word) = one_of(words) else {
        return Ok(None);
    };
    let Some(name) = name_of(alloc, word)? else {
        return Ok(None);
    };
    Ok(Some(Aside::Why(name)))
}

// What a word and those behind it say.
#[tactic(auto, unfolding(crate::specs::AsideLines::aside_with))]
fn aside_with(alloc: Global, word: &[u8], rest: &[&[u8]]) -> Result<Option<Aside>, AllocError>
    ensures { IfOk result (λ it. it ≡ aside_with word.now (map (λ it. it.now) rest.now)) }
{
    if word == b"live".as_slice() {
        return live_of(alloc, rest);
    }
    if word == b"why".as_slice() {
        return why_of(alloc, rest);
    }
    Ok(None)
}

/// What a line says that no line of a job says: a run on the devices of the host, or a question why; none where the line
/// does not say that. Fails only for want of memory.
#[tactic(auto, unfolding(crate::specs::AsideLines::aside_of))]
pub fn aside_of(alloc: Global, line: &[u8]) -> Result<Option<Aside>, AllocError>
    ensures { IfOk result (λ it. it ≡ aside_of line.now) }
{
    let words = split_at(alloc, line, b' ')?;
    let Some((word, rest)) = first_and_rest(words.as_slice()) else {
        return Ok(None);
    };
    aside_with(alloc, word, rest)
}
