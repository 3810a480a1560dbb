//! Nodes.

ghost use Rattle.std.specs.Prelude.{◌≡◌, ◌≤◌, ◌<◌, ◌+◌, map, length, option_map, IfOk};
ghost use Rattle.cc_words.specs.Words.{all_of, number_of};
ghost use Rattle.cc_derivation.specs.DerivationViews as plain;
ghost use Rattle.cc_certificate_text.specs.LineReading.{numbers_of, some_numbers, numbers_at, ends_with, conclusion_at, numbered_node_at, node_at};
ghost use Rattle.cc_certificate_reading.specs.Agreement.{Agrees};
ghost use Rattle.cc_certificate_reading.specs.CertificateViews.{node_line_of};

use crate::certificate::CertNode;
use crate::claims::read_claim;
use crate::numbers::read_same;
use crate::rules::{kind_of, read_rule};
use crate::stop::{Reading, Stop};
use crate::words::read_exact;
use cc_derivation::Rule;
use cc_names::Names;
use cc_words::words::{cut_at, number_of, split_at};
use std::alloc::{AllocError, Global};

// The numbers that words write, if each writes one.
fn numbers_in(alloc: Global, words: &[&[u8]]) -> Result<Option<Vec<u32>>, AllocError>
    ensures { IfOk result (λ found. option_map (λ v. v.items) found ≡ all_of (number_of 4294967295) (map (λ word. word.now) words.now)) }
{
    let mut numbers = Vec::new(alloc);
    for word in words.iter() {
        let Some(number) = number_of(word, 4_294_967_295) else {
            return Ok(None);
        };
        numbers.push(number as u32)?;
    }
    Ok(Some(numbers))
}

// The numbers with spaces between them.
#[tactic(auto, unfolding(cc_certificate_text::specs::LineReading::numbers_of))]
fn numbers_of(alloc: Global, content: &[u8]) -> Result<Option<Vec<u32>>, AllocError>
    ensures { IfOk result (λ found. option_map (λ v. v.items) found ≡ numbers_of content.now) }
{
    match content {
        [] => Ok(Some(Vec::new(alloc))),
        [_, ..] => {
            let words = split_at(alloc, content, b' ')?;
            numbers_in(alloc, words.as_slice())
        }
    }
}

// Numbers, behind their bracket.
#[tactic(auto, unfolding(cc_certificate_text::specs::LineReading::numbers_at))]
fn read_numbers<'a>(alloc: Global, bytes: &'a [u8]) -> Reading<'a, Vec<u32>>
    ensures { Agrees (λ numbers. numbers.items) result (numbers_at bytes.now) }
{
    let Some((content, rest)) = cut_at(bytes, b']') else {
        return Err(Stop::Misfit);
    };
    match numbers_of(alloc, content)? {
        Some(numbers) => Ok((numbers, rest)),
        None => Err(Stop::Misfit),
    }
}

// Whether the numbers end with these.
#[tactic(auto, unfolding(cc_certificate_text::specs::LineReading::ends_with))]
fn ends_with(numbers: &[u32], last: &[u32]) -> bool
    ensures { result ≡ ends_with numbers.now last.now }
{
    if last.len() <= numbers.len() {
        &numbers[numbers.len() - last.len()..] == last
    } else {
        false
    }
}

// The claim of a node, behind its rule and its premises.
#[tactic(auto, unfolding(cc_certificate_text::specs::LineReading::conclusion_at))]
fn read_conclusion<'a>(
    alloc: Global,
    names: &Names,
    rule: Rule,
    premises: Vec<u32>,
    bytes: &'a [u8],
) -> Reading<'a, CertNode>
    requires { length names.now ≤ 4294967296 }
    ensures { Agrees node_line_of result (conclusion_at names.now (plain.rule_of rule) premises.items bytes.now) }
{
    let (_, rest) = read_exact(" ", bytes)?;
    let ((first, claim), rest) = read_claim(alloc, names, kind_of(rule), rest)?;
    let node = CertNode {
        rule,
        premises,
        first,
        claim,
    };
    Ok((node, rest))
}

// A node, behind its number and the space.
#[tactic(auto, unfolding(cc_certificate_text::specs::LineReading::numbered_node_at))]
fn read_numbered_node<'a>(
    alloc: Global,
    names: &Names,
    unused: &[u32],
    bytes: &'a [u8],
) -> Reading<'a, CertNode>
    requires { length names.now ≤ 4294967296 }
    ensures { Agrees node_line_of result (numbered_node_at names.now unused.now bytes.now) }
{
    let (rule, rest) = read_rule(bytes)?;
    let (_, rest) = read_exact("[", rest)?;
    let (premises, rest) = read_numbers(alloc, rest)?;
    if !ends_with(unused, premises.as_slice()) {
        return Err(Stop::Misfit);
    }
    read_conclusion(alloc, names, rule, premises, rest)
}

/// The next node, where so many stand before it, of which these are unused.
#[tactic(auto, unfolding(cc_certificate_text::specs::LineReading::node_at))]
pub fn read_node<'a>(
    alloc: Global,
    names: &Names,
    count: u32,
    unused: &[u32],
    bytes: &'a [u8],
) -> Reading<'a, CertNode>
    requires { length names.now ≤ 4294967296 }
    ensures { Agrees node_line_of result (node_at names.now count unused.now bytes.now) }
{
    if !(count < 100_000) {
        return Err(Stop::Misfit);
    }
    let (_, rest) = read_same(u64::from(count) + 1, bytes)?;
    let (_, rest) = read_exact(" ", rest)?;
    read_numbered_node(alloc, names, unused, rest)
}
