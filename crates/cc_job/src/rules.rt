//! The lines of a policy's rules.

ghost use Rattle.std.specs.Prelude.{◌≡◌, map, IfOk};
ghost use Rattle.cc_job.specs.Reading.{permission_of, scope_of, rule_with, rule_of, rules_cut, rules_in};

use cc_base::name::Name;
use cc_policy::policy::{Policy, Rule};
use cc_words::lines::next_line;
use cc_words::words::{first_and_rest, name_of, split_at, two_of};
use std::alloc::{AllocError, Global};

// Whether the word says that a rule allows, if it says that or that it denies.
#[tactic(auto, unfolding(crate::specs::Reading::permission_of))]
fn permission_of(word: &[u8]) -> Option<bool>
    ensures { result ≡ permission_of word.now }
{
    if word == b"allow".as_slice() {
        return Some(true);
    }
    if word == b"deny".as_slice() {
        return Some(false);
    }
    None
}

// The name that the word is, or any, if it is one of the two.
#[tactic(auto, unfolding(crate::specs::Reading::scope_of))]
fn scope_of(alloc: Global, word: &[u8]) -> Result<Option<Option<Name>>, AllocError>
    ensures { IfOk result (λ scope. scope ≡ scope_of word.now) }
{
    if word == b"*".as_slice() {
        return Ok(Some(None));
    }
    match name_of(alloc, word)? {
        Some(name) => Ok(Some(Some(name))),
        None => Ok(None),
    }
}

// The rule that a word and those behind it are, if they are one.
#[tactic(auto, unfolding(crate::specs::Reading::rule_with))]
fn rule_with(alloc: Global, word: &[u8], rest: &[&[u8]]) -> Result<Option<Rule>, AllocError>
    ensures { IfOk result (λ rule. rule ≡ rule_with word.now (map (λ it. it.now) rest.now)) }
{
    let Some(allow) = permission_of(word) else {
        return Ok(None);
    };
    let Some((owner, device)) = two_of(rest) else {
        return Ok(None);
    };
    let Some(module) = scope_of(alloc, owner)? else {
        return Ok(None);
    };
    let Some(device) = scope_of(alloc, device)? else {
        return Ok(None);
    };
    Ok(Some(Rule {
        allow,
        module,
        device,
    }))
}

/// The rule that a line is, if it is one.
#[tactic(auto, unfolding(crate::specs::Reading::rule_of))]
pub fn rule_of(alloc: Global, line: &[u8]) -> Result<Option<Rule>, AllocError>
    ensures { IfOk result (λ rule. rule ≡ rule_of line.now) }
{
    let words = split_at(alloc, line, b' ')?;
    let Some((word, rest)) = first_and_rest(words.as_slice()) else {
        return Ok(None);
    };
    rule_with(alloc, word, rest)
}

/// What lines of rules are.
pub enum RuleLines<'a> {
    /// They are these rules, with this behind them.
    Read(Policy, &'a [u8]),
    /// The line at this place among them, counted from 1, is no rule, and those before it are rules.
    BadLine(u32),
    /// There are too few of them, and each is a rule.
    CutShort,
}

/// What the first lines are, so many, of which the last may stand without its line feed, as rules.
pub fn rules_cut<'a>(
    alloc: Global,
    bytes: &'a [u8],
    count: u32,
) -> Result<RuleLines<'a>, AllocError>
    ensures { IfOk result (λ lines. rules_cut count bytes.now ≡ rules_in lines) }
{
    let mut rules = Vec::new(alloc);
    let mut rest = bytes;
    for number in 0..count {
        if rest.is_empty() {
            return Ok(RuleLines::CutShort);
        }
        let (line, behind) = next_line(rest);
        let Some(rule) = rule_of(alloc, line)? else {
            return Ok(RuleLines::BadLine(number + 1));
        };
        rules.push(rule)?;
        rest = behind;
    }
    Ok(RuleLines::Read(Policy::new(rules), rest))
}
