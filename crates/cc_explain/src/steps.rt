//! The first step from each definition towards a target, and how far it is from there.

ghost use Rattle.std.specs.Prelude.{◌≡◌, ℕ, ◌+◌, ◌<◌, ◌≤◌, length, None, IfOk, IfSome};
ghost use Rattle.std.specs.List.{All};
ghost use Rattle.cc_explain.specs.Targets.{IsElement, rank};
ghost use Rattle.cc_explain.specs.Steps.{known_length, length_from, nearer, nearest_from, next_of, AreFirstSteps};

use crate::links::Links;
use crate::step::Step;
use crate::target::{Target, is_same};
use std::alloc::{AllocError, Global};

// How many steps the path from a definition has.
fn known_length(steps: &[Option<Step>], target: Target) -> Option<u64>
    requires { rank target ≤ length steps.now }
    ensures { result ≡ known_length steps.now target }
{
    match target {
        Target::Definition(number) => steps[number as usize].map(|step| step.length),
        _ => None,
    }
}

// How many steps the path from a target has. There are none from the one that is looked for.
fn length_from(steps: &[Option<Step>], to: Target, target: Target) -> Option<u64>
    requires { rank target ≤ length steps.now }
    ensures { result ≡ length_from steps.now to target }
{
    if is_same(target, to) {
        Some(0)
    } else {
        known_length(steps, target)
    }
}

// Of the best step so far and the step to a target, from which there are so many, the one with the shorter path; the
// earlier where both are as short.
fn nearer(best: Option<Step>, target: Target, length: Option<u64>) -> Option<Step>
    requires { IfSome length (λ n. n ≤ 4294967296) }
    ensures { result ≡ nearer best target length }
{
    let Some(length) = length else {
        return best;
    };
    let step = Step {
        length: length + 1,
        next: target,
    };
    match best {
        None => Some(step),
        Some(best) => {
            if best.length <= step.length {
                Some(best)
            } else {
                Some(step)
            }
        }
    }
}

// The first of the shortest steps to a target of the entry.
fn nearest(entry: &[Target], steps: &[Option<Step>], to: Target) -> Option<Step>
    requires within { All (λ target. rank target ≤ length steps.now) entry.now }
    requires low { (number : ℕ) → IfSome (known_length steps.now (Target.Definition number)) (λ n. n ≤ 4294967296) }
    ensures { result ≡ nearest_from (length_from steps.now to) None entry.now }
{
    let mut best = None;
    for target in entry {
        best = nearer(best, *target, length_from(steps, to, *target));
    }
    best
}

/// For each definition up to one, the first step of its path to an element.
pub fn first_steps(
    alloc: Global,
    links: &Links,
    from: u32,
    to: Target,
) -> Result<Vec<Option<Step>>, AllocError>
    requires from { from < length links.now }
    requires to { IsElement to }
    ensures count { IfOk result (λ steps. length steps.items ≡ from + 1) }
    ensures steps { IfOk result (λ steps. AreFirstSteps links.now to steps.items) }
{
    let mut steps = Vec::with_capacity(alloc, from as usize + 1)?;
    for number in 0..from as usize + 1 {
        let step = nearest(links.entry(number), steps.as_slice(), to);
        steps.push(step)?;
    }
    Ok(steps)
}

/// Where the first step from a target leads.
pub fn next_of(steps: &[Option<Step>], target: Target) -> Option<Target>
    requires { rank target ≤ length steps.now }
    ensures { result ≡ next_of steps.now target }
{
    match target {
        Target::Definition(number) => steps[number as usize].map(|step| step.next),
        _ => None,
    }
}
