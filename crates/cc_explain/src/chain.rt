//! Chains along links.

ghost use Rattle.std.specs.Prelude.{◌≡◌, ◌<◌, List, length, IfOk, MatchOption};
ghost use Rattle.cc_explain.specs.declared.target.Target.{Target as AnyTarget};
ghost use Rattle.cc_explain.specs.Targets.{IsElement};
ghost use Rattle.cc_explain.specs.Chains.{IsChain, IsFirstShortest};
ghost use Rattle.cc_explain.specs.Entries.{targets_of};

use crate::links::Links;
use crate::steps::{first_steps, next_of};
use crate::target::Target;
use std::alloc::{AllocError, Global};

/// Why a device or the universal capability is reached from a definition: the first of the shortest chains of links to
/// it, from the definition on. `None` where there is no chain.
///
/// Each link of the definitions up to this one is looked at once. Fails only for want of memory.
pub fn chain(
    alloc: Global,
    links: &Links,
    from: u32,
    to: Target,
) -> Result<Option<Vec<Target>>, AllocError>
    requires from { from < length links.now }
    requires to { IsElement to }
    ensures { IfOk result (λ answer. MatchOption answer ((chain : List AnyTarget) → IsChain (targets_of links.now) (Target.Definition from) to chain → ⊥) (λ found. IsFirstShortest (targets_of links.now) (Target.Definition from) to found.items)) }
{
    let steps = first_steps(alloc, links, from, to)?;
    let mut target = Target::Definition(from);
    if next_of(steps.as_slice(), target).is_none() {
        return Ok(None);
    }
    let mut chain = Vec::new(alloc);
    chain.push(target)?;
    while let Some(next) = next_of(steps.as_slice(), target) {
        chain.push(next)?;
        target = next;
    }
    Ok(Some(chain))
}
