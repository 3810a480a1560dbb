//! How near each position is to an end, in one pass from the oldest on.

ghost use Rattle.std.specs.Prelude.{◌≡◌, length, IfOk};
ghost use Rattle.cc_core.specs.TermViews.{context_of};
ghost use Rattle.cc_core.specs.WellFormed.{IsWellFormedContext};
ghost use Rattle.cc_captured_reasons.specs.Nearness.{HasNoHoleInSets, AreTold};

use crate::tellings::number_at;
use cc_capture::CapSet;
use cc_core::Ctx;
use std::alloc::{AllocError, Global};

/// What is told of each position of a context: nothing of one that is below the set, and else how many links lead from it to an
/// end. Each declared set is gone over once.
///
/// Fails only for want of memory.
pub fn nearness(
    alloc: Global,
    ctx: &Ctx,
    devices: u32,
    right: &CapSet,
) -> Result<Vec<Option<u32>>, AllocError>
    requires context { IsWellFormedContext (context_of ctx.now) }
    requires closed { HasNoHoleInSets (context_of ctx.now) }
    ensures count { IfOk result (λ told. length told.items ≡ length ctx.now) }
    ensures told { IfOk result (λ told. AreTold devices (context_of ctx.now) right.now told.items) }
{
    let mut told = Vec::with_capacity(alloc, ctx.len() as usize)?;
    for position in 0..ctx.len() {
        let number = number_at(devices, right, told.as_slice(), position, ctx.get(position));
        told.push(number)?;
    }
    Ok(told)
}
