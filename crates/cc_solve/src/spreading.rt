//! What is in sets is spread to those that they flow into, until nothing grows.

ghost use Rattle.std.specs.Prelude.{◌≡◌, ◌↔◌, ℕ, ◌<◌, length, IfOk, OnOk};
ghost use Rattle.std.specs.List.{Contains};
ghost use Rattle.cc_capture.specs.Sets.{Member};
ghost use Rattle.cc_solve.specs.Solutions.{filling_of, HasHolesBelow};
ghost use Rattle.cc_solve.specs.Spreading.{Arrives, Spreads};

use crate::lists::join;
use cc_capture::{CapSet, Elem};
use std::alloc::{AllocError, Global};

/// Adds to each set what arrives there along the flows. The flow of a set has the holes whose sets it flows into.
///
/// Each set that grew is queued, and what it has is then added to those that it flows into. So the work grows with the
/// number of flows and with the number of elements of a set. Fails only for want of memory.
pub fn saturate(alloc: Global, sets: &mut [CapSet], flows: &[CapSet]) -> Result<(), AllocError>
    requires number { length sets.old < 4294967296 }
    requires same { length flows.now ≡ length sets.old }
    requires within { (at : ℕ) → HasHolesBelow (length sets.old) (filling_of flows.now at) }
    ensures number { OnOk result (length sets.new ≡ length sets.old) }
    ensures arrives { OnOk result ((at : ℕ) (e : Elem) → Member e (filling_of sets.new at) ↔ Arrives (filling_of flows.now) (filling_of sets.old) at e) }
{
    let mut queue = numbers(alloc, sets.len() as u32)?;
    while let Some(from) = queue.pop() {
        spread(alloc, sets, &flows[from as usize], from, &mut queue)?;
    }
    Ok(())
}

// The numbers below.
fn numbers(alloc: Global, count: u32) -> Result<Vec<u32>, AllocError>
    ensures all { IfOk result (λ v. (k : ℕ) → k < count → Contains v.items k) }
    ensures below { IfOk result (λ v. (k : ℕ) → Contains v.items k → k < count) }
{
    let mut list = Vec::new(alloc);
    for number in 0..count {
        list.push(number)?;
    }
    Ok(list)
}

// Adds what is in one set to those that it flows into, and queues those that grew.
fn spread(
    alloc: Global,
    sets: &mut [CapSet],
    flow: &CapSet,
    from: u32,
    queue: &mut Vec<u32>,
) -> Result<(), AllocError>
    requires from { from < length sets.old }
    requires within { HasHolesBelow (length sets.old) flow.now }
    ensures { OnOk result (Spreads from (λ e. Member e flow.now) sets.old sets.new queue.old.items queue.new.items) }
{
    for elem in flow.iter() {
        spread_to(alloc, sets, elem, from, queue)?;
    }
    Ok(())
}

// The same where it flows into one set, whose hole the element is.
fn spread_to(
    alloc: Global,
    sets: &mut [CapSet],
    elem: Elem,
    from: u32,
    queue: &mut Vec<u32>,
) -> Result<(), AllocError>
    requires from { from < length sets.old }
    requires within { (hole : ℕ) → elem ≡ Elem.Hole hole → hole < length sets.old }
    ensures { OnOk result (Spreads from (λ e. e ≡ elem) sets.old sets.new queue.old.items queue.new.items) }
{
    match elem {
        Elem::Hole(to) => {
            if join(alloc, sets, from, to)? {
                queue.push(to)?;
            }
            Ok(())
        }
        Elem::Cap => Ok(()),
        Elem::Var(_) => Ok(()),
    }
}
