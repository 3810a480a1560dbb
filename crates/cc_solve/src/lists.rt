//! Lists of sets, to which elements are added.

ghost use Rattle.std.specs.Prelude.{◌≡◌, ◌≢◌, ℕ, ◌<◌, length, IfOk, OnOk};
ghost use Rattle.std.specs.Bool.{MatchBool};
ghost use Rattle.cc_capture.specs.Sets as set;
ghost use Rattle.cc_capture.specs.Sets.{Member};
ghost use Rattle.cc_solve.specs.Adding.{AddsThose};
ghost use Rattle.cc_solve.specs.Solutions.{filling_of};

use cc_capture::{CapSet, Elem};
use std::alloc::{AllocError, Global};

/// So many sets with no element. Fails only for want of memory.
pub fn empty_sets(alloc: Global, count: u32) -> Result<Vec<CapSet>, AllocError>
    ensures count { IfOk result (λ v. length v.items ≡ count) }
    ensures empty { IfOk result (λ v. (at : ℕ) → filling_of v.items at ≡ set.empty) }
{
    let mut sets = Vec::new(alloc);
    for _ in 0..count {
        sets.push(CapSet::new(alloc))?;
    }
    Ok(sets)
}

/// Adds the element to the set at the index. Fails only for want of memory.
pub fn add(sets: &mut [CapSet], at: u32, elem: Elem) -> Result<(), AllocError>
    requires { at < length sets.old }
    ensures { OnOk result (AddsThose (λ index e. (index ≡ at) × (e ≡ elem)) sets.old sets.new) }
{
    sets[at as usize].insert(elem)
}

/// Adds what is in one set to another, and tells whether that grew. Fails only for want of memory.
pub fn join(alloc: Global, sets: &mut [CapSet], from: u32, to: u32) -> Result<bool, AllocError>
    requires from { from < length sets.old }
    requires to { to < length sets.old }
    ensures adds { OnOk result (AddsThose (λ at e. (at ≡ to) × Member e (filling_of sets.old from)) sets.old sets.new) }
    ensures grown { IfOk result (λ grown. MatchBool grown ((e : Elem) × Member e (filling_of sets.old from) × (Member e (filling_of sets.old to) → ⊥)) (sets.new ≡ sets.old)) }
{
    let one = &sets[from as usize];
    let other = &sets[to as usize];
    if one.is_subset(other) {
        return Ok(false);
    }
    let joined = one.union(alloc, other)?;
    sets[to as usize] = joined;
    Ok(true)
}
