//! The least filling of holes.

ghost use Rattle.std.specs.Prelude.{◌≡◌, ◌↔◌, ℕ, ◌∷◌, [], ◌<◌, length, IfOk, OnOk, MatchOption};
ghost use Rattle.cc_capture.specs.Sets.{Member, empty};
ghost use Rattle.cc_core.specs.Substitution.{single};
ghost use Rattle.cc_core.specs.Occurrences.{IsNoHole};
ghost use Rattle.cc_sets.specs.Marked.{IsClear};
ghost use Rattle.cc_checking.specs.Fillings.{IsLeast, IsOverGlobals};
ghost use Rattle.cc_subty.specs.Demands.{asked_of, demand_of};
ghost use Rattle.cc_solve.specs.Adding.{AddsThose, IsSeed, IsFlow, IsSeedOf, IsFlowOf};
ghost use Rattle.cc_solve.specs.Solutions.{AreSolvable, IsBelowEachThatServes, ServesWhereOneDoes, HasHolesBelow, filling_of};

use crate::ends::ends_of;
use crate::filling::Filling;
use crate::lists::{add, empty_sets};
use crate::spreading::saturate;
use cc_capture::{CapSet, Elem};
use cc_sets::marks::Marks;
use cc_subty::demands::{Demand, Demands};
use std::alloc::{AllocError, Global};

/// The least filling of so many holes for what is asked: each hole has exactly the elements that a chain of demands
/// brings into it. The globals are the positions below the number.
///
/// Fails only for want of memory.
pub fn solve(
    alloc: Global,
    demands: &Demands,
    globals: u32,
    holes: u32,
) -> Result<Filling, AllocError>
    requires { AreSolvable globals holes (asked_of demands.now) }
    ensures count { IfOk result (λ f. length f ≡ holes) }
    ensures least { IfOk result (λ f. IsLeast globals (asked_of demands.now) (filling_of f)) }
    ensures over { IfOk result (λ f. IsOverGlobals globals (filling_of f)) }
    ensures below { IfOk result (λ f. IsBelowEachThatServes globals (asked_of demands.now) (filling_of f)) }
    ensures serves { IfOk result (λ f. ServesWhereOneDoes globals (asked_of demands.now) (filling_of f)) }
{
    let mut sets = empty_sets(alloc, holes)?;
    let mut flows = empty_sets(alloc, holes)?;
    fill(
        alloc,
        demands.as_slice(),
        globals,
        sets.as_mut_slice(),
        flows.as_mut_slice(),
    )?;
    Ok(Filling::new(sets))
}

// Makes sets with no element those of the least filling. The flows have no element either.
fn fill(
    alloc: Global,
    demands: &[Demand],
    globals: u32,
    sets: &mut [CapSet],
    flows: &mut [CapSet],
) -> Result<(), AllocError>
    requires solvable { AreSolvable globals (length sets.old) (asked_of demands.now) }
    requires number { length sets.old < 4294967296 }
    requires same { length flows.old ≡ length sets.old }
    requires sets { (at : ℕ) → filling_of sets.old at ≡ empty }
    requires flows { (at : ℕ) → filling_of flows.old at ≡ empty }
    ensures number { OnOk result (length sets.new ≡ length sets.old) }
    ensures least { OnOk result (IsLeast globals (asked_of demands.now) (filling_of sets.new)) }
{
    collect(alloc, demands, globals, sets, flows)?;
    saturate(alloc, sets, flows)
}

// Adds to the set of each hole what the demands bring there, and to its flow the holes that it flows into.
fn collect(
    alloc: Global,
    demands: &[Demand],
    globals: u32,
    sets: &mut [CapSet],
    flows: &mut [CapSet],
) -> Result<(), AllocError>
    requires solvable { AreSolvable globals (length sets.old) (asked_of demands.now) }
    requires same { length flows.old ≡ length sets.old }
    ensures sets { OnOk result (AddsThose (IsSeed globals (asked_of demands.now)) sets.old sets.new) }
    ensures flows { OnOk result (AddsThose (IsFlow globals (asked_of demands.now)) flows.old flows.new) }
{
    let mut marks = Marks::new(alloc);
    for demand in demands.iter() {
        collect_demand(alloc, demand, globals, &mut marks, sets, flows)?;
    }
    Ok(())
}

// The same of one demand.
fn collect_demand(
    alloc: Global,
    demand: &Demand,
    globals: u32,
    marks: &mut Marks,
    sets: &mut [CapSet],
    flows: &mut [CapSet],
) -> Result<(), AllocError>
    requires solvable { AreSolvable globals (length sets.old) (asked_of (demand.now ∷ [])) }
    requires same { length flows.old ≡ length sets.old }
    requires clear { IsClear marks.old }
    ensures clear { OnOk result (IsClear marks.new) }
    ensures sets { OnOk result (AddsThose (IsSeed globals (asked_of (demand.now ∷ []))) sets.old sets.new) }
    ensures flows { OnOk result (AddsThose (IsFlow globals (asked_of (demand.now ∷ []))) flows.old flows.new) }
{
    match demand {
        Demand::Sub {
            ctx,
            left,
            right,
            at: _,
        } => match hole_alone(right) {
            Some(hole) => {
                marks.reserve(ctx.len())?;
                let ends = ends_of(alloc, ctx, marks, globals, left)?;
                put_ends(&ends, hole, sets, flows)
            }
            None => Ok(()),
        },
        Demand::NoCap { set: _, at: _ } => Ok(()),
    }
}

// The hole, where the set is one hole alone.
fn hole_alone(set: &CapSet) -> Option<u32>
    ensures { MatchOption result ((hole : ℕ) → set.now ≡ single (Elem.Hole hole) → ⊥) (λ hole. set.now ≡ single (Elem.Hole hole)) }
{
    if set.len() != 1 {
        return None;
    }
    match set.get(0) {
        Some(elem) => hole_of(elem),
        None => None,
    }
}

// The number of a hole, where the element is one.
fn hole_of(elem: Elem) -> Option<u32>
    ensures { MatchOption result ((hole : ℕ) → elem ≡ Elem.Hole hole → ⊥) (λ hole. elem ≡ Elem.Hole hole) }
{
    match elem {
        Elem::Hole(number) => Some(number),
        Elem::Cap => None,
        Elem::Var(_) => None,
    }
}

// Puts what a demand's left side leads to into the set of the hole that is its right side; where that is a hole, what is
// in it flows into this one.
fn put_ends(
    ends: &CapSet,
    hole: u32,
    sets: &mut [CapSet],
    flows: &mut [CapSet],
) -> Result<(), AllocError>
    requires hole { hole < length sets.old }
    requires holes { HasHolesBelow (length flows.old) ends.now }
    ensures sets { OnOk result (AddsThose (IsSeedOf hole (λ e. Member e ends.now)) sets.old sets.new) }
    ensures flows { OnOk result (AddsThose (IsFlowOf hole (λ e. Member e ends.now)) flows.old flows.new) }
{
    for elem in ends.iter() {
        put_end(elem, hole, sets, flows)?;
    }
    Ok(())
}

// The same of one element.
fn put_end(
    elem: Elem,
    hole: u32,
    sets: &mut [CapSet],
    flows: &mut [CapSet],
) -> Result<(), AllocError>
    requires hole { hole < length sets.old }
    requires within { (from : ℕ) → elem ≡ Elem.Hole from → from < length flows.old }
    ensures sets { OnOk result (AddsThose (IsSeedOf hole (λ e. e ≡ elem)) sets.old sets.new) }
    ensures flows { OnOk result (AddsThose (IsFlowOf hole (λ e. e ≡ elem)) flows.old flows.new) }
{
    match elem {
        Elem::Hole(from) => add(flows, from, Elem::Hole(hole)),
        Elem::Cap => add(sets, hole, elem),
        Elem::Var(_) => add(sets, hole, elem),
    }
}
