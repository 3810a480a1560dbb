// Holes in a row, each of which flows into those beside it, and the universal capability into the first one: so it is
// forced into all of them. They are solved once and ten times.
ghost use Rattle.std.specs.Prelude.{◌≡◌, ◌<◌, ◌++◌, [], ◌∷◌, IfOk, OnOk};
ghost use Rattle.cc_core.specs.Substitution.{single};
ghost use Rattle.cc_checking.specs.Outcomes.{Placed};
ghost use Rattle.cc_subty.specs.Demands.{asked_of};
ghost use Rattle.cc_solve.specs.Solutions.{AreSolvable};
ghost use Rattle.cc_tests_calculus.specs.Flows.{flow};

use cc_base::place::Place;
use cc_capture::{CapSet, Elem};
use cc_core::Ctx;
use cc_solve::{Filling, solve};
use cc_subty::{Demand, Demands};
use std::alloc::{AllocError, Global};

// The set with one element.
fn set_of(alloc: Global, elem: Elem) -> Result<CapSet, AllocError>
    ensures { IfOk result (λ s. s ≡ single elem) }
{
    let mut set = CapSet::new(alloc);
    set.insert(elem)?;
    Ok(set)
}

// Demands that the element flows into the hole.
fn add_flow(alloc: Global, from: Elem, hole: u32, demands: &mut Demands) -> Result<(), AllocError>
    ensures { OnOk result ((placed : Placed) × (asked_of demands.new ≡ asked_of demands.old ++ placed ∷ []) × (placed.asked ≡ flow from hole)) }
{
    let left = set_of(alloc, from)?;
    let right = set_of(alloc, Elem::Hole(hole))?;
    let ctx = Ctx::new();
    let at = Place { line: 1, col: 1 };
    demands.push(Demand::Sub {
        ctx,
        left,
        right,
        at,
    })?;
    Ok(())
}

// What so many holes in a row demand.
fn row(alloc: Global, count: u32) -> Result<Demands, AllocError>
    requires { 0 < count }
    ensures { IfOk result (λ demands. AreSolvable 0 count (asked_of demands)) }
{
    let mut demands = Demands::new(alloc);
    add_flow(alloc, Elem::Cap, 0, &mut demands)?;
    for hole in 1..count {
        add_flow(alloc, Elem::Hole(hole - 1), hole, &mut demands)?;
        add_flow(alloc, Elem::Hole(hole), hole - 1, &mut demands)?;
    }
    Ok(demands)
}

// Whether the hole is filled with the set.
fn is_filled(filling: &Filling, hole: u32, set: &CapSet) -> bool {
    match filling.get(hole) {
        Some(found) => *found == *set,
        None => false,
    }
}

// Whether all holes are filled with the set.
fn all_filled(filling: &Filling, count: u32, set: &CapSet) -> bool {
    let mut all = true;
    for hole in 0..count {
        all &= is_filled(filling, hole, set);
    }
    all
}

// Whether all of so many holes in a row are filled with the universal capability alone, each time.
fn are_filled(alloc: Global, count: u32, times: u32) -> Result<bool, AllocError>
    requires { 0 < count }
{
    let demands = row(alloc, count)?;
    let wanted = set_of(alloc, Elem::Cap)?;
    let mut all = true;
    for _time in 0..times {
        let filling = solve(alloc, &demands, 0, count)?;
        all &= all_filled(&filling, count, &wanted);
    }
    Ok(all)
}

#[test]
fn holes_that_flow_both_ways_2000_once(rt: HostRuntime) -> Result<(), AllocError> {
    assert!(rt; are_filled(rt.alloc(), 2000, 1)?);
    Ok(())
}

#[test]
fn holes_that_flow_both_ways_2000_ten_times(rt: HostRuntime) -> Result<(), AllocError> {
    assert!(rt; are_filled(rt.alloc(), 2000, 10)?);
    Ok(())
}

#[test]
fn holes_that_flow_both_ways_1000_once(rt: HostRuntime) -> Result<(), AllocError> {
    assert!(rt; are_filled(rt.alloc(), 1000, 1)?);
    Ok(())
}

#[test]
fn holes_that_flow_both_ways_1000_ten_times(rt: HostRuntime) -> Result<(), AllocError> {
    assert!(rt; are_filled(rt.alloc(), 1000, 10)?);
    Ok(())
}
