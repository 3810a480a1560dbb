// Subcapturing along declared sets, and how many of them are looked up.
ghost use Rattle.std.specs.Prelude.{◌≡◌, ◌<◌, IfOk};
ghost use Rattle.cc_core.specs.TermViews.{context_of};
ghost use Rattle.cc_core.specs.WellFormed.{IsWellFormedContext};

use crate::contexts::{at, console, declared, printer};
use cc_base::steps::Steps;
use cc_core::wellformed::wf_set;
use cc_core::{CapSet, Ctx, Elem};
use cc_sets::marks::Marks;
use cc_sets::subcapturing::subcap;
use std::alloc::{AllocError, Global};
use std::marker::Brand;
use std::sync::ledger::{Blank, Ledger};

// A console, a closure over it, and so many closures, each over the two before it.
fn closures(alloc: Global, count: u32) -> Result<Ctx, AllocError>
    ensures { IfOk result (λ c. IsWellFormedContext (context_of c)) }
{
    let mut ctx = console(alloc)?;
    for index in 0..count {
        let ty = if index == 0 {
            printer(alloc, &[at(0)])?
        } else {
            printer(alloc, &[at(index - 1), at(index)])?
        };
        ctx = declared(alloc, &ctx, ty)?;
    }
    Ok(ctx)
}

// What the calls found, so many times the same: whether the left set is below the right one, and the steps of all.
#[derive(Clone, Copy)]
struct Found {
    below: bool,
    steps: u64,
}

fn repeated<L: Ledger>(
    alloc: Global,
    ctx: &Ctx,
    left: &[Elem],
    right: &[Elem],
    times: u32,
    blank: Blank,
) -> Result<Option<Found>, AllocError>
    requires formed { IsWellFormedContext (context_of ctx.now) }
    requires name { blank.name ≡ L.name }
    requires parts { blank.parts ≡ L.parts }
    requires some { 0 < L.parts }
{
    let left = CapSet::from_elems(alloc, left)?;
    let right = CapSet::from_elems(alloc, right)?;
    if !wf_set(ctx, &left) || !wf_set(ctx, &right) {
        return Ok(None);
    }
    let mut steps = Steps::<L>::new(blank);
    let mut marks = Marks::new(alloc);
    marks.reserve(ctx.len())?;
    let mut below = true;
    for _index in 0..times {
        below &= subcap(ctx, &mut marks, &left, &right, &mut steps);
    }
    Ok(Some(Found {
        below,
        steps: steps.count(),
    }))
}

// The same, with a counter of its own.
fn counted(
    alloc: Global,
    ctx: &Ctx,
    left: &[Elem],
    right: &[Elem],
    times: u32,
) -> Result<Option<Found>, AllocError>
    requires { IsWellFormedContext (context_of ctx.now) }
{
    repeated::<Brand>(alloc, ctx, left, right, times, Blank::new(1))
}

#[test]
fn each_variable_is_looked_up_once(rt: HostRuntime) -> Result<(), AllocError> {
    let alloc = rt.alloc();
    let ctx = closures(alloc, 30)?;
    let device = counted(alloc, &ctx, &[at(30)], &[at(0)], 1)?;
    assert!(rt; device.is_some_and(|found| found.below && found.steps == 30));
    let nothing = counted(alloc, &ctx, &[at(30)], &[], 1)?;
    assert!(rt; nothing.is_some_and(|found| !found.below));
    Ok(())
}

// Whether the newest of so many closures is below the console, each time with as many steps as there are closures.
fn chain(alloc: Global, count: u32, times: u32) -> Result<bool, AllocError> {
    let ctx = closures(alloc, count)?;
    match counted(alloc, &ctx, &[at(count)], &[at(0)], times)? {
        Some(found) => Ok(found.below && found.steps == count as u64 * times as u64),
        None => Ok(false),
    }
}

#[test]
fn a_chain_of_2500_once(rt: HostRuntime) -> Result<(), AllocError> {
    assert!(rt; chain(rt.alloc(), 2500, 1)?);
    Ok(())
}

#[test]
fn a_chain_of_2500_a_thousand_times(rt: HostRuntime) -> Result<(), AllocError> {
    assert!(rt; chain(rt.alloc(), 2500, 1000)?);
    Ok(())
}

#[test]
fn a_chain_of_5000_once(rt: HostRuntime) -> Result<(), AllocError> {
    assert!(rt; chain(rt.alloc(), 5000, 1)?);
    Ok(())
}

#[test]
fn a_chain_of_5000_a_thousand_times(rt: HostRuntime) -> Result<(), AllocError> {
    assert!(rt; chain(rt.alloc(), 5000, 1000)?);
    Ok(())
}
