// The comparison of large types: whether they match, and what it asks of their sets, in order. In the context there are
// two consoles. And a long chain of type variables.
ghost use Rattle.std.specs.Prelude.{IfOk};
ghost use Rattle.cc_core.specs.TermViews.{context_of};
ghost use Rattle.cc_core.specs.WellFormed.{IsWellFormedContext};

use crate::contexts::{bounded, console, declared, nested_functions, nested_parameters, type_of};
use cc_base::place::Place;
use cc_core::same::same_shape;
use cc_core::wellformed::{wf, wf_shape};
use cc_core::{Base, CapSet, Ctx, Elem, Shape, Ty, Var};
use cc_known::Stop;
use cc_subty::{Demand, Demands, expose};
use cc_type::comparing::below;
use cc_type::{Log, SubtypeError, subtype};
use std::alloc::{AllocError, Global};
use std::rc::Rc;

const ONE: &[Elem] = &[Elem::Var(Var::Free(0))];

const OTHER: &[Elem] = &[Elem::Var(Var::Free(1))];

// What a comparison came to.
#[derive(Drop)]
enum Compared {
    IllFormed,
    Apart,
    Asks(Demands),
}

fn comparison(alloc: Global, ctx: &Ctx, left: &Ty, right: &Ty) -> Result<Compared, AllocError>
    requires { IsWellFormedContext (context_of ctx.now) }
{
    if !wf(alloc, ctx, left)? {
        return Ok(Compared::IllFormed);
    }
    if !wf(alloc, ctx, right)? {
        return Ok(Compared::IllFormed);
    }
    let mut demands = Demands::new(alloc);
    match subtype(
        alloc,
        ctx,
        left,
        right,
        Place { line: 1, col: 1 },
        &mut demands,
    ) {
        Ok(()) => Ok(Compared::Asks(demands)),
        Err(SubtypeError::ShapeMismatch) => Ok(Compared::Apart),
        Err(SubtypeError::NoMemory) => Err(AllocError),
    }
}

// What a demand is to ask: that the first set is below the second one.
type Wanted<'a> = (&'a [Elem], &'a [Elem]);

fn is_wanted(alloc: Global, demand: &Demand, wanted: Wanted<'_>) -> Result<bool, AllocError> {
    match demand {
        Demand::Sub { left, right, .. } => {
            let first = CapSet::from_elems(alloc, wanted.0)?;
            let second = CapSet::from_elems(alloc, wanted.1)?;
            Ok(*left == first && *right == second)
        }
        Demand::NoCap { .. } => Ok(false),
    }
}

fn is_apart(alloc: Global, ctx: &Ctx, left: &Ty, right: &Ty) -> Result<bool, AllocError>
    requires { IsWellFormedContext (context_of ctx.now) }
{
    match comparison(alloc, ctx, left, right)? {
        Compared::Apart => Ok(true),
        _ => Ok(false),
    }
}

// A console, and another one.
fn context(alloc: Global) -> Result<Ctx, AllocError>
    ensures { IfOk result (λ c. IsWellFormedContext (context_of c)) }
{
    let ctx = console(alloc)?;
    let ty = type_of(alloc, Shape::Base(Base::Console), &[Elem::Cap])?;
    declared(alloc, &ctx, ty)
}

fn how_much(compared: &Compared) -> usize {
    match compared {
        Compared::Asks(demands) => demands.len(),
        _ => 0,
    }
}

// One demand for the outermost sets, and two for each function.
#[test]
fn nested_functions_ask_for_each_set(rt: HostRuntime) -> Result<(), AllocError> {
    let alloc = rt.alloc();
    let ctx = context(alloc)?;
    let left = nested_functions(alloc, 200, ONE, ONE)?;
    let right = nested_functions(alloc, 200, OTHER, OTHER)?;
    assert!(rt; how_much(&comparison(alloc, &ctx, &left, &right)?) == 401);
    Ok(())
}

// Whether so many demands are asked, the first set to be below the other one and the other one to be below the first
// in turn.
fn asks_in_turn(alloc: Global, compared: &Compared, count: usize) -> Result<bool, AllocError> {
    match compared {
        Compared::Asks(demands) => {
            let mut all = demands.len() == count;
            let mut straight = true;
            for demand in demands.as_slice() {
                let wanted = if straight { (ONE, OTHER) } else { (OTHER, ONE) };
                all &= is_wanted(alloc, demand, wanted)?;
                straight = !straight;
            }
            Ok(all)
        }
        _ => Ok(false),
    }
}

// Each parameter is compared the other way round than its function. The results are asked for last, the innermost
// first, so that in all the demands go to and fro.
#[test]
fn nested_parameters_turn_round(rt: HostRuntime) -> Result<(), AllocError> {
    let alloc = rt.alloc();
    let ctx = context(alloc)?;
    let left = nested_parameters(alloc, 200, ONE)?;
    let right = nested_parameters(alloc, 200, OTHER)?;
    assert!(rt; asks_in_turn(alloc, &comparison(alloc, &ctx, &left, &right)?, 401)?);
    let deeper = nested_parameters(alloc, 201, OTHER)?;
    assert!(rt; is_apart(alloc, &ctx, &left, &deeper)?);
    Ok(())
}

// How much is kept of what the types ask, which is found so many times, or none where they are not well formed or do not
// match.
fn kept_often(
    alloc: Global,
    ctx: &Ctx,
    left: &Ty,
    right: &Ty,
    times: u32,
) -> Result<Option<usize>, AllocError>
    requires { IsWellFormedContext (context_of ctx.now) }
{
    let mut kept = Some(0);
    if !wf(alloc, ctx, left)? {
        return Ok(None);
    }
    if !wf(alloc, ctx, right)? {
        return Ok(None);
    }
    for _index in 0..times {
        let mut log = Log::new(alloc);
        match below(alloc, ctx, left, right, Place { line: 1, col: 1 }, &mut log) {
            Ok(()) => kept = Some(log.demands().len()),
            Err(Stop::Refused(_)) => return Ok(None),
            Err(Stop::NoMemory) => return Err(AllocError),
        }
    }
    Ok(kept)
}

// Whether so many nested parameters, in a type of four times the size, are gone over so many times, where nothing needs
// to be kept behind the first two sets, which no filling serves.
fn parameters(alloc: Global, count: u32, times: u32) -> Result<bool, AllocError> {
    let ctx = context(alloc)?;
    let left = nested_parameters(alloc, count, ONE)?;
    let right = nested_parameters(alloc, count, OTHER)?;
    match kept_often(alloc, &ctx, &left, &right, times)? {
        Some(kept) => Ok(kept == 1),
        None => Ok(false),
    }
}

#[test]
fn parameters_of_2000_once(rt: HostRuntime) -> Result<(), AllocError> {
    assert!(rt; parameters(rt.alloc(), 500, 1)?);
    Ok(())
}

#[test]
fn parameters_of_2000_a_hundred_times(rt: HostRuntime) -> Result<(), AllocError> {
    assert!(rt; parameters(rt.alloc(), 500, 100)?);
    Ok(())
}

#[test]
fn parameters_of_4000_once(rt: HostRuntime) -> Result<(), AllocError> {
    assert!(rt; parameters(rt.alloc(), 1000, 1)?);
    Ok(())
}

#[test]
fn parameters_of_4000_a_hundred_times(rt: HostRuntime) -> Result<(), AllocError> {
    assert!(rt; parameters(rt.alloc(), 1000, 100)?);
    Ok(())
}

// A type variable below numbers, and so many more, each below the one before.
fn variables(alloc: Global, count: u32) -> Result<Ctx, AllocError>
    ensures { IfOk result (λ c. IsWellFormedContext (context_of c)) }
{
    let mut ctx = bounded(alloc, &Ctx::new(), Shape::Base(Base::Int))?;
    for index in 0..count {
        ctx = bounded(alloc, &ctx, Shape::TVar(Var::Free(index)))?;
    }
    Ok(ctx)
}

#[test]
fn a_chain_of_type_variables_is_exposed(rt: HostRuntime) -> Result<(), AllocError> {
    let alloc = rt.alloc();
    let ctx = variables(alloc, 99)?;
    let newest = Rc::new(alloc, Shape::TVar(Var::Free(99)))?;
    assert!(rt; wf_shape(alloc, &ctx, &newest)?);
    assert!(rt; same_shape(expose(&ctx, &newest), &Shape::Base(Base::Int)));
    Ok(())
}
