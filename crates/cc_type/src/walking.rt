//! One walk over two types keeps what their comparison demands, as it is found. Nothing is opened: what stands under a
//! binder is read in the context where it stands, and only where that is another set and in what is kept is it built.
//! What matched with demands that need not be kept is remembered, and not gone through again. The same walk gives all
//! that is demanded, where that is asked for.

ghost use Rattle.std.specs.Prelude.{◌≡◌, ◌<◌, true, false, ◌&&◌, [], ◌∷◌, ◌++◌, length, IfOk, IfSome, OnOk, Some, IsTrue};
ghost use Rattle.std.specs.Option.{unwrap_or};
ghost use Rattle.cc_core.specs.Equality.{same_shape};
ghost use Rattle.cc_core.specs.Reading as reading;
ghost use Rattle.cc_core.specs.Shapes.{FunctionShape, TypeFunctionShape, BoxShape, TypeVariable};
ghost use Rattle.cc_core.specs.TermViews.{shape_of, type_of, context_of};
ghost use Rattle.cc_core.specs.WellFormed.{IsWellFormedContext, IsWellFormedShape, IsWellFormedType, IsWellFormedSet};
ghost use Rattle.cc_checking.specs.Comparison as plain;
ghost use Rattle.cc_checking.specs.Comparison.{comparison, demanded};
ghost use Rattle.cc_checking.specs.Inference.{demand_at, shape_in, type_in};
ghost use Rattle.cc_subty.specs.Demands.{asked_of};
ghost use Rattle.cc_known.specs.EndsAgain.{comes_again};
ghost use Rattle.cc_known.specs.Keeping.{with_one, is_demand_settled, has_lost};
ghost use Rattle.cc_known.specs.KeptWalks.{put, Keeps, StandsOn, IsKnownAgain, form_compared, variable_compared, is_matched, is_remembered_as};
ghost use Rattle.cc_type.specs.WholeLogs.{listed};

use crate::demand_ends::ended;
use crate::log::{Kept, Log, has_hole, keep_below};
use cc_base::place::Place;
use cc_capture::{CapSet, Var};
use cc_core::acting::read_variable;
use cc_core::reading::{read_if_other, read_set};
use cc_core::wellformed::{wf_set, wf_shape};
use cc_core::{Ctx, Shape, Ty};
use cc_known::keys::read_right;
use cc_known::names::{Key, key_of};
use cc_known::steps::entries;
use cc_subty::Demand;
use cc_subty::exposing::bound_of;
use cc_subty::parts::{is_any, is_variable, same_read, under_bound, under_parameter};
use std::alloc::{AllocError, Global};
use std::rc::Rc;

// What is remembered was compared in so many steps fewer than were left, so that it is known so many levels deeper too.
const FEWER: u32 = 262144;

// The set that it became, or else the set itself.
fn chosen<'a>(became: &'a Option<CapSet>, set: &'a CapSet) -> &'a CapSet
    ensures { result.now ≡ unwrap_or became.now set.now }
{
    match became {
        Some(became) => became,
        None => set,
    }
}

// Keeps in mind that the left set is below the right one, where they stand as they are read, in the context in which the
// comparison began.
fn learn_read(
    ctx: &Ctx,
    left: &CapSet,
    right: &CapSet,
    left_read: &Option<CapSet>,
    right_read: &Option<CapSet>,
    log: &mut Log,
) -> Result<(), AllocError>
    requires context { IsWellFormedContext (context_of ctx.now) }
    requires settled { is_demand_settled (demanded (context_of ctx.now) (unwrap_or left_read.now left.now) (unwrap_or right_read.now right.now)) ≡ true }
    requires base { StandsOn (context_of log.old.known.base) (context_of ctx.now) }
    ensures demands { log.new.demands ≡ log.old.demands }
    ensures base { log.new.known.base ≡ log.old.known.base }
    ensures still { log.new.settled ≡ log.old.settled }
{
    if left_read.is_some() {
        return Ok(());
    }
    if right_read.is_some() {
        return Ok(());
    }
    if wf_set(&log.known.base, left) && wf_set(&log.known.base, right) {
        let left = left.clone()?;
        let right = right.clone()?;
        log.known.learn(left, right);
    }
    Ok(())
}

// Keeps in mind which ends the left set has beyond the right one, where they stand in the context in which the
// comparison began. Behind something lost that serves nothing.
fn learn_ends(alloc: Global, left: &CapSet, right: &CapSet, log: &mut Log) -> Result<(), AllocError>
    requires { IsWellFormedContext (context_of log.old.known.base) }
    ensures demands { log.new.demands ≡ log.old.demands }
    ensures base { log.new.known.base ≡ log.old.known.base }
    ensures still { log.new.settled ≡ log.old.settled }
{
    if log.is_lost() || has_hole(right) {
        return Ok(());
    }
    if wf_set(&log.known.base, left) && wf_set(&log.known.base, right) {
        let demand = ended(alloc, &log.known.base, left, right)?;
        let left = left.clone()?;
        let right = right.clone()?;
        log.known.learn_ends(alloc, left, right, demand)?;
    }
    Ok(())
}

// Whether the demand of the two sets is known to repeat something that is kept.
fn is_known_again(left: &CapSet, right: &CapSet, log: &Log) -> bool
    ensures { IsTrue result → IsKnownAgain (context_of log.now.known.base) (asked_of log.now.demands) left.now right.now }
{
    match log.known.ended(left, right) {
        Some(demand) => log.repeats(demand),
        None => false,
    }
}

// Keeps that the left set is below the right one, where both are read in the context, unless that is needless.
fn keep_read_sets(
    alloc: Global,
    ctx: &Ctx,
    left: &CapSet,
    right: &CapSet,
    at: Place,
    log: &mut Log,
) -> Result<(), AllocError>
    requires context { IsWellFormedContext (context_of ctx.now) }
    requires left { IsWellFormedSet (context_of ctx.now) (reading.read_set (length (context_of ctx.now)) left.now) }
    requires right { IsWellFormedSet (context_of ctx.now) (reading.read_set (length (context_of ctx.now)) right.now) }
    requires base { StandsOn (context_of log.old.known.base) (context_of ctx.now) }
    ensures kept { OnOk result (asked_of log.new.demands ≡ with_one (asked_of log.old.demands) (demand_at at (demanded (context_of ctx.now) (reading.read_set (length (context_of ctx.now)) left.now) (reading.read_set (length (context_of ctx.now)) right.now)))) }
    ensures before { OnOk result (log.new.settled ≡ true → log.old.settled ≡ true) }
    ensures settled { OnOk result (log.new.settled ≡ true → comes_again (length (context_of log.old.known.base)) (asked_of log.new.demands) (demanded (context_of ctx.now) (reading.read_set (length (context_of ctx.now)) left.now) (reading.read_set (length (context_of ctx.now)) right.now)) ≡ true) }
    ensures base { log.new.known.base ≡ log.old.known.base }
{
    let left_read = read_if_other(alloc, left, entries(ctx))?;
    let right_read = read_if_other(alloc, right, entries(ctx))?;
    let one = chosen(&left_read, left);
    let other = chosen(&right_read, right);
    match keep_below(alloc, ctx, one, other, at, log)? {
        Kept::Settled => learn_read(ctx, left, right, &left_read, &right_read, log),
        Kept::Again => learn_ends(alloc, left, right, log),
        Kept::Once => {
            log.settled = false;
            learn_ends(alloc, left, right, log)
        }
    }
}

// The same, where two sets that are known are not gone over again.
fn keep_sets(
    alloc: Global,
    ctx: &Ctx,
    left: &CapSet,
    right: &CapSet,
    at: Place,
    log: &mut Log,
) -> Result<(), AllocError>
    requires context { IsWellFormedContext (context_of ctx.now) }
    requires left { IsWellFormedSet (context_of ctx.now) (reading.read_set (length (context_of ctx.now)) left.now) }
    requires right { IsWellFormedSet (context_of ctx.now) (reading.read_set (length (context_of ctx.now)) right.now) }
    requires base { StandsOn (context_of log.old.known.base) (context_of ctx.now) }
    ensures kept { OnOk result (asked_of log.new.demands ≡ with_one (asked_of log.old.demands) (demand_at at (demanded (context_of ctx.now) (reading.read_set (length (context_of ctx.now)) left.now) (reading.read_set (length (context_of ctx.now)) right.now)))) }
    ensures before { OnOk result (log.new.settled ≡ true → log.old.settled ≡ true) }
    ensures settled { OnOk result (log.new.settled ≡ true → comes_again (length (context_of log.old.known.base)) (asked_of log.new.demands) (demanded (context_of ctx.now) (reading.read_set (length (context_of ctx.now)) left.now) (reading.read_set (length (context_of ctx.now)) right.now)) ≡ true) }
    ensures base { log.new.known.base ≡ log.old.known.base }
{
    if *left == *right {
        return Ok(());
    }
    if log.known.has(left, right) {
        return Ok(());
    }
    if is_known_again(left, right, log) {
        return Ok(());
    }
    keep_read_sets(alloc, ctx, left, right, at, log)
}

// Demands that the left set is below the right one, where both are read in the context.
fn demand_sets(
    alloc: Global,
    ctx: &Ctx,
    left: &CapSet,
    right: &CapSet,
    at: Place,
    log: &mut Log,
) -> Result<(), AllocError>
    ensures kept { OnOk result (asked_of log.new.whole ≡ asked_of log.old.whole ++ (demand_at at (demanded (context_of ctx.now) (reading.read_set (length (context_of ctx.now)) left.now) (reading.read_set (length (context_of ctx.now)) right.now)) ∷ [])) }
    ensures before { OnOk result (log.new.settled ≡ true → log.old.settled ≡ true) }
    ensures settled { OnOk result (log.new.settled ≡ true → comes_again (length (context_of log.old.known.base)) (asked_of log.new.whole) (demanded (context_of ctx.now) (reading.read_set (length (context_of ctx.now)) left.now) (reading.read_set (length (context_of ctx.now)) right.now)) ≡ true) }
    ensures base { log.new.known.base ≡ log.old.known.base }
{
    let left = read_set(alloc, left, entries(ctx))?;
    let right = read_set(alloc, right, entries(ctx))?;
    let ctx = ctx.clone()?;
    log.settled = false;
    log.whole.push(Demand::Sub {
        ctx,
        left,
        right,
        at,
    })
}

// Keeps the whole of what is demanded of two sets, or else what is not needless.
fn ask_sets(
    alloc: Global,
    ctx: &Ctx,
    left: &CapSet,
    right: &CapSet,
    at: Place,
    log: &mut Log,
    whole: bool,
) -> Result<(), AllocError>
    requires context { IsWellFormedContext (context_of ctx.now) }
    requires left { IsWellFormedSet (context_of ctx.now) (reading.read_set (length (context_of ctx.now)) left.now) }
    requires right { IsWellFormedSet (context_of ctx.now) (reading.read_set (length (context_of ctx.now)) right.now) }
    requires base { StandsOn (context_of log.old.known.base) (context_of ctx.now) }
    ensures kept { OnOk result (listed whole log.new ≡ put whole (listed whole log.old) (demand_at at (demanded (context_of ctx.now) (reading.read_set (length (context_of ctx.now)) left.now) (reading.read_set (length (context_of ctx.now)) right.now)) ∷ [])) }
    ensures before { OnOk result (log.new.settled ≡ true → log.old.settled ≡ true) }
    ensures settled { OnOk result (log.new.settled ≡ true → comes_again (length (context_of log.old.known.base)) (listed whole log.new) (demanded (context_of ctx.now) (reading.read_set (length (context_of ctx.now)) left.now) (reading.read_set (length (context_of ctx.now)) right.now)) ≡ true) }
    ensures base { log.new.known.base ≡ log.old.known.base }
{
    if whole {
        demand_sets(alloc, ctx, left, right, at, log)
    } else {
        keep_sets(alloc, ctx, left, right, at, log)
    }
}

// Whether the shapes are one, read in the context, where the whole of what they demand is kept.
fn are_one(
    alloc: Global,
    ctx: &Ctx,
    left: &Shape,
    right: &Shape,
    whole: bool,
) -> Result<bool, AllocError>
    ensures { IfOk result (λ b. b ≡ (whole && same_shape (shape_in (context_of ctx.now) (shape_of left.now)) (shape_in (context_of ctx.now) (shape_of right.now)))) }
{
    if whole {
        keep_itself(alloc, ctx, left, right)
    } else {
        Ok(false)
    }
}

// Remembers that the variable and the shape match in so many steps.
fn remember(
    variable: Var,
    right: &Shape,
    log: &mut Log,
    steps: u32,
    lost: bool,
) -> Result<(), AllocError>
    requires { is_remembered_as (length (context_of log.old.known.base)) (asked_of log.old.demands) (context_of log.old.known.base) lost steps variable (shape_of right.now) ≡ true }
    ensures demands { log.new.demands ≡ log.old.demands }
    ensures base { log.new.known.base ≡ log.old.known.base }
    ensures still { log.new.settled ≡ log.old.settled }
{
    log.known.remember(variable, right, steps, lost)
}

// The same by their key, where they name more than the base has.
fn remember_keyed(
    alloc: Global,
    ctx: &Ctx,
    key: &Key,
    variable: Var,
    right: &Rc<Shape>,
    log: &mut Log,
    steps: u32,
    lost: bool,
) -> Result<(), AllocError>
    requires context { IsWellFormedContext (context_of ctx.now) }
    requires base { StandsOn (context_of log.old.known.base) (context_of ctx.now) }
    requires matched { is_matched (length (context_of log.old.known.base)) (asked_of log.old.demands) (context_of ctx.now) lost steps variable (shape_of right.now.value) ≡ true }
    ensures demands { log.new.demands ≡ log.old.demands }
    ensures base { log.new.known.base ≡ log.old.known.base }
    ensures still { log.new.settled ≡ log.old.settled }
{
    log.known
        .remember_keyed(alloc, ctx, key, variable, right, steps, lost)
}

// Goes over the bound of the variable and the shape, and remembers that they match where nothing has to be kept.
#[cycle(walk)]
fn keep_new(
    alloc: Global,
    ctx: &Ctx,
    variable: Var,
    bound: &Shape,
    right: &Shape,
    at: Place,
    log: &mut Log,
    steps: u32,
) -> Result<bool, AllocError>
    requires context { IsWellFormedContext (context_of ctx.now) }
    requires right { IsWellFormedShape (context_of ctx.now) (shape_in (context_of ctx.now) (shape_of right.now)) }
    requires base { StandsOn (context_of log.old.known.base) (context_of ctx.now) }
    requires there { plain.bound_of (context_of ctx.now) variable ≡ Some (shape_of bound.now) }
    requires named { IsWellFormedShape (context_of log.old.known.base) (TypeVariable variable) }
    requires shape { IsWellFormedShape (context_of log.old.known.base) (shape_of right.now) }
    ensures kept { IfOk result (λ m. Keeps (length (context_of log.old.known.base)) false at (comparison steps (context_of ctx.now) (shape_in (context_of ctx.now) (shape_of bound.now)) (shape_in (context_of ctx.now) (shape_of right.now))) m log.old.settled log.new.settled (asked_of log.old.demands) (asked_of log.new.demands)) }
    ensures base { log.new.known.base ≡ log.old.known.base }
{
    let settled = log.settled;
    let count = log.demands.len();
    log.settled = true;
    let matched = keep_shapes(alloc, ctx, bound, right, at, log, steps, false)?;
    if !matched {
        return Ok(false);
    }
    let all = log.settled;
    if all {
        remember(variable, right, log, steps, false)?;
    } else if log.demands.len() == count {
        remember(variable, right, log, steps, true)?;
    }
    log.settled = settled && all;
    Ok(true)
}

// Whether it is remembered by their key that the variable and the shape of the context match: with demands that are
// settled, or else, where something is lost, with such as need not be kept for that.
fn known_again(
    alloc: Global,
    ctx: &Ctx,
    variable: Var,
    read: &Rc<Shape>,
    steps: u32,
    key: &Key,
    log: &Log,
) -> Result<Option<bool>, AllocError>
    requires context { IsWellFormedContext (context_of ctx.now) }
    requires base { StandsOn (context_of log.now.known.base) (context_of ctx.now) }
    ensures matched { IfOk result (λ o. IfSome o (λ lost. is_matched (length (context_of log.now.known.base)) (asked_of log.now.demands) (context_of ctx.now) lost steps variable (shape_of read.now.value) ≡ true)) }
    ensures lost { IfOk result (λ o. IfSome o (λ lost. lost ≡ true → has_lost (asked_of log.now.demands) ≡ true)) }
{
    if log
        .known
        .matches_keyed(alloc, ctx, key, variable, read, steps, false)?
    {
        return Ok(Some(false));
    }
    if !log.is_lost() {
        return Ok(None);
    }
    if log
        .known
        .matches_keyed(alloc, ctx, key, variable, read, steps, true)?
    {
        return Ok(Some(true));
    }
    Ok(None)
}

// Goes over the bound of a variable and a shape that name more than the base has, as `keep_new` does.
#[cycle(walk)]
fn keep_keyed(
    alloc: Global,
    ctx: &Ctx,
    variable: Var,
    bound: &Shape,
    right: &Shape,
    at: Place,
    log: &mut Log,
    steps: u32,
    key: &Key,
    read: &Rc<Shape>,
) -> Result<bool, AllocError>
    requires context { IsWellFormedContext (context_of ctx.now) }
    requires right { IsWellFormedShape (context_of ctx.now) (shape_in (context_of ctx.now) (shape_of right.now)) }
    requires base { StandsOn (context_of log.old.known.base) (context_of ctx.now) }
    requires there { plain.bound_of (context_of ctx.now) variable ≡ Some (shape_of bound.now) }
    requires read { shape_of read.now.value ≡ shape_in (context_of ctx.now) (shape_of right.now) }
    ensures kept { IfOk result (λ m. Keeps (length (context_of log.old.known.base)) false at (comparison steps (context_of ctx.now) (shape_in (context_of ctx.now) (shape_of bound.now)) (shape_in (context_of ctx.now) (shape_of right.now))) m log.old.settled log.new.settled (asked_of log.old.demands) (asked_of log.new.demands)) }
    ensures base { log.new.known.base ≡ log.old.known.base }
{
    let settled = log.settled;
    let count = log.demands.len();
    log.settled = true;
    let matched = keep_shapes(alloc, ctx, bound, right, at, log, steps, false)?;
    if !matched {
        return Ok(false);
    }
    let all = log.settled;
    if all {
        remember_keyed(alloc, ctx, key, variable, read, log, steps, false)?;
    } else if log.demands.len() == count {
        remember_keyed(alloc, ctx, key, variable, read, log, steps, true)?;
    }
    log.settled = settled && all;
    Ok(true)
}

// Goes over the bound of a variable and a shape that name more than the base has, unless it is remembered that they
// match.
#[cycle(walk)]
fn keep_own(
    alloc: Global,
    ctx: &Ctx,
    variable: Var,
    bound: &Shape,
    right: &Shape,
    at: Place,
    log: &mut Log,
    steps: u32,
) -> Result<bool, AllocError>
    requires context { IsWellFormedContext (context_of ctx.now) }
    requires right { IsWellFormedShape (context_of ctx.now) (shape_in (context_of ctx.now) (shape_of right.now)) }
    requires base { StandsOn (context_of log.old.known.base) (context_of ctx.now) }
    requires there { plain.bound_of (context_of ctx.now) variable ≡ Some (shape_of bound.now) }
    requires many { FEWER < steps }
    ensures kept { IfOk result (λ m. Keeps (length (context_of log.old.known.base)) false at (comparison steps (context_of ctx.now) (shape_in (context_of ctx.now) (shape_of bound.now)) (shape_in (context_of ctx.now) (shape_of right.now))) m log.old.settled log.new.settled (asked_of log.old.demands) (asked_of log.new.demands)) }
    ensures base { log.new.known.base ≡ log.old.known.base }
{
    let read = read_right(alloc, right, entries(ctx))?;
    let key = key_of(alloc, log.known.base.len(), ctx, variable, &read)?;
    match known_again(alloc, ctx, variable, &read, steps, &key, log)? {
        Some(lost) => {
            if lost {
                log.settled = false;
                return Ok(true);
            }
            Ok(true)
        }
        None => keep_keyed(
            alloc,
            ctx,
            variable,
            bound,
            right,
            at,
            log,
            steps - FEWER,
            &key,
            &read,
        ),
    }
}

// Whether the shape is a type variable.
fn is_name(shape: &Shape) -> bool {
    match shape {
        Shape::TVar(_) => true,
        _ => false,
    }
}

// Goes over the bound of the variable and the shape, unless it is remembered that they match. Where the bound is a type
// variable, the next step remembers it, and this one takes none.
#[cycle(walk)]
fn keep_bound(
    alloc: Global,
    ctx: &Ctx,
    variable: Var,
    bound: &Shape,
    right: &Shape,
    at: Place,
    log: &mut Log,
    steps: u32,
) -> Result<bool, AllocError>
    requires context { IsWellFormedContext (context_of ctx.now) }
    requires right { IsWellFormedShape (context_of ctx.now) (shape_in (context_of ctx.now) (shape_of right.now)) }
    requires base { StandsOn (context_of log.old.known.base) (context_of ctx.now) }
    requires there { plain.bound_of (context_of ctx.now) variable ≡ Some (shape_of bound.now) }
    ensures kept { IfOk result (λ m. Keeps (length (context_of log.old.known.base)) false at (comparison steps (context_of ctx.now) (shape_in (context_of ctx.now) (shape_of bound.now)) (shape_in (context_of ctx.now) (shape_of right.now))) m log.old.settled log.new.settled (asked_of log.old.demands) (asked_of log.new.demands)) }
    ensures base { log.new.known.base ≡ log.old.known.base }
{
    if steps <= FEWER || is_name(bound) {
        return keep_shapes(alloc, ctx, bound, right, at, log, steps, false);
    }
    let name = Shape::TVar(variable);
    if !wf_shape(alloc, &log.known.base, &name)? {
        return keep_own(alloc, ctx, variable, bound, right, at, log, steps);
    }
    if !wf_shape(alloc, &log.known.base, right)? {
        return keep_own(alloc, ctx, variable, bound, right, at, log, steps);
    }
    if log.known.matches(variable, right, steps, false) {
        return Ok(true);
    }
    if log.is_lost() && log.known.matches(variable, right, steps, true) {
        log.settled = false;
        return Ok(true);
    }
    keep_new(alloc, ctx, variable, bound, right, at, log, steps - FEWER)
}

// The same, where the whole of what is demanded is kept or not.
#[cycle(walk)]
fn walk_bound(
    alloc: Global,
    ctx: &Ctx,
    variable: Var,
    bound: &Shape,
    right: &Shape,
    at: Place,
    log: &mut Log,
    steps: u32,
    whole: bool,
) -> Result<bool, AllocError>
    requires context { IsWellFormedContext (context_of ctx.now) }
    requires right { IsWellFormedShape (context_of ctx.now) (shape_in (context_of ctx.now) (shape_of right.now)) }
    requires base { StandsOn (context_of log.old.known.base) (context_of ctx.now) }
    requires there { plain.bound_of (context_of ctx.now) variable ≡ Some (shape_of bound.now) }
    ensures kept { IfOk result (λ m. Keeps (length (context_of log.old.known.base)) whole at (comparison steps (context_of ctx.now) (shape_in (context_of ctx.now) (shape_of bound.now)) (shape_in (context_of ctx.now) (shape_of right.now))) m log.old.settled log.new.settled (listed whole log.old) (listed whole log.new)) }
    ensures base { log.new.known.base ≡ log.old.known.base }
{
    if whole {
        keep_shapes(alloc, ctx, bound, right, at, log, steps, whole)
    } else {
        keep_bound(alloc, ctx, variable, bound, right, at, log, steps)
    }
}

#[cycle(walk)]
fn keep_variable(
    alloc: Global,
    ctx: &Ctx,
    variable: Var,
    right: &Shape,
    at: Place,
    log: &mut Log,
    steps: u32,
    whole: bool,
) -> Result<bool, AllocError>
    requires context { IsWellFormedContext (context_of ctx.now) }
    requires right { IsWellFormedShape (context_of ctx.now) (shape_in (context_of ctx.now) (shape_of right.now)) }
    requires base { StandsOn (context_of log.old.known.base) (context_of ctx.now) }
    ensures kept { IfOk result (λ m. Keeps (length (context_of log.old.known.base)) whole at (variable_compared steps (context_of ctx.now) variable (shape_of right.now)) m log.old.settled log.new.settled (listed whole log.old) (listed whole log.new)) }
    ensures base { log.new.known.base ≡ log.old.known.base }
{
    if is_variable(entries(ctx), variable, right) {
        return Ok(true);
    }
    match bound_of(ctx, variable) {
        Some(bound) => walk_bound(alloc, ctx, variable, bound, right, at, log, steps, whole),
        None => Ok(false),
    }
}

// The parameters from the right one to the left one, and then the results under the right one's parameter.
#[cycle(walk)]
fn keep_functions(
    alloc: Global,
    ctx: &Ctx,
    takes: &Ty,
    gives: &Ty,
    others: &Ty,
    other_gives: &Ty,
    at: Place,
    log: &mut Log,
    steps: u32,
    whole: bool,
) -> Result<bool, AllocError>
    requires context { IsWellFormedContext (context_of ctx.now) }
    requires left { let t = type_of takes.now in let g = type_of gives.now in
        IsWellFormedShape (context_of ctx.now) (shape_in (context_of ctx.now) (FunctionShape t.shape t.set g.shape g.set)) }
    requires right { let t = type_of others.now in let g = type_of other_gives.now in
        IsWellFormedShape (context_of ctx.now) (shape_in (context_of ctx.now) (FunctionShape t.shape t.set g.shape g.set)) }
    requires base { StandsOn (context_of log.old.known.base) (context_of ctx.now) }
    requires apart { let t = type_of takes.now in let g = type_of gives.now in let t' = type_of others.now in let g' = type_of other_gives.now in
        whole ≡ true → same_shape (shape_in (context_of ctx.now) (FunctionShape t.shape t.set g.shape g.set)) (shape_in (context_of ctx.now) (FunctionShape t'.shape t'.set g'.shape g'.set)) ≡ false }
    ensures kept { let t = type_of takes.now in let g = type_of gives.now in let t' = type_of others.now in let g' = type_of other_gives.now in
        IfOk result (λ m. Keeps (length (context_of log.old.known.base)) whole at (form_compared steps (context_of ctx.now) (FunctionShape t.shape t.set g.shape g.set) (FunctionShape t'.shape t'.set g'.shape g'.set)) m log.old.settled log.new.settled (listed whole log.old) (listed whole log.new)) }
    ensures base { log.new.known.base ≡ log.old.known.base }
{
    if !keep_types(alloc, ctx, others, takes, at, log, steps, whole)? {
        return Ok(false);
    }
    let under = under_parameter(alloc, ctx, others)?;
    keep_types(alloc, &under, gives, other_gives, at, log, steps, whole)
}

#[cycle(walk)]
fn keep_type_functions(
    alloc: Global,
    ctx: &Ctx,
    bound: &Rc<Shape>,
    gives: &Ty,
    other: &Rc<Shape>,
    other_gives: &Ty,
    at: Place,
    log: &mut Log,
    steps: u32,
    whole: bool,
) -> Result<bool, AllocError>
    requires context { IsWellFormedContext (context_of ctx.now) }
    requires left { let g = type_of gives.now in
        IsWellFormedShape (context_of ctx.now) (shape_in (context_of ctx.now) (TypeFunctionShape (shape_of bound.now.value) g.shape g.set)) }
    requires right { let g = type_of other_gives.now in
        IsWellFormedShape (context_of ctx.now) (shape_in (context_of ctx.now) (TypeFunctionShape (shape_of other.now.value) g.shape g.set)) }
    requires base { StandsOn (context_of log.old.known.base) (context_of ctx.now) }
    requires apart { let g = type_of gives.now in let g' = type_of other_gives.now in
        whole ≡ true → same_shape (shape_in (context_of ctx.now) (TypeFunctionShape (shape_of bound.now.value) g.shape g.set)) (shape_in (context_of ctx.now) (TypeFunctionShape (shape_of other.now.value) g'.shape g'.set)) ≡ false }
    ensures kept { let g = type_of gives.now in let g' = type_of other_gives.now in
        IfOk result (λ m. Keeps (length (context_of log.old.known.base)) whole at (form_compared steps (context_of ctx.now) (TypeFunctionShape (shape_of bound.now.value) g.shape g.set) (TypeFunctionShape (shape_of other.now.value) g'.shape g'.set)) m log.old.settled log.new.settled (listed whole log.old) (listed whole log.new)) }
    ensures base { log.new.known.base ≡ log.old.known.base }
{
    if !same_read(alloc, bound, other, entries(ctx), 0)? {
        return Ok(false);
    }
    let under = under_bound(alloc, ctx, bound)?;
    keep_types(alloc, &under, gives, other_gives, at, log, steps, whole)
}

#[cycle(walk)]
fn keep_boxes(
    alloc: Global,
    ctx: &Ctx,
    content: &Ty,
    other: &Ty,
    at: Place,
    log: &mut Log,
    steps: u32,
    whole: bool,
) -> Result<bool, AllocError>
    requires context { IsWellFormedContext (context_of ctx.now) }
    requires left { IsWellFormedType (context_of ctx.now) (type_in (context_of ctx.now) (type_of content.now)) }
    requires right { IsWellFormedType (context_of ctx.now) (type_in (context_of ctx.now) (type_of other.now)) }
    requires base { StandsOn (context_of log.old.known.base) (context_of ctx.now) }
    requires apart { let t = type_of content.now in let t' = type_of other.now in
        whole ≡ true → same_shape (shape_in (context_of ctx.now) (BoxShape t.shape t.set)) (shape_in (context_of ctx.now) (BoxShape t'.shape t'.set)) ≡ false }
    ensures kept { let t = type_of content.now in let t' = type_of other.now in
        IfOk result (λ m. Keeps (length (context_of log.old.known.base)) whole at (form_compared steps (context_of ctx.now) (BoxShape t.shape t.set) (BoxShape t'.shape t'.set)) m log.old.settled log.new.settled (listed whole log.old) (listed whole log.new)) }
    ensures base { log.new.known.base ≡ log.old.known.base }
{
    keep_types(alloc, ctx, content, other, at, log, steps, whole)
}

// Two shapes, of which the left one matches no other but Any, which the right one is not.
fn keep_itself(alloc: Global, ctx: &Ctx, left: &Shape, right: &Shape) -> Result<bool, AllocError>
    ensures { IfOk result (λ m. m ≡ same_shape (shape_in (context_of ctx.now) (shape_of left.now)) (shape_in (context_of ctx.now) (shape_of right.now))) }
{
    same_read(alloc, left, right, entries(ctx), 0)
}

#[cycle(walk)]
#[tactic(auto, unfolding(cc_checking::specs::Comparison::by_form))]
fn keep_form(
    alloc: Global,
    ctx: &Ctx,
    left: &Shape,
    right: &Shape,
    at: Place,
    log: &mut Log,
    steps: u32,
    whole: bool,
) -> Result<bool, AllocError>
    requires context { IsWellFormedContext (context_of ctx.now) }
    requires left { IsWellFormedShape (context_of ctx.now) (shape_in (context_of ctx.now) (shape_of left.now)) }
    requires right { IsWellFormedShape (context_of ctx.now) (shape_in (context_of ctx.now) (shape_of right.now)) }
    requires base { StandsOn (context_of log.old.known.base) (context_of ctx.now) }
    requires apart { whole ≡ true → same_shape (shape_in (context_of ctx.now) (shape_of left.now)) (shape_in (context_of ctx.now) (shape_of right.now)) ≡ false }
    ensures kept { IfOk result (λ m. Keeps (length (context_of log.old.known.base)) whole at (form_compared steps (context_of ctx.now) (shape_of left.now) (shape_of right.now)) m log.old.settled log.new.settled (listed whole log.old) (listed whole log.new)) }
    ensures base { log.new.known.base ≡ log.old.known.base }
{
    match left {
        Shape::Base(_) => keep_itself(alloc, ctx, left, right),
        Shape::Any => keep_itself(alloc, ctx, left, right),
        Shape::TVar(variable) => {
            let variable = read_variable(entries(ctx), 0, *variable);
            keep_variable(alloc, ctx, variable, right, at, log, steps, whole)
        }
        Shape::Fun(takes, gives) => match right {
            Shape::Fun(others, other_gives) => keep_functions(
                alloc,
                ctx,
                takes,
                gives,
                others,
                other_gives,
                at,
                log,
                steps,
                whole,
            ),
            _ => Ok(false),
        },
        Shape::TFun(bound, gives) => match right {
            Shape::TFun(other, other_gives) => keep_type_functions(
                alloc,
                ctx,
                bound,
                gives,
                other,
                other_gives,
                at,
                log,
                steps,
                whole,
            ),
            _ => Ok(false),
        },
        Shape::Boxed(content) => match right {
            Shape::Boxed(other) => keep_boxes(alloc, ctx, content, other, at, log, steps, whole),
            _ => Ok(false),
        },
        Shape::Exit(_) => keep_itself(alloc, ctx, left, right),
    }
}

/// Goes over two shapes, read in the context, in so many levels at most, and answers whether they match. What their
/// comparison demands is kept at the place: the whole of it, or else behind the log what is not needless.
///
/// Fails for want of memory, as which too many levels count.
#[cycle(walk)]
pub(crate) fn keep_shapes(
    alloc: Global,
    ctx: &Ctx,
    left: &Shape,
    right: &Shape,
    at: Place,
    log: &mut Log,
    steps: u32,
    whole: bool,
) -> Result<bool, AllocError>
    requires context { IsWellFormedContext (context_of ctx.now) }
    requires left { IsWellFormedShape (context_of ctx.now) (shape_in (context_of ctx.now) (shape_of left.now)) }
    requires right { IsWellFormedShape (context_of ctx.now) (shape_in (context_of ctx.now) (shape_of right.now)) }
    requires base { StandsOn (context_of log.old.known.base) (context_of ctx.now) }
    ensures kept { IfOk result (λ m. Keeps (length (context_of log.old.known.base)) whole at (comparison steps (context_of ctx.now) (shape_in (context_of ctx.now) (shape_of left.now)) (shape_in (context_of ctx.now) (shape_of right.now))) m log.old.settled log.new.settled (listed whole log.old) (listed whole log.new)) }
    ensures base { log.new.known.base ≡ log.old.known.base }
{
    if steps == 0 {
        return Err(AllocError);
    }
    if is_any(right) {
        return Ok(true);
    }
    if are_one(alloc, ctx, left, right, whole)? {
        return Ok(true);
    }
    keep_form(alloc, ctx, left, right, at, log, steps - 1, whole)
}

/// Goes over two types, as `keep_shapes` does over shapes. That the left set is below the right one is demanded first.
#[cycle(walk)]
pub(crate) fn keep_types(
    alloc: Global,
    ctx: &Ctx,
    left: &Ty,
    right: &Ty,
    at: Place,
    log: &mut Log,
    steps: u32,
    whole: bool,
) -> Result<bool, AllocError>
    requires context { IsWellFormedContext (context_of ctx.now) }
    requires left { IsWellFormedType (context_of ctx.now) (type_in (context_of ctx.now) (type_of left.now)) }
    requires right { IsWellFormedType (context_of ctx.now) (type_in (context_of ctx.now) (type_of right.now)) }
    requires base { StandsOn (context_of log.old.known.base) (context_of ctx.now) }
    ensures kept { IfOk result (λ m. Keeps (length (context_of log.old.known.base)) whole at (plain.type_comparison steps (context_of ctx.now) (type_in (context_of ctx.now) (type_of left.now)) (type_in (context_of ctx.now) (type_of right.now))) m log.old.settled log.new.settled (listed whole log.old) (listed whole log.new)) }
    ensures base { log.new.known.base ≡ log.old.known.base }
{
    ask_sets(alloc, ctx, &left.set, &right.set, at, log, whole)?;
    keep_shapes(alloc, ctx, &left.shape, &right.shape, at, log, steps, whole)
}
