//! The steps of inference that ask something.

ghost use Rattle.std.specs.Prelude.{◌≡◌, ◌-◌, true, [], IfOk, IsTrue};
ghost use Rattle.cc_core.specs.TermViews.{shape_of, type_of, context_of};
ghost use Rattle.cc_core.specs.WellFormed.{IsWellFormedContext, IsWellFormedShape, IsWellFormedType};
ghost use Rattle.cc_checking.specs.Comparison.{Matches, comparison};
ghost use Rattle.cc_checking.specs.Inference as plain;
ghost use Rattle.cc_subty.specs.Demands.{asked_of};
ghost use Rattle.cc_known.specs.ComparedPairs.{is_compared_as, IsKept};
ghost use Rattle.cc_known.specs.KeptWalks.{StandsOn};
ghost use Rattle.cc_known.specs.Logs.{Meets, after};
ghost use Rattle.cc_type.specs.Comparing.{most_steps};
ghost use Rattle.cc_type.specs.Rows.{comparing};

use crate::forms::match_behind;
use crate::log::{Log, keep_below};
use crate::walking::keep_shapes;
use cc_base::code::Code;
use cc_base::place::Place;
use cc_core::same::same_shape;
use cc_core::sizes::shape_size;
use cc_core::wellformed::wf_shape;
use cc_core::{Ctx, Shape, Ty};
use cc_known::bases::{named_by, oldest};
use cc_known::known::Known;
use cc_known::stop::{Stop, refused};
use cc_subty::exposing::bound_of;
use std::alloc::{AllocError, Global};

// Of smaller shapes it is not remembered that they were compared.
const SMALL: u64 = 64;

// One more than the greatest position that two shapes name, where the right one is of this size and that is not small.
fn named_in(size: u64, left: &Shape, right: &Shape) -> u32 {
    if size < SMALL {
        return 0;
    }
    named_by(left, right)
}

// Whether it is worth while to remember the comparison of a shape of this size, where so many entries stand in the front
// of the context that it goes by: to see that they are the same takes less than to go over it, and to copy that front no
// more than all that was gone over since one was copied.
fn is_worth(size: u64, entries: u32, passed: u64) -> bool {
    size >= SMALL && size >= u64::from(entries / 64) && passed >= u64::from(entries / 2)
}

// How many parts were gone over, which begins anew where a front is copied.
fn counted(passed: u64, copied: bool) -> u64 {
    if copied { 0 } else { passed }
}

// The context in which a comparison begins: with no newer entries than it goes by, where it is remembered.
fn base_of(alloc: Global, ctx: &Ctx, named: u32, remembered: bool) -> Result<Ctx, AllocError>
    ensures { IfOk result (λ base. StandsOn (context_of base) (context_of ctx.now)) }
{
    if remembered {
        return oldest(alloc, ctx, named);
    }
    ctx.clone()
}

// Remembers that nothing has to be kept of the two shapes when they come again, where they are shapes of the base.
fn remember(
    alloc: Global,
    base: &Ctx,
    left: &Shape,
    right: &Shape,
    log: &mut Log,
) -> Result<(), AllocError>
    requires { IsWellFormedShape (context_of base.now) (shape_of left.now) → IsWellFormedShape (context_of base.now) (shape_of right.now) → is_compared_as most_steps (asked_of log.old.demands) (context_of base.now) (shape_of left.now) (shape_of right.now) ≡ true }
    ensures { log.new.demands ≡ log.old.demands }
{
    if !wf_shape(alloc, base, left)? {
        return Ok(());
    }
    if !wf_shape(alloc, base, right)? {
        return Ok(());
    }
    log.remember_compared(alloc, base, left, right)
}

// Goes over the two shapes, and remembers where nothing of them has to be kept when they come again.
fn gone_over(
    alloc: Global,
    ctx: &Ctx,
    left: &Shape,
    right: &Shape,
    at: Place,
    log: &mut Log,
) -> Result<bool, AllocError>
    requires context { IsWellFormedContext (context_of ctx.now) }
    requires left { IsWellFormedShape (context_of ctx.now) (shape_of left.now) }
    requires right { IsWellFormedShape (context_of ctx.now) (shape_of right.now) }
    ensures { IfOk result (λ m. IsKept at (comparison most_steps (context_of ctx.now) (shape_of left.now) (shape_of right.now)) m (asked_of log.old.demands) (asked_of log.new.demands)) }
{
    let size = shape_size(right);
    let named = named_in(size, left, right);
    let passed = log.passed.saturating_add(size);
    let remembered = is_worth(size, named, passed);
    let base = base_of(alloc, ctx, named, remembered)?;
    log.known = Known::new(alloc, base.clone()?);
    log.passed = counted(passed, remembered);
    log.settled = true;
    let matched = keep_shapes(alloc, ctx, left, right, at, log, u32::MAX, false)?;
    if !matched {
        return Ok(false);
    }
    let all = log.settled;
    if !all {
        return Ok(true);
    }
    if !remembered {
        return Ok(true);
    }
    remember(alloc, &base, left, right, log)?;
    Ok(true)
}

// Whether the two shapes are one, or the left one is a type variable whose bounds lead to the right one, in so many
// levels at most.
fn leads_to(ctx: &Ctx, left: &Shape, right: &Shape, steps: u32) -> bool
    ensures { IsTrue result → comparison steps (context_of ctx.now) (shape_of left.now) (shape_of right.now) ≡ Matches [] }
{
    if steps == 0 {
        return false;
    }
    if same_shape(left, right) {
        return true;
    }
    match left {
        Shape::TVar(variable) => match bound_of(ctx, *variable) {
            Some(bound) => leads_to(ctx, bound, right, steps - 1),
            None => false,
        },
        _ => false,
    }
}

// Keeps what has to be kept of the comparison of the two shapes, and answers whether they match. Two that are one are
// not gone over, nor is a type variable whose bounds lead to the right one, and neither are two of which nothing has to
// be kept: behind something lost, where their forms match, or since they were compared before.
fn matching(
    alloc: Global,
    ctx: &Ctx,
    left: &Shape,
    right: &Shape,
    at: Place,
    log: &mut Log,
) -> Result<bool, AllocError>
    requires context { IsWellFormedContext (context_of ctx.now) }
    requires left { IsWellFormedShape (context_of ctx.now) (shape_of left.now) }
    requires right { IsWellFormedShape (context_of ctx.now) (shape_of right.now) }
    ensures { IfOk result (λ m. IsKept at (comparison most_steps (context_of ctx.now) (shape_of left.now) (shape_of right.now)) m (asked_of log.old.demands) (asked_of log.new.demands)) }
{
    if leads_to(ctx, left, right, u32::MAX) {
        return Ok(true);
    }
    if match_behind(left, right, log) {
        return Ok(true);
    }
    if log.has_compared(ctx, left, right) {
        return Ok(true);
    }
    gone_over(alloc, ctx, left, right, at, log)
}

/// The left type has to be below the right one.
pub fn below(
    alloc: Global,
    ctx: &Ctx,
    left: &Ty,
    right: &Ty,
    at: Place,
    log: &mut Log,
) -> Result<(), Stop>
    requires context { IsWellFormedContext (context_of ctx.now) }
    requires left { IsWellFormedType (context_of ctx.now) (type_of left.now) }
    requires right { IsWellFormedType (context_of ctx.now) (type_of right.now) }
    ensures { Meets (λ u. u) result (asked_of log.new.demands) (after (asked_of log.old.demands) (plain.below comparing at (context_of ctx.now) (type_of left.now) (type_of right.now))) }
{
    keep_below(alloc, ctx, &left.set, &right.set, at, log)?;
    if matching(alloc, ctx, &left.shape, &right.shape, at, log)? {
        Ok(())
    } else {
        Err(refused(Code::E14, at))
    }
}

/// The left shape has to be below the right one, and sets do not count.
pub(crate) fn against(
    alloc: Global,
    ctx: &Ctx,
    left: &Shape,
    right: &Shape,
    at: Place,
    log: &mut Log,
) -> Result<(), Stop>
    requires context { IsWellFormedContext (context_of ctx.now) }
    requires left { IsWellFormedShape (context_of ctx.now) (shape_of left.now) }
    requires right { IsWellFormedShape (context_of ctx.now) (shape_of right.now) }
    ensures { Meets (λ u. u) result (asked_of log.new.demands) (after (asked_of log.old.demands) (plain.against comparing at (context_of ctx.now) (shape_of left.now) (shape_of right.now))) }
{
    if matching(alloc, ctx, left, right, at, log)? {
        Ok(())
    } else {
        Err(refused(Code::E14, at))
    }
}
