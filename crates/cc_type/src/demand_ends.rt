//! Where the declared sets of a demand's left side end.

ghost use Rattle.std.specs.Prelude.{◌≡◌, ◌<◌, ◌≤◌, ℕ, IfOk, OnOk, MatchOption, option_map};
ghost use Rattle.cc_capture.specs.Sets.{Member, empty};
ghost use Rattle.cc_core.specs.TermViews.{bind_of, context_of};
ghost use Rattle.cc_core.specs.WellFormed.{IsWellFormedContext, IsWellFormedSet};
ghost use Rattle.cc_known.specs.EndedDemands.{PutsBeyond, IsPositionBelow, IsLastBelow};
ghost use Rattle.cc_known.specs.Keeping.{declared_of, ends_beyond, fillable};

use cc_capture::{CapSet, Elem, Var};
use cc_core::{Bind, Ctx};
use cc_known::ended::EndedDemand;
use cc_known::fillable::fillable;
use std::alloc::{AllocError, Global};

// Puts the element where it belongs, unless the right set has it: a variable waits, and what no context says more of is
// an end.
fn put_elem(
    waiting: &mut CapSet,
    ends: &mut CapSet,
    right: &CapSet,
    elem: Elem,
) -> Result<(), AllocError>
    ensures { OnOk result (PutsBeyond right.now (λ e. e ≡ elem) waiting.old ends.old waiting.new ends.new) }
{
    if right.contains(elem) {
        return Ok(());
    }
    match elem {
        Elem::Var(_) => waiting.insert(elem),
        Elem::Cap => ends.insert(elem),
        Elem::Hole(_) => ends.insert(elem),
    }
}

// The same of all members of a set.
fn put_elems(
    waiting: &mut CapSet,
    ends: &mut CapSet,
    right: &CapSet,
    set: &CapSet,
) -> Result<(), AllocError>
    ensures { OnOk result (PutsBeyond right.now (λ e. Member e set.now) waiting.old ends.old waiting.new ends.new) }
{
    for elem in set.iter() {
        put_elem(waiting, ends, right, elem)?;
    }
    Ok(())
}

// The same of the declared set of an entry.
fn put_declared(
    waiting: &mut CapSet,
    ends: &mut CapSet,
    right: &CapSet,
    entry: Option<&Bind>,
) -> Result<(), AllocError>
    ensures { OnOk result (PutsBeyond right.now (λ e. Member e (declared_of (option_map (λ b. bind_of b.now) entry.entry))) waiting.old ends.old waiting.new ends.new) }
{
    match entry {
        Some(bind) => match bind {
            Bind::Var(ty) => put_elems(waiting, ends, right, &ty.set),
            Bind::TVar(_) => Ok(()),
            Bind::Unread { set, .. } => put_elems(waiting, ends, right, set),
        },
        None => Ok(()),
    }
}

// The position of the variable, where it is free and below the limit.
fn variable_below(variable: Var, limit: u32) -> Option<u32>
    ensures { MatchOption result (IsPositionBelow limit (Elem.Var variable) → ⊥) (λ position. (Elem.Var variable ≡ Elem.Var (Var.Free position)) × (position < limit)) }
{
    match variable {
        Var::Free(position) => {
            if position < limit {
                Some(position)
            } else {
                None
            }
        }
        Var::Bound(_) => None,
    }
}

// The same of an element.
fn position_below(elem: Elem, limit: u32) -> Option<u32>
    ensures { MatchOption result (IsPositionBelow limit elem → ⊥) (λ position. (elem ≡ Elem.Var (Var.Free position)) × (position < limit)) }
{
    match elem {
        Elem::Var(variable) => variable_below(variable, limit),
        Elem::Cap => None,
        Elem::Hole(_) => None,
    }
}

// The greatest position that waits, where it is below the limit.
fn last_below(waiting: &CapSet, limit: u32) -> Option<u32>
    ensures { MatchOption result
        (((e : Elem) → Member e waiting.now → IsPositionBelow limit e) → waiting.now ≡ empty)
        (λ position. IsLastBelow limit waiting.now position) }
{
    match waiting.get(waiting.len().saturating_sub(1)) {
        Some(last) => position_below(last, limit),
        None => None,
    }
}

// Where the left set ends: from the newest variable on, each that the right set does not have gives way to its declared
// set.
fn ends_of(alloc: Global, ctx: &Ctx, left: &CapSet, right: &CapSet) -> Result<CapSet, AllocError>
    requires context { IsWellFormedContext (context_of ctx.now) }
    requires left { IsWellFormedSet (context_of ctx.now) left.now }
    ensures { IfOk result (λ s. s ≡ ends_beyond (context_of ctx.now) right.now left.now) }
{
    let mut ends = CapSet::new(alloc);
    let mut waiting = CapSet::new(alloc);
    put_elems(&mut waiting, &mut ends, right, left)?;
    let mut limit = ctx.len();
    while let Some(position) = last_below(&waiting, limit) {
        waiting.remove(Elem::Var(Var::Free(position)));
        put_declared(&mut waiting, &mut ends, right, ctx.get(position))?;
        limit = position;
    }
    Ok(ends)
}

/// The demand of the two sets in the context, by its ends.
pub(crate) fn ended(
    alloc: Global,
    ctx: &Ctx,
    left: &CapSet,
    right: &CapSet,
) -> Result<EndedDemand, AllocError>
    requires context { IsWellFormedContext (context_of ctx.now) }
    requires left { IsWellFormedSet (context_of ctx.now) left.now }
    ensures ends { IfOk result (λ d. d.ends ≡ ends_beyond (context_of ctx.now) right.now left.now) }
    ensures right { IfOk result (λ d. d.right ≡ fillable (context_of ctx.now) right.now) }
{
    let ends = ends_of(alloc, ctx, left, right)?;
    let right = fillable(alloc, ctx, right)?;
    Ok(EndedDemand { ends, right })
}
