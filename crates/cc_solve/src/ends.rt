//! Where chains of declared sets end.

ghost use Rattle.std.specs.Prelude.{◌≡◌, ◌↔◌, ℕ, ◌<◌, ◌≤◌, Some, false, length, slice_set, IfOk, OnOk};
ghost use Rattle.cc_capture.specs.Sets.{Member};
ghost use Rattle.cc_core.specs.Contexts.{lookup};
ghost use Rattle.cc_core.specs.TermViews.{bind_of, context_of};
ghost use Rattle.cc_core.specs.WellFormed.{IsWellFormedContext, IsWellFormedSet};
ghost use Rattle.cc_sets.specs.Marked.{is_marked, IsClear};
ghost use Rattle.cc_sets.specs.Marking.{HasRoom, HasRoomFor, HasRoomForEntry};
ghost use Rattle.cc_solve.specs.Ends.{LeadsFrom, Puts, PutsEntry};

use cc_capture::{CapSet, Elem, Var};
use cc_core::{Bind, Ctx};
use cc_sets::marks::Marks;
use std::alloc::{AllocError, Global};

/// What the members of the set lead to through the declared sets of local variables. The globals are the positions
/// below the number. Each local variable is looked up at most once. The marks have to be clear, with room for the
/// context, and are clear afterwards.
///
/// Fails only for want of memory.
pub fn ends_of(
    alloc: Global,
    ctx: &Ctx,
    marks: &mut Marks,
    globals: u32,
    set: &CapSet,
) -> Result<CapSet, AllocError>
    requires context { IsWellFormedContext (context_of ctx.now) }
    requires set { IsWellFormedSet (context_of ctx.now) set.now }
    requires room { length ctx.now ≤ length marks.old }
    requires clear { IsClear marks.old }
    ensures ends { IfOk result (λ s. (e : Elem) → Member e s ↔ LeadsFrom globals (context_of ctx.now) set.now e) }
    ensures room { OnOk result (length marks.new ≡ length marks.old) }
    ensures clear { OnOk result (IsClear marks.new) }
{
    let mut ends = CapSet::new(alloc);
    put_elems(marks, &mut ends, globals, set)?;
    let mut limit = ctx.len();
    while let Some(position) = marks.last_below(limit) {
        follow(ctx, marks, &mut ends, globals, position)?;
        limit = position;
    }
    Ok(ends)
}

// Takes the mark away from the position, and puts what its declared set has.
fn follow(
    ctx: &Ctx,
    marks: &mut Marks,
    ends: &mut CapSet,
    globals: u32,
    position: u32,
) -> Result<(), AllocError>
    requires within { position < length marks.old }
    requires room { HasRoomForEntry marks.old (lookup (context_of ctx.now) position) }
    ensures { OnOk result (PutsEntry globals (lookup (context_of ctx.now) position) (slice_set marks.old position false) marks.new ends.old ends.new) }
{
    marks.unmark(position);
    match ctx.get(position) {
        Some(bind) => put_declared(marks, ends, globals, bind),
        None => Ok(()),
    }
}

// Puts what the declared set of an entry has.
fn put_declared(
    marks: &mut Marks,
    ends: &mut CapSet,
    globals: u32,
    bind: &Bind,
) -> Result<(), AllocError>
    requires { HasRoomForEntry marks.old (Some (bind_of bind.now)) }
    ensures { OnOk result (PutsEntry globals (Some (bind_of bind.now)) marks.old marks.new ends.old ends.new) }
{
    match bind {
        Bind::Var(ty) => put_elems(marks, ends, globals, &ty.set),
        Bind::TVar(_) => Ok(()),
        Bind::Unread { set, .. } => put_elems(marks, ends, globals, set),
    }
}

// Marks the local variables of the set, and puts the globals, the universal capability and the holes into the ends.
fn put_elems(
    marks: &mut Marks,
    ends: &mut CapSet,
    globals: u32,
    set: &CapSet,
) -> Result<(), AllocError>
    requires { HasRoomFor marks.old set.now }
    ensures { OnOk result (Puts globals (λ e. Member e set.now) marks.old marks.new ends.old ends.new) }
{
    for elem in set.iter() {
        put_elem(marks, ends, globals, elem)?;
    }
    Ok(())
}

// The same of one element.
fn put_elem(
    marks: &mut Marks,
    ends: &mut CapSet,
    globals: u32,
    elem: Elem,
) -> Result<(), AllocError>
    requires { HasRoom marks.old elem }
    ensures { OnOk result (Puts globals (λ e. e ≡ elem) marks.old marks.new ends.old ends.new) }
{
    match elem {
        Elem::Var(variable) => put_variable(marks, ends, globals, variable),
        Elem::Cap => ends.insert(elem),
        Elem::Hole(_) => ends.insert(elem),
    }
}

// The same of a variable.
#[tactic(auto, using(crate::proofs::Puttings::puts_index))]
fn put_variable(
    marks: &mut Marks,
    ends: &mut CapSet,
    globals: u32,
    variable: Var,
) -> Result<(), AllocError>
    requires { HasRoom marks.old (Elem.Var variable) }
    ensures { OnOk result (Puts globals (λ e. e ≡ Elem.Var variable) marks.old marks.new ends.old ends.new) }
{
    match variable {
        Var::Free(position) => put_position(marks, ends, globals, position),
        Var::Bound(_) => Ok(()),
    }
}

// The same of a free position.
#[tactic(auto, using(crate::proofs::Puttings::puts_local))]
fn put_position(
    marks: &mut Marks,
    ends: &mut CapSet,
    globals: u32,
    position: u32,
) -> Result<(), AllocError>
    requires { position < length marks.old }
    ensures { OnOk result (Puts globals (λ e. e ≡ Elem.Var (Var.Free position)) marks.old marks.new ends.old ends.new) }
{
    if position < globals {
        return ends.insert(Elem::Var(Var::Free(position)));
    }
    marks.mark(position);
    Ok(())
}
