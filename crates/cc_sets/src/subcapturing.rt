//! Whether a capture set is below another in a context.

ghost use Rattle.std.specs.Prelude.{◌≡◌, ◌↔◌, ℕ, ◌+◌, ◌<◌, ◌≤◌, Some, IsTrue, false, length, slice_set};
ghost use Rattle.cc_core.specs.Contexts.{lookup};
ghost use Rattle.cc_core.specs.Subcapturing.{SubcapturesSet};
ghost use Rattle.cc_core.specs.TermViews.{bind_of, context_of};
ghost use Rattle.cc_core.specs.WellFormed.{IsWellFormedContext, IsWellFormedSet};
ghost use Rattle.cc_sets.specs.Marked.{is_marked, IsClear};
ghost use Rattle.cc_sets.specs.Marking.{HasRoom, HasRoomFor, HasRoomForEntry, IsThatMissing, MarksThose, MarksEntry};
ghost use Rattle.cc_sets.specs.Reaching.{IsMissing, LooksUp};

use crate::marks::Marks;
use cc_base::steps::Steps;
use cc_capture::{CapSet, Elem, Var};
use cc_core::{Bind, Ctx};
use std::sync::ledger::Ledger;

/// Whether the left set is below the right one in the context. It takes no memory.
///
/// The declared set of a variable is looked up at most once, and only where the variable is reached from the left set
/// by a chain of variables that the right set does not have; each look-up is one step. The marks have to be clear, with
/// room for the context, and are clear afterwards.
pub fn subcap<L: Ledger>(
    ctx: &Ctx,
    marks: &mut Marks,
    left: &CapSet,
    right: &CapSet,
    steps: &mut Steps<L>,
) -> bool
    requires context { IsWellFormedContext (context_of ctx.now) }
    requires left { IsWellFormedSet (context_of ctx.now) left.now }
    requires room { length ctx.now ≤ length marks.old }
    requires clear { IsClear marks.old }
    ensures decides { IsTrue result ↔ SubcapturesSet (context_of ctx.now) left.now right.now }
    ensures clear { marks.new ≡ marks.old }
    ensures looks_up { LooksUp (context_of ctx.now) left.now right.now result steps.old steps.new }
{
    if left.is_subset(right) {
        return true;
    }
    let answer = is_below(ctx, marks, left, right, steps);
    marks.clear_below(ctx.len());
    answer
}

// The same, where marks may be left below the length of the context.
fn is_below<L: Ledger>(
    ctx: &Ctx,
    marks: &mut Marks,
    left: &CapSet,
    right: &CapSet,
    steps: &mut Steps<L>,
) -> bool
    requires context { IsWellFormedContext (context_of ctx.now) }
    requires left { IsWellFormedSet (context_of ctx.now) left.now }
    requires room { length ctx.now ≤ length marks.old }
    requires clear { IsClear marks.old }
    ensures decides { IsTrue result ↔ SubcapturesSet (context_of ctx.now) left.now right.now }
    ensures looks_up { LooksUp (context_of ctx.now) left.now right.now result steps.old steps.new }
    ensures room { length marks.new ≡ length marks.old }
    ensures within { (position : ℕ) → length ctx.now ≤ position → is_marked position marks.new ≡ false }
{
    if !mark_missing(marks, left, right) {
        return false;
    }
    let mut limit = ctx.len();
    while let Some(position) = marks.last_below(limit) {
        if !look_up(ctx, marks, position, right, steps) {
            return false;
        }
        limit = position;
    }
    true
}

// Takes the mark away from the position and marks what its declared set has and the right set does not. The answer is no
// where that is no variable.
fn look_up<L: Ledger>(
    ctx: &Ctx,
    marks: &mut Marks,
    position: u32,
    right: &CapSet,
    steps: &mut Steps<L>,
) -> bool
    requires within { position < length marks.old }
    requires room { HasRoomForEntry marks.old (lookup (context_of ctx.now) position) }
    ensures marks { MarksEntry (lookup (context_of ctx.now) position) right.now (slice_set marks.old position false) marks.new result }
    ensures step { steps.new ≡ steps.old + 1 }
{
    marks.unmark(position);
    steps.tick();
    match ctx.get(position) {
        Some(bind) => mark_declared(marks, bind, right),
        None => false,
    }
}

// Marks what the declared set of an entry has and the right set does not.
fn mark_declared(marks: &mut Marks, bind: &Bind, right: &CapSet) -> bool
    requires { HasRoomForEntry marks.old (Some (bind_of bind.now)) }
    ensures { MarksEntry (Some (bind_of bind.now)) right.now marks.old marks.new result }
{
    match bind {
        Bind::Var(ty) => mark_missing(marks, &ty.set, right),
        Bind::TVar(_) => false,
        Bind::Unread { set, .. } => mark_missing(marks, set, right),
    }
}

/// Marks what the left set has and the right set does not. The answer is no where that is no variable.
pub fn mark_missing(marks: &mut Marks, left: &CapSet, right: &CapSet) -> bool
    requires { HasRoomFor marks.old left.now }
    ensures { MarksThose (IsMissing left.now right.now) marks.old marks.new result }
{
    let mut all = true;
    for elem in left.iter() {
        all &= mark_elem(marks, elem, right);
    }
    all
}

/// Marks the element, unless the right set has it. The answer is no where it is no variable.
pub fn mark_elem(marks: &mut Marks, elem: Elem, right: &CapSet) -> bool
    requires { HasRoom marks.old elem }
    ensures { MarksThose (IsThatMissing elem right.now) marks.old marks.new result }
{
    if right.contains(elem) {
        return true;
    }
    match elem {
        Elem::Var(variable) => mark_variable(marks, variable),
        Elem::Cap => false,
        Elem::Hole(_) => false,
    }
}

// Marks the variable, where it is free.
fn mark_variable(marks: &mut Marks, variable: Var) -> bool
    requires { HasRoom marks.old (Elem.Var variable) }
    ensures { MarksThose (λ e. e ≡ Elem.Var variable) marks.old marks.new result }
{
    match variable {
        Var::Free(position) => {
            marks.mark(position);
            true
        }
        Var::Bound(_) => false,
    }
}
