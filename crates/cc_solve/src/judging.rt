//! Which of what is asked a filling fails first.

ghost use Rattle.std.specs.Prelude.{◌≡◌, ◌↔◌, ℕ, ◌<◌, ◌≤◌, [], ◌∷◌, Some, IsTrue, false, option_map, length, slice_set, IfOk, OnOk, MatchOption};
ghost use Rattle.cc_capture.specs.Sets.{union};
ghost use Rattle.cc_core.specs.Contexts.{lookup};
ghost use Rattle.cc_core.specs.Subcapturing.{SubcapturesSet};
ghost use Rattle.cc_core.specs.Substitution.{filled_element, filled_set};
ghost use Rattle.cc_core.specs.TermViews.{bind_of, context_of};
ghost use Rattle.cc_core.specs.WellFormed.{IsWellFormedContext, IsWellFormedSet};
ghost use Rattle.cc_checking.specs.Fillings.{filled_entry, filled_context, AllServed, FailsFirst, IsServed, code_of_failure};
ghost use Rattle.cc_sets.specs.Marked.{is_marked, IsClear};
ghost use Rattle.cc_sets.specs.Marking.{HasRoomFor, HasRoomForEntry, MarksThose, MarksEntry};
ghost use Rattle.cc_sets.specs.Reaching.{IsMissing};
ghost use Rattle.cc_subty.specs.Demands.{asked_of, demand_of};
ghost use Rattle.cc_solve.specs.Solutions.{CanBeJudged, filling_of, set_or_none};

use crate::filling::Filling;
use cc_base::code::{Code, Diag};
use cc_capture::{CapSet, Elem};
use cc_core::{Bind, Ctx};
use cc_sets::marks::Marks;
use cc_sets::subcapturing::{mark_elem, mark_missing};
use cc_subty::demands::{Demand, Demands};
use std::alloc::{AllocError, Global};

/// The code and the place of the first of what is asked that the filling does not serve, if there is one: E15 for a
/// demand, E16 for a set that is to have no universal capability.
///
/// Fails only for want of memory.
pub fn first_failed(
    alloc: Global,
    demands: &Demands,
    filling: &Filling,
) -> Result<Option<Diag>, AllocError>
    requires { CanBeJudged (filling_of filling.now) (asked_of demands.now) }
    ensures { IfOk result (λ r. MatchOption r (AllServed (filling_of filling.now) (asked_of demands.now)) (λ diag. FailsFirst (filling_of filling.now) (asked_of demands.now) diag.code diag.place)) }
{
    first_in(alloc, demands.as_slice(), filling)
}

// The same of a list.
fn first_in(
    alloc: Global,
    demands: &[Demand],
    filling: &Filling,
) -> Result<Option<Diag>, AllocError>
    requires { CanBeJudged (filling_of filling.now) (asked_of demands.now) }
    ensures { IfOk result (λ r. MatchOption r (AllServed (filling_of filling.now) (asked_of demands.now)) (λ diag. FailsFirst (filling_of filling.now) (asked_of demands.now) diag.code diag.place)) }
{
    let mut marks = Marks::new(alloc);
    for demand in demands.iter() {
        if !is_served(alloc, demand, filling, &mut marks)? {
            return Ok(Some(failure(demand)));
        }
    }
    Ok(None)
}

// The code and the place that are named where what is asked does not hold.
fn failure(demand: &Demand) -> Diag
    ensures code { result.code ≡ code_of_failure (demand_of demand.now).asked }
    ensures place { result.place ≡ (demand_of demand.now).at }
{
    match demand {
        Demand::Sub {
            ctx: _,
            left: _,
            right: _,
            at,
        } => Diag {
            code: Code::E15,
            place: *at,
        },
        Demand::NoCap { set: _, at } => Diag {
            code: Code::E16,
            place: *at,
        },
    }
}

/// Whether the filling serves what is asked. The marks have to be clear, and are clear afterwards.
///
/// Fails only for want of memory.
pub fn is_served(
    alloc: Global,
    demand: &Demand,
    filling: &Filling,
    marks: &mut Marks,
) -> Result<bool, AllocError>
    requires judged { CanBeJudged (filling_of filling.now) (demand_of demand.now ∷ []) }
    requires clear { IsClear marks.old }
    ensures clear { IsClear marks.new }
    ensures served { IfOk result (λ b. IsTrue b ↔ IsServed (filling_of filling.now) (demand_of demand.now).asked) }
{
    match demand {
        Demand::Sub {
            ctx,
            left,
            right,
            at: _,
        } => {
            let whole = filled(alloc, right, filling)?;
            marks.reserve(ctx.len())?;
            let answer = is_below(ctx, marks, left, &whole, filling);
            marks.clear_below(ctx.len());
            Ok(answer)
        }
        Demand::NoCap { set, at: _ } => {
            let whole = filled(alloc, set, filling)?;
            Ok(!whole.contains(Elem::Cap))
        }
    }
}

/// The set with its holes filled. It fails only for want of memory.
pub fn filled(alloc: Global, set: &CapSet, filling: &Filling) -> Result<CapSet, AllocError>
    ensures { IfOk result (λ s. s ≡ filled_set (filling_of filling.now) set.now) }
{
    let mut whole = CapSet::new(alloc);
    for elem in set.iter() {
        add_filled(alloc, elem, filling, &mut whole)?;
    }
    Ok(whole)
}

// Adds what becomes of the element.
fn add_filled(
    alloc: Global,
    elem: Elem,
    filling: &Filling,
    whole: &mut CapSet,
) -> Result<(), AllocError>
    ensures { OnOk result (whole.new ≡ union (filled_element (filling_of filling.now) elem) whole.old) }
{
    match elem {
        Elem::Hole(hole) => add_set(alloc, filling.get(hole), whole),
        Elem::Cap => whole.insert(elem),
        Elem::Var(_) => whole.insert(elem),
    }
}

// Adds the set, if there is one.
fn add_set(alloc: Global, set: Option<&CapSet>, whole: &mut CapSet) -> Result<(), AllocError>
    ensures { OnOk result (whole.new ≡ union (set_or_none (option_map (λ s. s.now) set.entry)) whole.old) }
{
    match set {
        Some(set) => {
            *whole = set.union(alloc, whole)?;
            Ok(())
        }
        None => Ok(()),
    }
}

// Whether the filled left set is below the right one in the filled context, which is not built: a declared set is
// filled where it is looked up. Marks may be left below the length of the context.
fn is_below(ctx: &Ctx, marks: &mut Marks, left: &CapSet, right: &CapSet, filling: &Filling) -> bool
    requires context { IsWellFormedContext (filled_context (filling_of filling.now) (context_of ctx.now)) }
    requires left { IsWellFormedSet (filled_context (filling_of filling.now) (context_of ctx.now)) (filled_set (filling_of filling.now) left.now) }
    requires room { length ctx.now ≤ length marks.old }
    requires clear { IsClear marks.old }
    ensures decides { IsTrue result ↔ SubcapturesSet (filled_context (filling_of filling.now) (context_of ctx.now)) (filled_set (filling_of filling.now) left.now) right.now }
    ensures room { length marks.new ≡ length marks.old }
    ensures within { (position : ℕ) → length ctx.now ≤ position → is_marked position marks.new ≡ false }
{
    if !mark_filled(marks, left, right, filling) {
        return false;
    }
    let mut limit = ctx.len();
    while let Some(position) = marks.last_below(limit) {
        if !look_up(ctx, marks, position, right, filling) {
            return false;
        }
        limit = position;
    }
    true
}

// Takes the mark away from the position and marks what its filled declared set has and the right set does not. The
// answer is no where that is no variable.
fn look_up(ctx: &Ctx, marks: &mut Marks, position: u32, right: &CapSet, filling: &Filling) -> bool
    requires within { position < length marks.old }
    requires room { HasRoomForEntry marks.old (option_map (filled_entry (filling_of filling.now)) (lookup (context_of ctx.now) position)) }
    ensures { MarksEntry (option_map (filled_entry (filling_of filling.now)) (lookup (context_of ctx.now) position)) right.now (slice_set marks.old position false) marks.new result }
{
    marks.unmark(position);
    match ctx.get(position) {
        Some(bind) => mark_declared(marks, bind, right, filling),
        None => false,
    }
}

// Marks what the filled declared set of an entry has and the right set does not.
fn mark_declared(marks: &mut Marks, bind: &Bind, right: &CapSet, filling: &Filling) -> bool
    requires { HasRoomForEntry marks.old (Some (filled_entry (filling_of filling.now) (bind_of bind.now))) }
    ensures { MarksEntry (Some (filled_entry (filling_of filling.now) (bind_of bind.now))) right.now marks.old marks.new result }
{
    match bind {
        Bind::Var(ty) => mark_filled(marks, &ty.set, right, filling),
        Bind::TVar(_) => false,
        Bind::Unread { set, .. } => mark_filled(marks, set, right, filling),
    }
}

// Marks what the filled set has and the right set does not. The answer is no where that is no variable.
fn mark_filled(marks: &mut Marks, set: &CapSet, right: &CapSet, filling: &Filling) -> bool
    requires { HasRoomFor marks.old (filled_set (filling_of filling.now) set.now) }
    ensures { MarksThose (IsMissing (filled_set (filling_of filling.now) set.now) right.now) marks.old marks.new result }
{
    let mut all = true;
    for elem in set.iter() {
        all &= mark_filling(marks, elem, right, filling);
    }
    all
}

// The same of what becomes of one element.
fn mark_filling(marks: &mut Marks, elem: Elem, right: &CapSet, filling: &Filling) -> bool
    requires { HasRoomFor marks.old (filled_element (filling_of filling.now) elem) }
    ensures { MarksThose (IsMissing (filled_element (filling_of filling.now) elem) right.now) marks.old marks.new result }
{
    match elem {
        Elem::Hole(hole) => mark_set(marks, filling.get(hole), right),
        Elem::Cap => mark_elem(marks, elem, right),
        Elem::Var(_) => mark_elem(marks, elem, right),
    }
}

// The same of a set, if there is one.
fn mark_set(marks: &mut Marks, set: Option<&CapSet>, right: &CapSet) -> bool
    requires { HasRoomFor marks.old (set_or_none (option_map (λ s. s.now) set)) }
    ensures { MarksThose (IsMissing (set_or_none (option_map (λ s. s.now) set.entry)) right.now) marks.old marks.new result }
{
    match set {
        Some(set) => mark_missing(marks, set, right),
        None => true,
    }
}
