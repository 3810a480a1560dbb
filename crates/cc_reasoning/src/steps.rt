//! The steps of explained inference that ask something: those of inference, with the cause where one is refused, and with
//! the local variables beside what is kept.

ghost use Rattle.std.specs.Prelude.{◌≡◌, length, map, true, IfOk};
ghost use Rattle.cc_core.specs.Places.{spots_at, places_of};
ghost use Rattle.cc_base.specs.declared.literal.Base.TheVariants as bases;
ghost use Rattle.cc_core.specs.Shapes.{BaseShape};
ghost use Rattle.cc_core.specs.TermViews.{shape_of, type_of, note_of, term_of, context_of};
ghost use Rattle.cc_core.specs.WellFormed.{IsWellFormedContext, IsWellFormedType};
ghost use Rattle.cc_subty.specs.Demands.{asked_of};
ghost use Rattle.cc_known.specs.Logs as plain;
ghost use Rattle.cc_known.specs.Measures.{AreMeasuresOf};
ghost use Rattle.cc_known.specs.Parts.{found_of, named_of};
ghost use Rattle.cc_type.specs.Rows.{ways, branch_log};
ghost use Rattle.cc_type.specs.Standing.{NoteReadsWell, StandsWell};
ghost use Rattle.cc_reasons.specs.ExplainedInference.{explained, explained_below, explained_note, explained_operand};
ghost use Rattle.cc_reasoning.specs.ExplainedLogs as logs;
ghost use Rattle.cc_reasoning.specs.ExplainedLogs.{note_cause};
ghost use Rattle.cc_causes.specs.LeafReasons.{IsLeaf};
ghost use Rattle.cc_reasoning.specs.LocatedLogs.{Meets, after, beside};
ghost use Rattle.cc_causes.specs.Views.{locals_of, scene_of, binder_names_of, cause_of};

use crate::located::fill;
use cc_base::literal::Base;
use cc_base::place::Place;
use cc_capture::Var;
use cc_causes::causes::{wrong_shape, wrong_type};
use cc_causes::heads::shape_of_variable;
use cc_causes::leaf_causes::leaf_cause;
use cc_causes::reason::{Binders, Cause, Halt, Locals, Scene};
use cc_core::reading::{read_shape, read_type};
use cc_core::{Ctx, Node, Note, Ty};
use cc_infer::infer_known;
use cc_known::found::{Found, Named};
use cc_known::measures::Measures;
use cc_known::steps::entries;
use cc_known::stop::Stop;
use cc_type::Log;
use cc_type::bases::base_shape;
use cc_type::comparing::below;
use cc_type::operands::{base_operand, branch, noted};
use std::alloc::{AllocError, Global};
use std::rc::Rc;

/// What is found for a form without parts.
pub(crate) fn leaf(
    alloc: Global,
    scene: &Scene,
    root: u32,
    measures: &Measures,
    node: &Rc<Node>,
    binders: &Binders,
    log: &mut Log,
    known: &mut Vec<Rc<Locals>>,
) -> Result<Found, Halt>
    requires context { IsWellFormedContext (context_of scene.now.ctx) }
    requires measures { AreMeasuresOf measures.now (context_of scene.now.ctx) }
    requires term { StandsWell root (context_of scene.now.ctx) (term_of node.now.value) }
    requires leaf { IsLeaf (term_of node.now.value) }
    requires even { length known.old.items ≡ length log.old.demands }
    ensures exact { Meets found_of result (beside (asked_of log.new.demands) (map (λ l. locals_of l.value) known.new.items))
        (after (beside (asked_of log.old.demands) (map (λ l. locals_of l.value) known.old.items))
        (explained ways root (scene_of scene.now) (term_of node.now.value) (places_of node.now.value) (binder_names_of binders.now))) }
    ensures even { IfOk result (λ _. length known.new.items ≡ length log.new.demands) }
    ensures places { IfOk result (λ f. places_of f.node.value ≡ places_of node.now.value) }
    ensures unchanged { IfOk result (λ f. f.unchanged ≡ true → term_of f.node.value ≡ term_of node.now.value) }
{
    match infer_known(alloc, &scene.ctx, root, measures, node, log) {
        Ok(found) => {
            let count = log.demands().len();
            fill(known, &scene.locals, count)?;
            Ok(found)
        }
        Err(Stop::Refused(diag)) => {
            let cause = leaf_cause(alloc, scene, node, diag.code)?;
            let cause = Rc::new(alloc, cause)?;
            Err(Halt::Refused(cause, diag.place))
        }
        Err(Stop::NoMemory) => Err(Halt::NoMemory),
    }
}

/// Why a type does not match what is written for it.
pub(crate) fn cause_of_note(
    alloc: Global,
    scene: &Scene,
    note: &Note,
    ty: &Ty,
) -> Result<Cause, AllocError>
    ensures { IfOk result (λ c. cause_of c ≡ note_cause (scene_of scene.now) (note_of note.now) (type_of ty.now)) }
{
    match note {
        Note::Absent => Ok(Cause::NothingThere),
        Note::Written(written) => {
            let found = ty.clone()?;
            let wanted = read_type(alloc, written, entries(&scene.ctx))?;
            let cause = wrong_type(scene, found, wanted)?;
            Ok(cause)
        }
        Note::Own(written) => {
            let found = ty.shape.clone()?;
            let wanted = read_shape(alloc, written, entries(&scene.ctx))?;
            let cause = wrong_shape(scene, found, wanted)?;
            Ok(cause)
        }
    }
}

/// A type that was found, where a type may be written for it, and what is then named.
pub fn name(
    alloc: Global,
    scene: &Scene,
    root: u32,
    note: &Note,
    ty: &Ty,
    at: Place,
    log: &mut Log,
    known: &mut Vec<Rc<Locals>>,
) -> Result<Named, Halt>
    requires context { IsWellFormedContext (context_of scene.now.ctx) }
    requires ty { IsWellFormedType (context_of scene.now.ctx) (type_of ty.now) }
    requires note { NoteReadsWell (context_of scene.now.ctx) (note_of note.now) }
    requires even { length known.old.items ≡ length log.old.demands }
    ensures is { Meets named_of result (beside (asked_of log.new.demands) (map (λ l. locals_of l.value) known.new.items))
        (after (beside (asked_of log.old.demands) (map (λ l. locals_of l.value) known.old.items))
        (explained_note ways root at (scene_of scene.now) (note_of note.now) (type_of ty.now))) }
    ensures even { IfOk result (λ _. length known.new.items ≡ length log.new.demands) }
    ensures formed { IfOk result (λ n. IsWellFormedType (context_of scene.now.ctx) (type_of n.ty)) }
    ensures unchanged { IfOk result (λ n. n.unchanged ≡ true → note_of n.note ≡ note_of note.now) }
{
    match noted(alloc, &scene.ctx, root, note, ty, at, log) {
        Ok(named) => {
            let count = log.demands().len();
            fill(known, &scene.locals, count)?;
            Ok(named)
        }
        Err(Stop::Refused(diag)) => {
            let cause = cause_of_note(alloc, scene, note, ty)?;
            let cause = Rc::new(alloc, cause)?;
            Err(Halt::Refused(cause, diag.place))
        }
        Err(Stop::NoMemory) => Err(Halt::NoMemory),
    }
}

// The type of a branch, compared with what is written for the choice.
fn compare_branch(
    alloc: Global,
    ctx: &Ctx,
    note: &Note,
    ty: &Ty,
    at: Place,
    log: &mut Log,
) -> Result<(), Stop>
    requires context { IsWellFormedContext (context_of ctx.now) }
    requires ty { IsWellFormedType (context_of ctx.now) (type_of ty.now) }
    requires note { NoteReadsWell (context_of ctx.now) (note_of note.now) }
    ensures { plain.Meets (λ u. u) result (asked_of log.new.demands) (branch_log at (context_of ctx.now) (note_of note.now) (type_of ty.now) (asked_of log.old.demands)) }
{
    branch(alloc, ctx, note, ty, at, log)
}

/// A branch of a choice, by what is written for the choice.
pub(crate) fn branch_below(
    alloc: Global,
    scene: &Scene,
    note: &Note,
    ty: &Ty,
    at: Place,
    log: &mut Log,
    known: &mut Vec<Rc<Locals>>,
) -> Result<(), Halt>
    requires context { IsWellFormedContext (context_of scene.now.ctx) }
    requires ty { IsWellFormedType (context_of scene.now.ctx) (type_of ty.now) }
    requires note { NoteReadsWell (context_of scene.now.ctx) (note_of note.now) }
    requires even { length known.old.items ≡ length log.old.demands }
    ensures is { Meets (λ u. u) result (beside (asked_of log.new.demands) (map (λ l. locals_of l.value) known.new.items))
        (after (beside (asked_of log.old.demands) (map (λ l. locals_of l.value) known.old.items))
        (logs.branch at (scene_of scene.now) (note_of note.now) (type_of ty.now))) }
    ensures even { IfOk result (λ _. length known.new.items ≡ length log.new.demands) }
{
    match compare_branch(alloc, &scene.ctx, note, ty, at, log) {
        Ok(()) => {
            let count = log.demands().len();
            fill(known, &scene.locals, count)?;
            Ok(())
        }
        Err(Stop::Refused(diag)) => {
            let cause = cause_of_note(alloc, scene, note, ty)?;
            let cause = Rc::new(alloc, cause)?;
            Err(Halt::Refused(cause, diag.place))
        }
        Err(Stop::NoMemory) => Err(Halt::NoMemory),
    }
}

/// The operand has to be a truth value.
pub(crate) fn bool_operand(
    alloc: Global,
    scene: &Scene,
    variable: Var,
    at: Place,
    log: &mut Log,
    known: &mut Vec<Rc<Locals>>,
) -> Result<(), Halt>
    requires context { IsWellFormedContext (context_of scene.now.ctx) }
    requires even { length known.old.items ≡ length log.old.demands }
    ensures is { Meets (λ u. u) result (beside (asked_of log.new.demands) (map (λ l. locals_of l.value) known.new.items))
        (after (beside (asked_of log.old.demands) (map (λ l. locals_of l.value) known.old.items))
        (explained_operand ways at (scene_of scene.now) variable (BaseShape bases.Bool))) }
    ensures even { IfOk result (λ _. length known.new.items ≡ length log.new.demands) }
{
    match base_operand(alloc, &scene.ctx, variable, Base::Bool, at, log) {
        Ok(()) => {
            let count = log.demands().len();
            fill(known, &scene.locals, count)?;
            Ok(())
        }
        Err(Stop::Refused(diag)) => {
            let found = shape_of_variable(alloc, &scene.ctx, variable)?;
            let wanted = base_shape(alloc, Base::Bool)?;
            let cause = wrong_shape(scene, found, wanted)?;
            let cause = Rc::new(alloc, cause)?;
            Err(Halt::Refused(cause, diag.place))
        }
        Err(Stop::NoMemory) => Err(Halt::NoMemory),
    }
}

/// The first steps of a choice, for which something has to be written.
pub(crate) fn test(
    alloc: Global,
    scene: &Scene,
    node: &Node,
    note: &Note,
    variable: Var,
    log: &mut Log,
    known: &mut Vec<Rc<Locals>>,
) -> Result<(), Halt>
    requires context { IsWellFormedContext (context_of scene.now.ctx) }
    requires even { length known.old.items ≡ length log.old.demands }
    ensures is { Meets (λ u. u) result (beside (asked_of log.new.demands) (map (λ l. locals_of l.value) known.new.items))
        (after (beside (asked_of log.old.demands) (map (λ l. locals_of l.value) known.old.items))
        (logs.test (spots_at node.now.at node.now.first node.now.second) (scene_of scene.now) (note_of note.now) variable)) }
    ensures even { IfOk result (λ _. length known.new.items ≡ length log.new.demands) }
{
    match note {
        Note::Absent => {
            let cause = Rc::new(alloc, Cause::NothingThere)?;
            Err(Halt::Refused(cause, node.at))
        }
        Note::Written(_) => bool_operand(alloc, scene, variable, node.first, log, known),
        Note::Own(_) => bool_operand(alloc, scene, variable, node.first, log, known),
    }
}

/// One type has to be below another.
pub fn bounded(
    alloc: Global,
    scene: &Scene,
    left: &Ty,
    right: &Ty,
    at: Place,
    log: &mut Log,
    known: &mut Vec<Rc<Locals>>,
) -> Result<(), Halt>
    requires context { IsWellFormedContext (context_of scene.now.ctx) }
    requires left { IsWellFormedType (context_of scene.now.ctx) (type_of left.now) }
    requires right { IsWellFormedType (context_of scene.now.ctx) (type_of right.now) }
    requires even { length known.old.items ≡ length log.old.demands }
    ensures is { Meets (λ u. u) result (beside (asked_of log.new.demands) (map (λ l. locals_of l.value) known.new.items))
        (after (beside (asked_of log.old.demands) (map (λ l. locals_of l.value) known.old.items))
        (explained_below ways at (scene_of scene.now) (type_of left.now) (type_of right.now))) }
    ensures even { IfOk result (λ _. length known.new.items ≡ length log.new.demands) }
{
    match below(alloc, &scene.ctx, left, right, at, log) {
        Ok(()) => {
            let count = log.demands().len();
            fill(known, &scene.locals, count)?;
            Ok(())
        }
        Err(Stop::Refused(diag)) => {
            let found = left.clone()?;
            let wanted = right.clone()?;
            let cause = wrong_type(scene, found, wanted)?;
            let cause = Rc::new(alloc, cause)?;
            Err(Halt::Refused(cause, diag.place))
        }
        Err(Stop::NoMemory) => Err(Halt::NoMemory),
    }
}
