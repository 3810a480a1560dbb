//! The last steps of explained inference for the forms with parts: those of inference, with the cause where one is refused.

ghost use Rattle.std.specs.Prelude.{◌≡◌, true, length, map, IfOk};
ghost use Rattle.cc_core.specs.Captured.{without_binder};
ghost use Rattle.cc_core.specs.Places.{Around, Between, spots_at, places_of};
ghost use Rattle.cc_core.specs.Terms.{FunctionTerm, TypeFunctionTerm, Let, Conditional, Boundary};
ghost use Rattle.cc_core.specs.TermViews.{shape_of, type_of, note_of, term_of, context_of};
ghost use Rattle.cc_checking.specs.Inference as plain;
ghost use Rattle.cc_checking.specs.Inference.{result as plain_result};
ghost use Rattle.cc_known.specs.Parts.{found_of, named_of};
ghost use Rattle.cc_type.specs.Ends as ends;
ghost use Rattle.cc_core.specs.Contexts.{entry_of};
ghost use Rattle.cc_core.specs.WellFormed.{IsWellFormedContext, IsWellFormedType};
ghost use Rattle.cc_checking.specs.Avoidance.{Positive, avoided_type};
ghost use Rattle.cc_subty.specs.Demands.{asked_of};
ghost use Rattle.cc_type.specs.Standing.{NoteReadsWell};
ghost use Rattle.cc_reasons.specs.Causes.{under};
ghost use Rattle.cc_reasons.specs.ExplainedInference.{bound_at};
ghost use Rattle.cc_reasoning.specs.ExplainedLogs as logs;
ghost use Rattle.cc_reasoning.specs.ExplainedLogs.{sized};
ghost use Rattle.cc_reasoning.specs.LocatedLogs.{Answers, Meets, beside};
ghost use Rattle.cc_causes.specs.Views.{locals_of, scene_of, binder_names_of, cause_of};

use crate::located::fill;
use crate::steps::cause_of_note;
use cc_avoid::{AvoidError, avoid_type};
use cc_base::code::Code;
use cc_base::place::Place;
use cc_capture::{CapSet, Var};
use cc_captured::captured::without_binder;
use cc_causes::causes::too_large;
use cc_causes::reason::{Binders, Cause, Halt, Locals, Scene};
use cc_core::reading::{read_set, read_shape, read_type};
use cc_core::substitution::close_type;
use cc_core::{Ctx, Node, Note, Shape, Ty};
use cc_known::found::{Found, Named};
use cc_known::steps::entries;
use cc_known::stop::Stop;
use cc_type::Log;
use cc_type::ends::{boundary_end, choice_rest, function_end, let_end, type_function_end};
use std::alloc::{AllocError, Global};
use std::rc::Rc;

// The type of a function: what it takes and gives, and what its body captures.
fn function_type(
    alloc: Global,
    ctx: &Ctx,
    takes: Ty,
    gives: &Ty,
    captured: &CapSet,
) -> Result<Ty, AllocError>
    ensures { IfOk result (λ t. type_of t ≡ ends.function_type (context_of ctx.now) (type_of takes) (type_of gives.now) (without_binder captured.now)) }
{
    let outer = without_binder(alloc, captured)?;
    let gives = Rc::new(alloc, close_type(alloc, gives, entries(ctx))?)?;
    let shape = Rc::new(alloc, Shape::Fun(Rc::new(alloc, takes)?, gives))?;
    let set = read_set(alloc, &outer, entries(ctx))?;
    Ok(Ty { shape, set })
}

// The type of a type function: its bound, what it gives, and what its body captures.
fn type_function_type(
    alloc: Global,
    ctx: &Ctx,
    bound: Rc<Shape>,
    gives: &Ty,
    captured: &CapSet,
) -> Result<Ty, AllocError>
    ensures { IfOk result (λ t. type_of t ≡ ends.type_function_type (context_of ctx.now) (shape_of bound.value) (type_of gives.now) (without_binder captured.now)) }
{
    let outer = without_binder(alloc, captured)?;
    let gives = Rc::new(alloc, close_type(alloc, gives, entries(ctx))?)?;
    let shape = Rc::new(alloc, Shape::TFun(bound, gives))?;
    let set = read_set(alloc, &outer, entries(ctx))?;
    Ok(Ty { shape, set })
}

/// The function of a parameter's type, and of what was found for its body.
pub(crate) fn function_last(
    alloc: Global,
    scene: &Scene,
    node: &Rc<Node>,
    takes: &Rc<Ty>,
    read: Ty,
    part: Found,
) -> Result<Found, Halt>
    requires read { type_of read ≡ plain.type_in (context_of scene.now.ctx) (type_of takes.now.value) }
    requires term { part.unchanged ≡ true → term_of node.now.value ≡ FunctionTerm (shape_of takes.now.value.shape.value) takes.now.value.set (term_of part.node.value) }
    requires places { places_of node.now.value ≡ Around (spots_at node.now.value.at node.now.value.first node.now.value.second) (places_of part.node.value) }
    ensures exact { Answers found_of result (sized (scene_of scene.now) node.now.value.at (plain.function_found (context_of scene.now.ctx) (shape_of takes.now.value.shape.value) takes.now.value.set (found_of part))) }
    ensures places { IfOk result (λ f. places_of f.node.value ≡ places_of node.now.value) }
    ensures unchanged { IfOk result (λ f. f.unchanged ≡ true → term_of f.node.value ≡ term_of node.now.value) }
{
    let given = read.clone()?;
    let gives = part.ty.clone()?;
    let captured = part.captured.clone()?;
    match function_end(alloc, &scene.ctx, node, takes, read, part) {
        Ok(found) => Ok(found),
        Err(Stop::Refused(diag)) => {
            let ty = function_type(alloc, &scene.ctx, given, &gives, &captured)?;
            let cause = too_large(scene, ty)?;
            let cause = Rc::new(alloc, cause)?;
            Err(Halt::Refused(cause, diag.place))
        }
        Err(Stop::NoMemory) => Err(Halt::NoMemory),
    }
}

/// The type function of a bound, and of what was found for its body.
pub(crate) fn type_function_last(
    alloc: Global,
    scene: &Scene,
    node: &Rc<Node>,
    bound: &Rc<Shape>,
    read: Rc<Shape>,
    part: Found,
) -> Result<Found, Halt>
    requires read { shape_of read.value ≡ plain.shape_in (context_of scene.now.ctx) (shape_of bound.now.value) }
    requires term { part.unchanged ≡ true → term_of node.now.value ≡ TypeFunctionTerm (shape_of bound.now.value) (term_of part.node.value) }
    requires places { places_of node.now.value ≡ Around (spots_at node.now.value.at node.now.value.first node.now.value.second) (places_of part.node.value) }
    ensures exact { Answers found_of result (sized (scene_of scene.now) node.now.value.at (plain.type_function_found (context_of scene.now.ctx) (shape_of bound.now.value) (found_of part))) }
    ensures places { IfOk result (λ f. places_of f.node.value ≡ places_of node.now.value) }
    ensures unchanged { IfOk result (λ f. f.unchanged ≡ true → term_of f.node.value ≡ term_of node.now.value) }
{
    let given = read.clone()?;
    let gives = part.ty.clone()?;
    let captured = part.captured.clone()?;
    match type_function_end(alloc, &scene.ctx, node, bound, read, part) {
        Ok(found) => Ok(found),
        Err(Stop::Refused(diag)) => {
            let ty = type_function_type(alloc, &scene.ctx, given, &gives, &captured)?;
            let cause = too_large(scene, ty)?;
            let cause = Rc::new(alloc, cause)?;
            Err(Halt::Refused(cause, diag.place))
        }
        Err(Stop::NoMemory) => Err(Halt::NoMemory),
    }
}

/// What a boundary gives.
pub(crate) fn boundary_last(
    alloc: Global,
    scene: &Scene,
    node: &Rc<Node>,
    gives: &Rc<Shape>,
    ty: Ty,
    part: Found,
) -> Result<Found, Halt>
    requires term { part.unchanged ≡ true → term_of node.now.value ≡ Boundary (shape_of gives.now.value) (term_of part.node.value) }
    requires places { places_of node.now.value ≡ Around (spots_at node.now.value.at node.now.value.first node.now.value.second) (places_of part.node.value) }
    ensures exact { Answers found_of result (sized (scene_of scene.now) node.now.value.at (plain_result (type_of ty) (Boundary (shape_of gives.now.value) (term_of part.node.value)))) }
    ensures places { IfOk result (λ f. places_of f.node.value ≡ places_of node.now.value) }
    ensures unchanged { IfOk result (λ f. f.unchanged ≡ true → term_of f.node.value ≡ term_of node.now.value) }
{
    let whole = ty.clone()?;
    match boundary_end(alloc, node, gives, ty, part) {
        Ok(found) => Ok(found),
        Err(Stop::Refused(diag)) => {
            let cause = too_large(scene, whole)?;
            let cause = Rc::new(alloc, cause)?;
            Err(Halt::Refused(cause, diag.place))
        }
        Err(Stop::NoMemory) => Err(Halt::NoMemory),
    }
}

// Why the newest variable cannot go out of scope in the type, or else what is left of it.
fn let_cause(
    alloc: Global,
    scene: &Scene,
    inner: &Scene,
    declared: &CapSet,
    ty: Ty,
) -> Result<Cause, AllocError>
    ensures { IfOk result (λ c. cause_of c ≡ logs.let_cause (avoided_type Positive (length (context_of scene.now.ctx)) declared.now (type_of ty)) (scene_of scene.now) (scene_of inner.now) (type_of ty)) }
{
    let position = entries(&scene.ctx);
    match avoid_type(alloc, position, declared, &ty) {
        Ok(left) => {
            let cause = too_large(scene, left)?;
            Ok(cause)
        }
        Err(AvoidError::Unavoidable) => {
            let scene = inner.clone()?;
            Ok(Cause::Unavoidable {
                scene,
                position,
                ty,
            })
        }
        Err(AvoidError::NoMemory) => Err(AllocError),
    }
}

/// A term whose value was named in the body, which stands in the inner scene.
pub(crate) fn let_last(
    alloc: Global,
    scene: &Scene,
    inner: &Scene,
    node: &Rc<Node>,
    _binders: &Binders,
    named: Named,
    one: Found,
    two: Found,
) -> Result<Found, Halt>
    requires inner { scene_of inner.now ≡ under (bound_at (binder_names_of _binders.now) node.now.value.first) (entry_of (type_of named.ty)) (scene_of scene.now) }
    requires term { named.unchanged ≡ true → one.unchanged ≡ true → two.unchanged ≡ true → term_of node.now.value ≡ Let (note_of named.note) (term_of one.node.value) (term_of two.node.value) }
    requires places { places_of node.now.value ≡ Between (spots_at node.now.value.at node.now.value.first node.now.value.second) (places_of one.node.value) (places_of two.node.value) }
    ensures exact { Answers found_of result (logs.let_end (scene_of scene.now) node.now.value.at node.now.value.first (binder_names_of _binders.now) (named_of named) (found_of one) (found_of two)) }
    ensures places { IfOk result (λ f. places_of f.node.value ≡ places_of node.now.value) }
    ensures unchanged { IfOk result (λ f. f.unchanged ≡ true → term_of f.node.value ≡ term_of node.now.value) }
{
    let declared = named.ty.set.clone()?;
    let ty = two.ty.clone()?;
    match let_end(alloc, &scene.ctx, node, named, one, two) {
        Ok(found) => Ok(found),
        Err(Stop::Refused(diag)) => {
            let cause = let_cause(alloc, scene, inner, &declared, ty)?;
            let cause = Rc::new(alloc, cause)?;
            Err(Halt::Refused(cause, diag.place))
        }
        Err(Stop::NoMemory) => Err(Halt::NoMemory),
    }
}

// The type of a choice. It is none where nothing is written.
fn choice_type(
    alloc: Global,
    ctx: &Ctx,
    note: &Note,
    one: &CapSet,
    two: &CapSet,
) -> Result<Ty, AllocError>
    ensures { IfOk result (λ t. type_of t ≡ logs.choice_type (context_of ctx.now) (note_of note.now) one.now two.now) }
{
    match note {
        Note::Absent => Err(AllocError),
        Note::Written(written) => read_type(alloc, written, entries(ctx)),
        Note::Own(written) => {
            let shape = read_shape(alloc, written, entries(ctx))?;
            let set = one.union(alloc, two)?;
            Ok(Ty { shape, set })
        }
    }
}

// Why a choice is refused at its end: the second branch does not match, or its type is too large.
fn choice_cause(
    alloc: Global,
    scene: &Scene,
    note: &Note,
    code: Code,
    one: &CapSet,
    ty: &Ty,
) -> Result<Cause, AllocError>
    ensures { IfOk result (λ c. cause_of c ≡ logs.choice_cause code (scene_of scene.now) (note_of note.now) one.now (type_of ty.now)) }
{
    match code {
        Code::E14 => {
            let cause = cause_of_note(alloc, scene, note, ty)?;
            Ok(cause)
        }
        _ => {
            let whole = choice_type(alloc, &scene.ctx, note, one, &ty.set)?;
            let cause = too_large(scene, whole)?;
            Ok(cause)
        }
    }
}

/// A choice of two branches, the second of which is compared with what is written for the choice.
pub(crate) fn choice_last(
    alloc: Global,
    root: u32,
    scene: &Scene,
    node: &Rc<Node>,
    note: &Note,
    test: Var,
    one: Found,
    two: Found,
    at: Place,
    log: &mut Log,
    known: &mut Vec<Rc<Locals>>,
) -> Result<Found, Halt>
    requires context { IsWellFormedContext (context_of scene.now.ctx) }
    requires ty { IsWellFormedType (context_of scene.now.ctx) (type_of two.ty) }
    requires note { NoteReadsWell (context_of scene.now.ctx) (note_of note.now) }
    requires term { one.unchanged ≡ true → two.unchanged ≡ true → term_of node.now.value ≡ Conditional (note_of note.now) test (term_of one.node.value) (term_of two.node.value) }
    requires places { places_of node.now.value ≡ Between (spots_at node.now.value.at node.now.value.first node.now.value.second) (places_of one.node.value) (places_of two.node.value) }
    requires even { length known.old.items ≡ length log.old.demands }
    ensures exact { Meets found_of result (beside (asked_of log.new.demands) (map (λ l. locals_of l.value) known.new.items))
        (logs.choice_log root (scene_of scene.now) node.now.value.at (note_of note.now) test (found_of one) (found_of two) at
        (beside (asked_of log.old.demands) (map (λ l. locals_of l.value) known.old.items))) }
    ensures even { IfOk result (λ _. length known.new.items ≡ length log.new.demands) }
    ensures places { IfOk result (λ f. places_of f.node.value ≡ places_of node.now.value) }
    ensures unchanged { IfOk result (λ f. f.unchanged ≡ true → term_of f.node.value ≡ term_of node.now.value) }
{
    let first = one.ty.set.clone()?;
    let ty = two.ty.clone()?;
    match choice_rest(alloc, root, &scene.ctx, node, note, test, one, two, at, log) {
        Ok(found) => {
            let count = log.demands().len();
            fill(known, &scene.locals, count)?;
            Ok(found)
        }
        Err(Stop::Refused(diag)) => {
            let cause = choice_cause(alloc, scene, note, diag.code, &first, &ty)?;
            let cause = Rc::new(alloc, cause)?;
            Err(Halt::Refused(cause, diag.place))
        }
        Err(Stop::NoMemory) => Err(Halt::NoMemory),
    }
}
