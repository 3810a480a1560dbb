//! The last steps of inference for the forms with parts.

ghost use Rattle.std.specs.Prelude.{◌≡◌, true, false, length, nat_le, IfOk};
ghost use Rattle.cc_base.specs.declared.place.Place.{Place};
ghost use Rattle.cc_capture.specs.Sets.{union};
ghost use Rattle.cc_core.specs.Captured as captured;
ghost use Rattle.cc_core.specs.Captured.{captured_variables};
ghost use Rattle.cc_core.specs.Occurrences as occurrences;
ghost use Rattle.cc_core.specs.Places.{Around, Between, spots_at, places_around, places_of};
ghost use Rattle.cc_core.specs.Sizes.{type_size};
ghost use Rattle.cc_core.specs.Substitution.{closed_type};
ghost use Rattle.cc_core.specs.Terms.{FunctionTerm, TypeFunctionTerm, Let, Conditional, Boundary};
ghost use Rattle.cc_core.specs.TermViews.{shape_of, type_of, note_of, form_of, term_of, context_of};
ghost use Rattle.cc_core.specs.WellFormed.{IsWellFormedContext, IsWellFormedType};
ghost use Rattle.cc_checking.specs.Avoidance.{Positive, avoided_set};
ghost use Rattle.cc_checking.specs.Inference as plain;
ghost use Rattle.cc_checking.specs.Inference.{result as plain_result, tested};
ghost use Rattle.cc_checking.specs.Outcomes.{finds};
ghost use Rattle.cc_subty.specs.Demands.{asked_of};
ghost use Rattle.cc_type.specs.Ends.{function_type, type_function_type, unavoidable_at, let_captured, own_choice, named_choice};
ghost use Rattle.cc_known.specs.Logs.{Answers, Meets};
ghost use Rattle.cc_known.specs.Measures.{IsMeasuredBy};
ghost use Rattle.cc_known.specs.Parts.{found_of, named_of};
ghost use Rattle.cc_type.specs.Rows.{ways, directly, let_end, choice_end, choice_log};
ghost use Rattle.cc_type.specs.Standing.{NoteReadsWell};

use crate::log::Log;
use crate::operands::branch;
use crate::sizes::{fitting_parts, with_parts};
use cc_avoid::{AvoidError, avoid_type};
use cc_base::code::Code;
use cc_base::place::Place;
use cc_capture::{CapSet, Elem, Var};
use cc_captured::captured::{is_value, without_binder};
use cc_core::reading::{read_set, read_shape, read_type, write_set};
use cc_core::substitution::close_type;
use cc_core::{Ctx, Form, Node, Note, Shape, Ty};
use cc_known::found::{Found, Named};
use cc_known::measures::{Measure, measure_around, occurs_in_measured, occurs_in_measured_type};
use cc_known::steps::entries;
use cc_known::stop::{Stop, refused};
use std::alloc::{AllocError, Global};
use std::rc::Rc;

// The type with the newest position under its binder, and what is known of its shape. One that does not name it is
// shared: to see that takes less than to go over it and build.
fn closed(
    alloc: Global,
    ctx: &Ctx,
    ty: &Ty,
    known: Option<Measure>,
) -> Result<(Ty, Option<Measure>), AllocError>
    requires { IsMeasuredBy known (shape_of ty.now.shape.value) }
    ensures is { IfOk result (λ t. type_of t.0 ≡ closed_type (length (context_of ctx.now)) (type_of ty.now)) }
    ensures measured { IfOk result (λ t. IsMeasuredBy t.1 (shape_of t.0.shape.value)) }
{
    if occurs_in_measured_type(entries(ctx), known, ty) {
        let other = close_type(alloc, ty, entries(ctx))?;
        return Ok((other, None));
    }
    let same = ty.clone()?;
    Ok((same, known))
}

// The type of a function: what it takes and gives, and what its body captures. With it what is known of its shape.
fn function_type(
    alloc: Global,
    ctx: &Ctx,
    takes: Ty,
    gives: &Ty,
    known: Option<Measure>,
    captured: &CapSet,
) -> Result<(Ty, Option<Measure>), AllocError>
    requires { IsMeasuredBy known (shape_of gives.now.shape.value) }
    ensures is { IfOk result (λ t. type_of t.0 ≡ function_type (context_of ctx.now) (type_of takes) (type_of gives.now) captured.now) }
    ensures measured { IfOk result (λ t. IsMeasuredBy t.1 (shape_of t.0.shape.value)) }
{
    let (gives, known) = closed(alloc, ctx, gives, known)?;
    let gives = Rc::new(alloc, gives)?;
    let shape = Rc::new(alloc, Shape::Fun(Rc::new(alloc, takes)?, gives))?;
    let set = read_set(alloc, captured, entries(ctx))?;
    Ok((Ty { shape, set }, measure_around(known)))
}

/// The function of a parameter's type, and of what was found for its body.
pub fn function_end(
    alloc: Global,
    ctx: &Ctx,
    node: &Rc<Node>,
    takes: &Rc<Ty>,
    read: Ty,
    part: Found,
) -> Result<Found, Stop>
    requires read { type_of read ≡ plain.type_in (context_of ctx.now) (type_of takes.now.value) }
    requires term { part.unchanged ≡ true → term_of node.now.value ≡ FunctionTerm (shape_of takes.now.value.shape.value) takes.now.value.set (term_of part.node.value) }
    requires places { places_of node.now.value ≡ Around (spots_at node.now.value.at node.now.value.first node.now.value.second) (places_of part.node.value) }
    ensures exact { Answers found_of result (tested ways node.now.value.at (plain.function_found (context_of ctx.now) (shape_of takes.now.value.shape.value) takes.now.value.set (found_of part))) }
    ensures places { IfOk result (λ f. places_of f.node.value ≡ places_of node.now.value) }
    ensures unchanged { IfOk result (λ f. f.unchanged ≡ true → term_of f.node.value ≡ term_of node.now.value) }
{
    let Found {
        ty: gives,
        node: body,
        captured,
        known,
        unchanged,
    } = part;
    let captured = without_binder(alloc, &captured)?;
    let (ty, known) = function_type(alloc, ctx, read, &gives, known, &captured)?;
    let form = Form::Fun(takes.clone()?, body);
    let found = with_parts(alloc, node, form, unchanged, ty, known, captured)?;
    Ok(found)
}

// The type of a type function: its bound, what it gives, and what its body captures. With it what is known of its shape.
fn type_function_type(
    alloc: Global,
    ctx: &Ctx,
    bound: Rc<Shape>,
    gives: &Ty,
    known: Option<Measure>,
    captured: &CapSet,
) -> Result<(Ty, Option<Measure>), AllocError>
    requires { IsMeasuredBy known (shape_of gives.now.shape.value) }
    ensures is { IfOk result (λ t. type_of t.0 ≡ type_function_type (context_of ctx.now) (shape_of bound.value) (type_of gives.now) captured.now) }
    ensures measured { IfOk result (λ t. IsMeasuredBy t.1 (shape_of t.0.shape.value)) }
{
    let (gives, known) = closed(alloc, ctx, gives, known)?;
    let gives = Rc::new(alloc, gives)?;
    let shape = Rc::new(alloc, Shape::TFun(bound, gives))?;
    let set = read_set(alloc, captured, entries(ctx))?;
    Ok((Ty { shape, set }, measure_around(known)))
}

/// The type function of a bound, and of what was found for its body.
pub fn type_function_end(
    alloc: Global,
    ctx: &Ctx,
    node: &Rc<Node>,
    bound: &Rc<Shape>,
    read: Rc<Shape>,
    part: Found,
) -> Result<Found, Stop>
    requires read { shape_of read.value ≡ plain.shape_in (context_of ctx.now) (shape_of bound.now.value) }
    requires term { part.unchanged ≡ true → term_of node.now.value ≡ TypeFunctionTerm (shape_of bound.now.value) (term_of part.node.value) }
    requires places { places_of node.now.value ≡ Around (spots_at node.now.value.at node.now.value.first node.now.value.second) (places_of part.node.value) }
    ensures exact { Answers found_of result (tested ways node.now.value.at (plain.type_function_found (context_of ctx.now) (shape_of bound.now.value) (found_of part))) }
    ensures places { IfOk result (λ f. places_of f.node.value ≡ places_of node.now.value) }
    ensures unchanged { IfOk result (λ f. f.unchanged ≡ true → term_of f.node.value ≡ term_of node.now.value) }
{
    let Found {
        ty: gives,
        node: body,
        captured,
        known,
        unchanged,
    } = part;
    let captured = without_binder(alloc, &captured)?;
    let (ty, known) = type_function_type(alloc, ctx, read, &gives, known, &captured)?;
    let form = Form::TFun(bound.clone()?, body);
    let found = with_parts(alloc, node, form, unchanged, ty, known, captured)?;
    Ok(found)
}

/// What a boundary gives.
pub fn boundary_end(
    alloc: Global,
    node: &Rc<Node>,
    gives: &Rc<Shape>,
    ty: Ty,
    part: Found,
) -> Result<Found, Stop>
    requires term { part.unchanged ≡ true → term_of node.now.value ≡ Boundary (shape_of gives.now.value) (term_of part.node.value) }
    requires places { places_of node.now.value ≡ Around (spots_at node.now.value.at node.now.value.first node.now.value.second) (places_of part.node.value) }
    ensures exact { Answers found_of result (tested ways node.now.value.at (plain_result (type_of ty) (Boundary (shape_of gives.now.value) (term_of part.node.value)))) }
    ensures places { IfOk result (λ f. places_of f.node.value ≡ places_of node.now.value) }
    ensures unchanged { IfOk result (λ f. f.unchanged ≡ true → term_of f.node.value ≡ term_of node.now.value) }
{
    let Found {
        ty: _,
        node: body,
        captured,
        known: _,
        unchanged,
    } = part;
    let captured = without_binder(alloc, &captured)?;
    let found = with_parts(
        alloc,
        node,
        Form::Boundary(gives.clone()?, body),
        unchanged,
        ty,
        None,
        captured,
    )?;
    Ok(found)
}

// What the failure of avoidance at the place is to checking.
fn unavoidable_at(error: AvoidError, at: Place) -> Stop
    ensures { result ≡ unavoidable_at error at }
{
    match error {
        AvoidError::Unavoidable => refused(Code::E17, at),
        AvoidError::NoMemory => Stop::NoMemory,
    }
}

// The newest variable goes out of scope.
fn left_behind(alloc: Global, ctx: &Ctx, declared: &CapSet, ty: &Ty, at: Place) -> Result<Ty, Stop>
    ensures { Answers type_of result (plain.left_behind at (context_of ctx.now) declared.now (type_of ty.now)) }
{
    match avoid_type(alloc, entries(ctx), declared, ty) {
        Ok(ty) => Ok(ty),
        Err(error) => Err(unavoidable_at(error, at)),
    }
}

// The captured variables of a let.
fn let_captured(
    alloc: Global,
    right: &Rc<Node>,
    of_right: &CapSet,
    of_body: &CapSet,
) -> Result<CapSet, AllocError>
    ensures { IfOk result (λ s. s ≡ let_captured (term_of right.now.value) of_right.now of_body.now) }
{
    let outer = without_binder(alloc, of_body)?;
    if is_value(right) && !of_body.contains(Elem::Var(Var::Bound(0))) {
        return Ok(outer);
    }
    of_right.union(alloc, &outer)
}

// Whether the shape, of which this is known, names the newest variable.
fn names_newest(ctx: &Ctx, known: Option<Measure>, shape: &Shape) -> bool
    requires { IsMeasuredBy known (shape_of shape.now) }
    ensures { result ≡ false → occurrences.Meets (occurrences.without (length (context_of ctx.now))) 0 (shape_of shape.now) }
{
    occurs_in_measured(entries(ctx), known, shape)
}

// What is left of the set of a type where the newest variable goes out of scope.
fn set_left_behind(
    alloc: Global,
    ctx: &Ctx,
    declared: &CapSet,
    set: &CapSet,
) -> Result<CapSet, AllocError>
    ensures { IfOk result (λ s. s ≡ avoided_set Positive (length (context_of ctx.now)) declared.now set.now) }
{
    let newest = Elem::Var(Var::Free(entries(ctx)));
    if !set.contains(newest) {
        return Ok(set.clone()?);
    }
    let mut others = set.clone()?;
    others.remove(newest);
    Ok(others.union(alloc, declared)?)
}

// The type where the newest variable goes out of scope that the shape does not name, and whether its set has grown no
// larger. So the shape need not be gone over again.
fn shape_left_behind(
    alloc: Global,
    ctx: &Ctx,
    declared: &CapSet,
    known: Option<Measure>,
    inner: Ty,
) -> Result<(Ty, bool), AllocError>
    requires measured { IsMeasuredBy known (shape_of inner.shape.value) }
    requires shape { occurrences.Meets (occurrences.without (length (context_of ctx.now))) 0 (shape_of inner.shape.value) }
    requires fits { nat_le (type_size (type_of inner)) plain.greatest_size ≡ true }
    ensures is { IfOk result (λ t. (at : Place) → plain.left_behind at (context_of ctx.now) declared.now (type_of inner) ≡ finds (type_of t.0)) }
    ensures measured { IfOk result (λ t. IsMeasuredBy known (shape_of t.0.shape.value)) }
    ensures fits { IfOk result (λ t. t.1 ≡ true → nat_le (type_size (type_of t.0)) plain.greatest_size ≡ true) }
{
    let Ty { shape, set: before } = inner;
    let set = set_left_behind(alloc, ctx, declared, &before)?;
    let fits = set.len() <= before.len();
    Ok((Ty { shape, set }, fits))
}

// A let, whose body has a type that is not too large.
fn let_of(
    alloc: Global,
    ctx: &Ctx,
    node: &Rc<Node>,
    form: Form,
    unchanged: bool,
    declared: &CapSet,
    inner: Ty,
    known: Option<Measure>,
    captured: CapSet,
) -> Result<Found, Stop>
    requires term { unchanged ≡ true → term_of node.now.value ≡ form_of form }
    requires places { places_of node.now.value ≡ places_around (spots_at node.now.value.at node.now.value.first node.now.value.second) form }
    requires captured { captured ≡ captured_variables (form_of form) }
    requires fits { nat_le (type_size (type_of inner)) plain.greatest_size ≡ true }
    requires measured { IsMeasuredBy known (shape_of inner.shape.value) }
    ensures exact { Answers found_of result (directly (plain.left_behind node.now.value.first (context_of ctx.now) declared.now (type_of inner))
        (λ type. tested ways node.now.value.at (plain_result type (form_of form)))) }
    ensures places { IfOk result (λ f. places_of f.node.value ≡ places_of node.now.value) }
    ensures unchanged { IfOk result (λ f. f.unchanged ≡ true → term_of f.node.value ≡ term_of node.now.value) }
{
    if names_newest(ctx, known, &inner.shape) {
        let ty = left_behind(alloc, ctx, declared, &inner, node.first)?;
        let found = with_parts(alloc, node, form, unchanged, ty, None, captured)?;
        return Ok(found);
    }
    let (ty, fits) = shape_left_behind(alloc, ctx, declared, known, inner)?;
    if fits {
        let found = fitting_parts(alloc, node, form, unchanged, ty, known, captured)?;
        Ok(found)
    } else {
        let found = with_parts(alloc, node, form, unchanged, ty, known, captured)?;
        Ok(found)
    }
}

// Whether all three hold.
fn all_hold(first: bool, second: bool, third: bool) -> bool
    ensures { result ≡ true → (first ≡ true) × (second ≡ true) × (third ≡ true) }
{
    first && second && third
}

/// A term whose value was named in the body.
pub fn let_end(
    alloc: Global,
    ctx: &Ctx,
    node: &Rc<Node>,
    named: Named,
    one: Found,
    two: Found,
) -> Result<Found, Stop>
    requires term { named.unchanged ≡ true → one.unchanged ≡ true → two.unchanged ≡ true → term_of node.now.value ≡ Let (note_of named.note) (term_of one.node.value) (term_of two.node.value) }
    requires places { places_of node.now.value ≡ Between (spots_at node.now.value.at node.now.value.first node.now.value.second) (places_of one.node.value) (places_of two.node.value) }
    ensures exact { Answers found_of result (let_end (context_of ctx.now) node.now.value.at node.now.value.first (named_of named) (found_of one) (found_of two)) }
    ensures places { IfOk result (λ f. places_of f.node.value ≡ places_of node.now.value) }
    ensures unchanged { IfOk result (λ f. f.unchanged ≡ true → term_of f.node.value ≡ term_of node.now.value) }
{
    let unchanged = all_hold(named.unchanged, one.unchanged, two.unchanged);
    let Named {
        ty: declared,
        note,
        unchanged: _,
    } = named;
    let Found {
        ty: _,
        node: right,
        captured: of_right,
        known: _,
        unchanged: _,
    } = one;
    let Found {
        ty: inner,
        node: body,
        captured: of_body,
        known,
        unchanged: _,
    } = two;
    let captured = let_captured(alloc, &right, &of_right, &of_body)?;
    let form = Form::Let(note, right, body);
    let found = let_of(
        alloc,
        ctx,
        node,
        form,
        unchanged,
        &declared.set,
        inner,
        known,
        captured,
    )?;
    Ok(found)
}

// The captured variables of a choice.
fn choice_captured(
    alloc: Global,
    test: Var,
    one: &CapSet,
    two: &CapSet,
) -> Result<CapSet, AllocError>
    ensures { IfOk result (λ s. s ≡ union (captured.variable_set test) (union one.now two.now)) }
{
    let mut set = one.union(alloc, two)?;
    set.insert(Elem::Var(test))?;
    Ok(set)
}

// The type and the note of a choice whose set is omitted: it has the set of both branches.
fn own_choice(
    alloc: Global,
    root: u32,
    ctx: &Ctx,
    written: &Rc<Shape>,
    one: &CapSet,
    two: &CapSet,
) -> Result<Named, AllocError>
    ensures is { IfOk result (λ n. named_of n ≡ own_choice root (context_of ctx.now) (shape_of written.now.value) one.now two.now) }
    ensures unchanged { IfOk result (λ n. n.unchanged ≡ false) }
{
    let set = one.union(alloc, two)?;
    let shape = written.clone()?;
    let back = write_set(alloc, &set, root, entries(ctx))?;
    let note = Note::Written(Rc::new(alloc, Ty { shape, set: back })?);
    let shape = read_shape(alloc, written, entries(ctx))?;
    Ok(Named {
        ty: Ty { shape, set },
        note,
        unchanged: false,
    })
}

// The type and the note of a choice.
fn named_choice(
    alloc: Global,
    root: u32,
    ctx: &Ctx,
    note: &Note,
    one: &CapSet,
    two: &CapSet,
) -> Result<Named, Stop>
    ensures is { Answers named_of result (named_choice root (context_of ctx.now) (note_of note.now) one.now two.now) }
    ensures unchanged { IfOk result (λ n. n.unchanged ≡ true → note_of n.note ≡ note_of note.now) }
{
    match note {
        Note::Absent => Err(Stop::NoMemory),
        Note::Written(written) => {
            let ty = read_type(alloc, written, entries(ctx))?;
            Ok(Named {
                ty,
                note: Note::Written(written.clone()?),
                unchanged: true,
            })
        }
        Note::Own(written) => Ok(own_choice(alloc, root, ctx, written, one, two)?),
    }
}

// A choice of two branches.
fn choice_end(
    alloc: Global,
    root: u32,
    ctx: &Ctx,
    node: &Rc<Node>,
    note: &Note,
    test: Var,
    one: Found,
    two: Found,
) -> Result<Found, Stop>
    requires term { one.unchanged ≡ true → two.unchanged ≡ true → term_of node.now.value ≡ Conditional (note_of note.now) test (term_of one.node.value) (term_of two.node.value) }
    requires places { places_of node.now.value ≡ Between (spots_at node.now.value.at node.now.value.first node.now.value.second) (places_of one.node.value) (places_of two.node.value) }
    ensures exact { Answers found_of result (choice_end root (context_of ctx.now) node.now.value.at (note_of note.now) test (found_of one) (found_of two)) }
    ensures places { IfOk result (λ f. places_of f.node.value ≡ places_of node.now.value) }
    ensures unchanged { IfOk result (λ f. f.unchanged ≡ true → term_of f.node.value ≡ term_of node.now.value) }
{
    let named = named_choice(alloc, root, ctx, note, &one.ty.set, &two.ty.set)?;
    let unchanged = all_hold(named.unchanged, one.unchanged, two.unchanged);
    let Named {
        ty,
        note,
        unchanged: _,
    } = named;
    let captured = choice_captured(alloc, test, &one.captured, &two.captured)?;
    let Found {
        ty: _,
        node: positive,
        captured: _,
        known: _,
        unchanged: _,
    } = one;
    let Found {
        ty: _,
        node: negative,
        captured: _,
        known: _,
        unchanged: _,
    } = two;
    let found = with_parts(
        alloc,
        node,
        Form::If(note, test, positive, negative),
        unchanged,
        ty,
        None,
        captured,
    )?;
    Ok(found)
}

/// A choice of two branches, the second of which is compared with what is written for the choice.
pub fn choice_rest(
    alloc: Global,
    root: u32,
    ctx: &Ctx,
    node: &Rc<Node>,
    note: &Note,
    test: Var,
    one: Found,
    two: Found,
    at: Place,
    log: &mut Log,
) -> Result<Found, Stop>
    requires context { IsWellFormedContext (context_of ctx.now) }
    requires ty { IsWellFormedType (context_of ctx.now) (type_of two.ty) }
    requires note { NoteReadsWell (context_of ctx.now) (note_of note.now) }
    requires term { one.unchanged ≡ true → two.unchanged ≡ true → term_of node.now.value ≡ Conditional (note_of note.now) test (term_of one.node.value) (term_of two.node.value) }
    requires places { places_of node.now.value ≡ Between (spots_at node.now.value.at node.now.value.first node.now.value.second) (places_of one.node.value) (places_of two.node.value) }
    ensures exact { Meets found_of result (asked_of log.new.demands) (choice_log root (context_of ctx.now) node.now.value.at (note_of note.now) test (found_of one) (found_of two) at (asked_of log.old.demands)) }
    ensures places { IfOk result (λ f. places_of f.node.value ≡ places_of node.now.value) }
    ensures unchanged { IfOk result (λ f. f.unchanged ≡ true → term_of f.node.value ≡ term_of node.now.value) }
{
    branch(alloc, ctx, note, &two.ty, at, log)?;
    let found = choice_end(alloc, root, ctx, node, note, test, one, two)?;
    Ok(found)
}
