//! Inference: the type of a term, what its sets have to satisfy, and the term with its omitted sets put in.

ghost use Rattle.std.specs.Prelude.{◌≡◌, ◌∷◌, true, IfOk};
ghost use Rattle.cc_core.specs.Contexts.{TypeEntry, entry_of};
ghost use Rattle.cc_core.specs.Places.{spots, places_of, spots_at};
ghost use Rattle.cc_core.specs.Shapes.{CapturingType};
ghost use Rattle.cc_core.specs.TermViews.{shape_of, type_of, note_of, term_of, context_of};
ghost use Rattle.cc_core.specs.WellFormed.{IsWellFormedContext, IsWellFormedShape, IsWellFormedType};
ghost use Rattle.cc_checking.specs.Inference.{exit_entry, inferred};
ghost use Rattle.cc_subty.specs.Demands.{asked_of};
ghost use Rattle.cc_known.specs.Logs.{Meets, after};
ghost use Rattle.cc_known.specs.Measures.{AreMeasuresOf};
ghost use Rattle.cc_known.specs.Parts.{found_of, named_of};
ghost use Rattle.cc_type.specs.Rows.{ways, noted_log, test_log, boundary_log, inferred_log};
ghost use Rattle.cc_type.specs.Standing.{NoteReadsWell, StandsIn, StandsWell};

use cc_base::literal::Base;
use cc_base::place::Place;
use cc_capture::{CapSet, Var};
use cc_core::reading::{read_shape, read_type};
use cc_core::{Ctx, Form, Node, Note, Shape, Ty};
use cc_known::found::{Found, Named};
use cc_known::measures::Measures;
use cc_known::steps::entries;
use cc_known::stop::Stop;
use cc_type::comparing::below;
use cc_type::contexts::{with_exit, with_type_variable, with_variable};
use cc_type::ends::{boundary_end, choice_rest, function_end, let_end, type_function_end};
use cc_type::log::Log;
use cc_type::operands::{base_operand, branch, needs_note, noted};
use cc_type::rows;
use std::alloc::{AllocError, Global};
use std::rc::Rc;

/// Infers the type of a term at a place of the context, whose entries from the root on are those of the binders passed.
/// What it asks stands in the log behind what was there, but for what is settled as it stands.
///
/// It is refused, as `Stop::Refused`, with the code and the place of the first refusal: where a head has the wrong form
/// (`E13`), shapes do not match or what has to be there is not (`E14`), a variable that goes out of scope cannot be
/// avoided (`E17`), or a type is too large (`E18`).
pub fn infer_term(
    alloc: Global,
    ctx: &Ctx,
    root: u32,
    node: &Rc<Node>,
    log: &mut Log,
) -> Result<Found, Stop>
    requires context { IsWellFormedContext (context_of ctx.now) }
    requires term { StandsIn root (context_of ctx.now) (term_of node.now.value) }
    ensures exact { Meets found_of result (asked_of log.new.demands) (after (asked_of log.old.demands) (inferred ways root (context_of ctx.now) (term_of node.now.value) (places_of node.now.value))) }
    ensures formed { IfOk result (λ f. IsWellFormedType (context_of ctx.now) (type_of f.ty)) }
    ensures places { IfOk result (λ f. places_of f.node.value ≡ places_of node.now.value) }
    ensures unchanged { IfOk result (λ f. f.unchanged ≡ true → term_of f.node.value ≡ term_of node.now.value) }
{
    let measures = Measures::new(alloc, 0, 0);
    infer_known(alloc, ctx, root, &measures, node, log)
}

/// The same where this is known of entries of the context.
pub fn infer_known(
    alloc: Global,
    ctx: &Ctx,
    root: u32,
    measures: &Measures,
    node: &Rc<Node>,
    log: &mut Log,
) -> Result<Found, Stop>
    requires context { IsWellFormedContext (context_of ctx.now) }
    requires measures { AreMeasuresOf measures.now (context_of ctx.now) }
    requires term { StandsIn root (context_of ctx.now) (term_of node.now.value) }
    ensures exact { Meets found_of result (asked_of log.new.demands) (after (asked_of log.old.demands) (inferred ways root (context_of ctx.now) (term_of node.now.value) (places_of node.now.value))) }
    ensures formed { IfOk result (λ f. IsWellFormedType (context_of ctx.now) (type_of f.ty)) }
    ensures places { IfOk result (λ f. places_of f.node.value ≡ places_of node.now.value) }
    ensures unchanged { IfOk result (λ f. f.unchanged ≡ true → term_of f.node.value ≡ term_of node.now.value) }
{
    infer(alloc, ctx, root, measures, node, log)
}

// The same, where the term is known to stand well.
#[cycle(infer)]
fn infer(
    alloc: Global,
    ctx: &Ctx,
    root: u32,
    measures: &Measures,
    node: &Rc<Node>,
    log: &mut Log,
) -> Result<Found, Stop>
    requires context { IsWellFormedContext (context_of ctx.now) }
    requires measures { AreMeasuresOf measures.now (context_of ctx.now) }
    requires term { StandsWell root (context_of ctx.now) (term_of node.now.value) }
    ensures exact { Meets found_of result (asked_of log.new.demands) (inferred_log root (context_of ctx.now) (term_of node.now.value) (places_of node.now.value) (asked_of log.old.demands)) }
    ensures formed { IfOk result (λ f. IsWellFormedType (context_of ctx.now) (type_of f.ty)) }
    ensures places { IfOk result (λ f. places_of f.node.value ≡ places_of node.now.value) }
    ensures unchanged { IfOk result (λ f. f.unchanged ≡ true → term_of f.node.value ≡ term_of node.now.value) }
{
    let found = infer_form(alloc, ctx, root, measures, node, log)?;
    Ok(found)
}

// The place where the term starts.
fn place_of(node: &Rc<Node>) -> Place
    ensures { result ≡ (spots (places_of node.now.value)).at }
{
    node.at
}

// What is written for a type that was found, and what is then named.
fn name(
    alloc: Global,
    ctx: &Ctx,
    root: u32,
    note: &Note,
    ty: &Ty,
    at: Place,
    log: &mut Log,
) -> Result<Named, Stop>
    requires context { IsWellFormedContext (context_of ctx.now) }
    requires ty { IsWellFormedType (context_of ctx.now) (type_of ty.now) }
    requires note { NoteReadsWell (context_of ctx.now) (note_of note.now) }
    ensures is { Meets named_of result (asked_of log.new.demands) (noted_log root at (context_of ctx.now) (note_of note.now) (type_of ty.now) (asked_of log.old.demands)) }
    ensures formed { IfOk result (λ n. IsWellFormedType (context_of ctx.now) (type_of n.ty)) }
    ensures unchanged { IfOk result (λ n. n.unchanged ≡ true → note_of n.note ≡ note_of note.now) }
{
    let named = noted(alloc, ctx, root, note, ty, at, log)?;
    Ok(named)
}

// The context of the body of a function, with a variable of the type. What is known of entries stays known.
fn function_context(
    alloc: Global,
    ctx: &Ctx,
    measures: &Measures,
    takes: &Ty,
) -> Result<Ctx, AllocError>
    requires context { IsWellFormedContext (context_of ctx.now) }
    requires measures { AreMeasuresOf measures.now (context_of ctx.now) }
    requires takes { IsWellFormedType (context_of ctx.now) (type_of takes.now) }
    ensures is { IfOk result (λ c. context_of c ≡ entry_of (type_of takes.now) ∷ context_of ctx.now) }
    ensures formed { IfOk result (λ c. IsWellFormedContext (context_of c)) }
    ensures measures { IfOk result (λ c. AreMeasuresOf measures.now (context_of c)) }
{
    let inner = with_variable(alloc, ctx, takes)?;
    Ok(inner)
}

// The same of a type function, with a type variable of the bound.
fn type_function_context(
    alloc: Global,
    ctx: &Ctx,
    measures: &Measures,
    bound: &Rc<Shape>,
) -> Result<Ctx, AllocError>
    requires context { IsWellFormedContext (context_of ctx.now) }
    requires measures { AreMeasuresOf measures.now (context_of ctx.now) }
    requires bound { IsWellFormedShape (context_of ctx.now) (shape_of bound.now.value) }
    ensures is { IfOk result (λ c. context_of c ≡ TypeEntry (shape_of bound.now.value) ∷ context_of ctx.now) }
    ensures formed { IfOk result (λ c. IsWellFormedContext (context_of c)) }
    ensures measures { IfOk result (λ c. AreMeasuresOf measures.now (context_of c)) }
{
    let inner = with_type_variable(alloc, ctx, bound)?;
    Ok(inner)
}

// The same of a boundary, with its exit.
fn boundary_context(
    alloc: Global,
    ctx: &Ctx,
    measures: &Measures,
    gives: &Rc<Shape>,
) -> Result<Ctx, AllocError>
    requires context { IsWellFormedContext (context_of ctx.now) }
    requires measures { AreMeasuresOf measures.now (context_of ctx.now) }
    requires gives { IsWellFormedShape (context_of ctx.now) (shape_of gives.now.value) }
    ensures is { IfOk result (λ c. context_of c ≡ exit_entry (shape_of gives.now.value) ∷ context_of ctx.now) }
    ensures formed { IfOk result (λ c. IsWellFormedContext (context_of c)) }
    ensures measures { IfOk result (λ c. AreMeasuresOf measures.now (context_of c)) }
{
    let inner = with_exit(alloc, ctx, gives)?;
    Ok(inner)
}

// The context of the body of a let, with a variable of the type. That the body stands well there is known of it.
fn body_context(
    alloc: Global,
    ctx: &Ctx,
    root: u32,
    measures: &Measures,
    ty: &Ty,
    body: &Rc<Node>,
) -> Result<Ctx, AllocError>
    requires context { IsWellFormedContext (context_of ctx.now) }
    requires measures { AreMeasuresOf measures.now (context_of ctx.now) }
    requires ty { IsWellFormedType (context_of ctx.now) (type_of ty.now) }
    requires body { (named : CapturingType) → IsWellFormedType (context_of ctx.now) named → StandsWell root (entry_of named ∷ context_of ctx.now) (term_of body.now.value) }
    ensures is { IfOk result (λ c. context_of c ≡ entry_of (type_of ty.now) ∷ context_of ctx.now) }
    ensures formed { IfOk result (λ c. IsWellFormedContext (context_of c)) }
    ensures measures { IfOk result (λ c. AreMeasuresOf measures.now (context_of c)) }
    ensures stands { IfOk result (λ c. StandsWell root (context_of c) (term_of body.now.value)) }
{
    let inner = with_variable(alloc, ctx, ty)?;
    Ok(inner)
}

// The first steps of a choice.
fn test(
    alloc: Global,
    ctx: &Ctx,
    node: &Node,
    note: &Note,
    test: Var,
    log: &mut Log,
) -> Result<(), Stop>
    requires { IsWellFormedContext (context_of ctx.now) }
    ensures { Meets (λ u. u) result (asked_of log.new.demands) (test_log (spots_at node.now.at node.now.first node.now.second) (context_of ctx.now) (note_of note.now) test (asked_of log.old.demands)) }
{
    needs_note(node.at, note)?;
    base_operand(alloc, ctx, test, Base::Bool, node.first, log)?;
    Ok(())
}

// The body of a boundary has to be below the shape that the boundary gives, with the empty set.
fn bounded(
    alloc: Global,
    inner: &Ctx,
    ty: &Ty,
    gives: Rc<Shape>,
    at: Place,
    log: &mut Log,
) -> Result<Ty, Stop>
    requires context { IsWellFormedContext (context_of inner.now) }
    requires ty { IsWellFormedType (context_of inner.now) (type_of ty.now) }
    requires gives { IsWellFormedShape (context_of inner.now) (shape_of gives.value) }
    ensures { Meets type_of result (asked_of log.new.demands) (boundary_log at (context_of inner.now) (type_of ty.now) (shape_of gives.value) (asked_of log.old.demands)) }
{
    let set = CapSet::new(alloc);
    let whole = Ty { shape: gives, set };
    below(alloc, inner, ty, &whole, at, log)?;
    Ok(whole)
}

#[cycle(infer)]
fn infer_form(
    alloc: Global,
    ctx: &Ctx,
    root: u32,
    measures: &Measures,
    node: &Rc<Node>,
    log: &mut Log,
) -> Result<Found, Stop>
    requires context { IsWellFormedContext (context_of ctx.now) }
    requires measures { AreMeasuresOf measures.now (context_of ctx.now) }
    requires term { StandsWell root (context_of ctx.now) (term_of node.now.value) }
    ensures exact { Meets found_of result (asked_of log.new.demands) (inferred_log root (context_of ctx.now) (term_of node.now.value) (places_of node.now.value) (asked_of log.old.demands)) }
    ensures places { IfOk result (λ f. places_of f.node.value ≡ places_of node.now.value) }
    ensures unchanged { IfOk result (λ f. f.unchanged ≡ true → term_of f.node.value ≡ term_of node.now.value) }
{
    match &node.form {
        Form::Var(variable) => {
            let found = rows::variable(alloc, ctx, measures, node, *variable)?;
            Ok(found)
        }
        Form::Lit(literal) => {
            let found = rows::literal(alloc, node, literal)?;
            Ok(found)
        }
        Form::Fun(takes, body) => {
            let read = read_type(alloc, takes, entries(ctx))?;
            let inner = function_context(alloc, ctx, measures, &read)?;
            let part = infer(alloc, &inner, root, measures, body, log)?;
            let found = function_end(alloc, ctx, node, takes, read, part)?;
            Ok(found)
        }
        Form::TFun(bound, body) => {
            let read = read_shape(alloc, bound, entries(ctx))?;
            let inner = type_function_context(alloc, ctx, measures, &read)?;
            let part = infer(alloc, &inner, root, measures, body, log)?;
            let found = type_function_end(alloc, ctx, node, bound, read, part)?;
            Ok(found)
        }
        Form::Boxed(content) => {
            let found = rows::boxed(alloc, ctx, measures, node, *content)?;
            Ok(found)
        }
        Form::App(function, argument) => {
            rows::application(alloc, ctx, node, *function, *argument, log)
        }
        Form::TApp(function, argument) => {
            rows::type_application(alloc, ctx, node, *function, argument, log)
        }
        Form::Unbox(set, content) => rows::unboxing(alloc, root, ctx, node, set, *content, log),
        Form::Let(note, right, body) => {
            let one = infer(alloc, ctx, root, measures, right, log)?;
            let at = place_of(right);
            let named = name(alloc, ctx, root, note, &one.ty, at, log)?;
            let inner = body_context(alloc, ctx, root, measures, &named.ty, body)?;
            let two = infer(alloc, &inner, root, measures, body, log)?;
            let_end(alloc, ctx, node, named, one, two)
        }
        Form::Prim(operator, left, right) => {
            rows::primitive(alloc, ctx, node, *operator, *left, *right, log)
        }
        Form::If(note, variable, positive, negative) => {
            test(alloc, ctx, node, note, *variable, log)?;
            let one = infer(alloc, ctx, root, measures, positive, log)?;
            branch(alloc, ctx, note, &one.ty, place_of(positive), log)?;
            let two = infer(alloc, ctx, root, measures, negative, log)?;
            choice_rest(
                alloc,
                root,
                ctx,
                node,
                note,
                *variable,
                one,
                two,
                place_of(negative),
                log,
            )
        }
        Form::Repeat(count, function) => {
            rows::repetition(alloc, ctx, node, *count, *function, log)
        }
        Form::Operate(operation, receiver, argument) => {
            rows::operation(alloc, ctx, node, *operation, *receiver, *argument, log)
        }
        Form::Boundary(gives, body) => {
            let read = read_shape(alloc, gives, entries(ctx))?;
            let inner = boundary_context(alloc, ctx, measures, &read)?;
            let part = infer(alloc, &inner, root, measures, body, log)?;
            let ty = bounded(alloc, &inner, &part.ty, read, place_of(body), log)?;
            let found = boundary_end(alloc, node, gives, ty, part)?;
            Ok(found)
        }
        Form::Leave(gives, exit, value) => {
            rows::leave(alloc, ctx, node, gives, *exit, *value, log)
        }
    }
}
