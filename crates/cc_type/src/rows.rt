//! The rows of inference for the forms without parts.

ghost use Rattle.std.specs.Prelude.{◌≡◌, true, IfOk};
ghost use Rattle.cc_base.specs.declared.literal.Base.TheVariants as bases;
ghost use Rattle.cc_base.specs.Literals.{literal_of};
ghost use Rattle.cc_capture.specs.Sets.{empty};
ghost use Rattle.cc_core.specs.Places.{Alone, spots_at, places_of};
ghost use Rattle.cc_core.specs.Shapes.{BaseShape, FunctionShape, BoxShape};
ghost use Rattle.cc_core.specs.Typing as typing;
ghost use Rattle.cc_core.specs.Terms.{VariableTerm, LiteralTerm, BoxTerm, Application, TypeApplication, Unboxing, Primitive, Repetition, Operation, Leave};
ghost use Rattle.cc_core.specs.TermViews.{shape_of, type_of, term_of, context_of};
ghost use Rattle.cc_core.specs.WellFormed.{IsWellFormedContext, IsWellFormedShape};
ghost use Rattle.cc_checking.specs.Inference as plain;
ghost use Rattle.cc_subty.specs.Demands.{asked_of};
ghost use Rattle.cc_known.specs.Logs.{Answers, Meets};
ghost use Rattle.cc_known.specs.Measures.{AreMeasuresOf};
ghost use Rattle.cc_known.specs.Parts.{found_of};
ghost use Rattle.cc_type.specs.Rows.{variable_row, literal_row, box_row, application_row, type_application_end, type_application_row, unboxing_end, unboxing_row, primitive_row, repeated_log, repetition_row, operation_row, leave_row};

use crate::bases::{
    base_answered, base_given, base_of, base_operated, base_taken, base_type, pure_type,
};
use crate::comparing::{against, below};
use crate::heads::{
    box_part, device_part, exit_part, function_part, measured_type, type_function_part,
    type_of_variable,
};
use crate::instances::{Instances, called, instantiated};
use crate::log::Log;
use crate::operands::{base_operand, capless, opening_set, operand, operation_argument};
use crate::sizes::{changed_leaf, fitting_leaf, leaf, measured_leaf};
use cc_base::code::Code;
use cc_base::literal::{Base, Lit, Op, Operator};
use cc_base::place::Place;
use cc_capture::{CapSet, Var};
use cc_core::reading::{read_shape, read_type, write_set};
use cc_core::{Ctx, Form, Node, Shape, Ty};
use cc_known::found::Found;
use cc_known::measures::{Measures, measure_around};
use cc_known::steps::{entries, in_context};
use cc_known::stop::{Stop, refused};
use std::alloc::{AllocError, Global};
use std::rc::Rc;

/// A variable has the shape of its entry, and captures itself.
pub fn variable(
    alloc: Global,
    ctx: &Ctx,
    measures: &Measures,
    node: &Rc<Node>,
    variable: Var,
) -> Result<Found, Stop>
    requires context { IsWellFormedContext (context_of ctx.now) }
    requires measures { AreMeasuresOf measures.now (context_of ctx.now) }
    requires term { term_of node.now.value ≡ VariableTerm variable }
    ensures exact { Answers found_of result (variable_row (context_of ctx.now) variable node.now.value.at) }
    ensures places { IfOk result (λ f. places_of f.node.value ≡ places_of node.now.value) }
    ensures unchanged { IfOk result (λ f. f.unchanged ≡ true → term_of f.node.value ≡ term_of node.now.value) }
{
    let (ty, known) = measured_type(alloc, ctx, measures, variable)?;
    let found = measured_leaf(alloc, node, ty, known)?;
    Ok(found)
}

/// A literal has its base shape.
pub fn literal(alloc: Global, node: &Rc<Node>, literal: &Lit) -> Result<Found, Stop>
    requires term { term_of node.now.value ≡ LiteralTerm (literal_of literal.now) }
    ensures exact { Answers found_of result (literal_row (literal_of literal.now) node.now.value.at) }
    ensures places { IfOk result (λ f. places_of f.node.value ≡ places_of node.now.value) }
    ensures unchanged { IfOk result (λ f. f.unchanged ≡ true → term_of f.node.value ≡ term_of node.now.value) }
{
    let ty = base_type(alloc, base_of(literal))?;
    let found = leaf(alloc, node, ty)?;
    Ok(found)
}

// The type of a box, with the empty set.
fn box_type(alloc: Global, inside: Ty) -> Result<Ty, AllocError>
    ensures { IfOk result (λ t. type_of t ≡ record { shape = BoxShape (type_of inside).shape (type_of inside).set; set = empty }) }
{
    let shape = Rc::new(alloc, Shape::Boxed(Rc::new(alloc, inside)?))?;
    Ok(pure_type(alloc, shape))
}

/// A box has the type of its content in its shape, and captures nothing.
pub fn boxed(
    alloc: Global,
    ctx: &Ctx,
    measures: &Measures,
    node: &Rc<Node>,
    content: Var,
) -> Result<Found, Stop>
    requires context { IsWellFormedContext (context_of ctx.now) }
    requires measures { AreMeasuresOf measures.now (context_of ctx.now) }
    requires term { term_of node.now.value ≡ BoxTerm content }
    ensures exact { Answers found_of result (box_row (context_of ctx.now) content node.now.value.at) }
    ensures places { IfOk result (λ f. places_of f.node.value ≡ places_of node.now.value) }
    ensures unchanged { IfOk result (λ f. f.unchanged ≡ true → term_of f.node.value ≡ term_of node.now.value) }
{
    let (inside, known) = measured_type(alloc, ctx, measures, content)?;
    let ty = box_type(alloc, inside)?;
    let found = measured_leaf(alloc, node, ty, measure_around(known))?;
    Ok(found)
}

/// A function applied to a variable.
pub fn application(
    alloc: Global,
    ctx: &Ctx,
    node: &Rc<Node>,
    function: Var,
    argument: Var,
    log: &mut Log,
) -> Result<Found, Stop>
    requires context { IsWellFormedContext (context_of ctx.now) }
    requires term { term_of node.now.value ≡ Application function argument }
    ensures exact { Meets found_of result (asked_of log.new.demands) (application_row (context_of ctx.now) function argument (spots_at node.now.value.at node.now.value.first node.now.value.second) (asked_of log.old.demands)) }
    ensures places { IfOk result (λ f. places_of f.node.value ≡ places_of node.now.value) }
    ensures unchanged { IfOk result (λ f. f.unchanged ≡ true → term_of f.node.value ≡ term_of node.now.value) }
{
    let (takes, gives) = function_part(alloc, ctx, node.first, function)?;
    let given = type_of_variable(alloc, ctx, argument)?;
    below(alloc, ctx, &given, &takes, node.second, log)?;
    let ty = called(alloc, &gives, in_context(ctx, argument), &mut log.instances)?;
    let found = leaf(alloc, node, ty)?;
    Ok(found)
}

// What a type function gives for the shape. A type that is too large is refused before it is made.
fn type_application_end(
    alloc: Global,
    node: &Rc<Node>,
    read: &Rc<Shape>,
    gives: &Rc<Ty>,
    instances: &mut Instances,
) -> Result<Found, Stop>
    ensures exact { Answers found_of result (type_application_end node.now.value.at (term_of node.now.value) (shape_of read.now.value) (type_of gives.now.value)) }
    ensures places { IfOk result (λ f. places_of f.node.value ≡ places_of node.now.value) }
    ensures unchanged { IfOk result (λ f. f.unchanged ≡ true → term_of f.node.value ≡ term_of node.now.value) }
{
    match instantiated(alloc, gives, read, instances)? {
        Some(ty) => {
            let found = fitting_leaf(alloc, node, ty, None)?;
            Ok(found)
        }
        None => Err(refused(Code::E18, node.at)),
    }
}

/// A type function applied to a shape.
pub fn type_application(
    alloc: Global,
    ctx: &Ctx,
    node: &Rc<Node>,
    function: Var,
    argument: &Rc<Shape>,
    log: &mut Log,
) -> Result<Found, Stop>
    requires context { IsWellFormedContext (context_of ctx.now) }
    requires argument { IsWellFormedShape (context_of ctx.now) (plain.shape_in (context_of ctx.now) (shape_of argument.now.value)) }
    requires term { term_of node.now.value ≡ TypeApplication function (shape_of argument.now.value) }
    ensures exact { Meets found_of result (asked_of log.new.demands) (type_application_row (context_of ctx.now) function (shape_of argument.now.value) (spots_at node.now.value.at node.now.value.first node.now.value.second) (asked_of log.old.demands)) }
    ensures places { IfOk result (λ f. places_of f.node.value ≡ places_of node.now.value) }
    ensures unchanged { IfOk result (λ f. f.unchanged ≡ true → term_of f.node.value ≡ term_of node.now.value) }
{
    let (bound, gives) = type_function_part(alloc, ctx, node.first, function)?;
    let read = read_shape(alloc, argument, entries(ctx))?;
    against(alloc, ctx, &read, &bound, node.second, log)?;
    let found = type_application_end(alloc, node, &read, &gives, &mut log.instances)?;
    Ok(found)
}

// The content of a box that is opened under the set.
fn unboxing_end(
    alloc: Global,
    root: u32,
    ctx: &Ctx,
    node: &Rc<Node>,
    set: &Option<CapSet>,
    content: Var,
    inside: &Ty,
    under: CapSet,
) -> Result<Found, Stop>
    requires term { term_of node.now.value ≡ Unboxing set.now content }
    requires places { places_of node.now.value ≡ Alone (spots_at node.now.value.at node.now.value.first node.now.value.second) }
    ensures exact { Answers found_of result (unboxing_end root (context_of ctx.now) node.now.value.at set.now content (type_of inside.now) under) }
    ensures places { IfOk result (λ f. places_of f.node.value ≡ places_of node.now.value) }
    ensures unchanged { IfOk result (λ f. f.unchanged ≡ true → term_of f.node.value ≡ term_of node.now.value) }
{
    let shape = inside.shape.clone()?;
    match set {
        Some(_) => {
            let found = leaf(alloc, node, Ty { shape, set: under })?;
            Ok(found)
        }
        None => {
            let set = Some(write_set(alloc, &under, root, entries(ctx))?);
            let form = Form::Unbox(set, content);
            let found = changed_leaf(alloc, node, form, Ty { shape, set: under })?;
            Ok(found)
        }
    }
}

/// The content of a box.
pub fn unboxing(
    alloc: Global,
    root: u32,
    ctx: &Ctx,
    node: &Rc<Node>,
    set: &Option<CapSet>,
    content: Var,
    log: &mut Log,
) -> Result<Found, Stop>
    requires context { IsWellFormedContext (context_of ctx.now) }
    requires term { term_of node.now.value ≡ Unboxing set.now content }
    requires places { places_of node.now.value ≡ Alone (spots_at node.now.value.at node.now.value.first node.now.value.second) }
    ensures exact { Meets found_of result (asked_of log.new.demands) (unboxing_row root (context_of ctx.now) set.now content (spots_at node.now.value.at node.now.value.first node.now.value.second) (asked_of log.old.demands)) }
    ensures places { IfOk result (λ f. places_of f.node.value ≡ places_of node.now.value) }
    ensures unchanged { IfOk result (λ f. f.unchanged ≡ true → term_of f.node.value ≡ term_of node.now.value) }
{
    let inside = box_part(alloc, ctx, node.first, content)?;
    let under = opening_set(alloc, ctx, &inside.set, set, node.first, log)?;
    capless(alloc, &under, node.second, log)?;
    let found = unboxing_end(alloc, root, ctx, node, set, content, &inside, under)?;
    Ok(found)
}

/// An operator on two numbers.
pub fn primitive(
    alloc: Global,
    ctx: &Ctx,
    node: &Rc<Node>,
    operator: Operator,
    left: Var,
    right: Var,
    log: &mut Log,
) -> Result<Found, Stop>
    requires context { IsWellFormedContext (context_of ctx.now) }
    requires term { term_of node.now.value ≡ Primitive operator left right }
    ensures exact { Meets found_of result (asked_of log.new.demands) (primitive_row (context_of ctx.now) operator left right (spots_at node.now.value.at node.now.value.first node.now.value.second) (asked_of log.old.demands)) }
    ensures places { IfOk result (λ f. places_of f.node.value ≡ places_of node.now.value) }
    ensures unchanged { IfOk result (λ f. f.unchanged ≡ true → term_of f.node.value ≡ term_of node.now.value) }
{
    base_operand(alloc, ctx, left, Base::Int, node.first, log)?;
    base_operand(alloc, ctx, right, Base::Int, node.second, log)?;
    let ty = base_type(alloc, base_given(operator))?;
    let found = leaf(alloc, node, ty)?;
    Ok(found)
}

// Functions on numbers that capture nothing.
fn function_on_numbers(alloc: Global) -> Result<Shape, AllocError>
    ensures { IfOk result (λ s. shape_of s ≡ FunctionShape (BaseShape bases.Int) empty (BaseShape bases.Unit) empty) }
{
    let takes = Rc::new(alloc, base_type(alloc, Base::Int)?)?;
    let gives = Rc::new(alloc, base_type(alloc, Base::Unit)?)?;
    Ok(Shape::Fun(takes, gives))
}

// The function of a repetition.
fn repeated(alloc: Global, ctx: &Ctx, function: Var, at: Place, log: &mut Log) -> Result<(), Stop>
    requires { IsWellFormedContext (context_of ctx.now) }
    ensures { Meets (λ u. u) result (asked_of log.new.demands) (repeated_log at (context_of ctx.now) function (asked_of log.old.demands)) }
{
    let shape = function_on_numbers(alloc)?;
    operand(alloc, ctx, function, &shape, at, log)?;
    Ok(())
}

/// So many calls of a function on the numbers from 0.
pub fn repetition(
    alloc: Global,
    ctx: &Ctx,
    node: &Rc<Node>,
    count: Var,
    function: Var,
    log: &mut Log,
) -> Result<Found, Stop>
    requires context { IsWellFormedContext (context_of ctx.now) }
    requires term { term_of node.now.value ≡ Repetition count function }
    ensures exact { Meets found_of result (asked_of log.new.demands) (repetition_row (context_of ctx.now) count function (spots_at node.now.value.at node.now.value.first node.now.value.second) (asked_of log.old.demands)) }
    ensures places { IfOk result (λ f. places_of f.node.value ≡ places_of node.now.value) }
    ensures unchanged { IfOk result (λ f. f.unchanged ≡ true → term_of f.node.value ≡ term_of node.now.value) }
{
    base_operand(alloc, ctx, count, Base::Int, node.first, log)?;
    repeated(alloc, ctx, function, node.second, log)?;
    let ty = base_type(alloc, Base::Unit)?;
    let found = leaf(alloc, node, ty)?;
    Ok(found)
}

/// An operation of a device.
pub fn operation(
    alloc: Global,
    ctx: &Ctx,
    node: &Rc<Node>,
    operation: Op,
    receiver: Var,
    argument: Option<Var>,
    log: &mut Log,
) -> Result<Found, Stop>
    requires context { IsWellFormedContext (context_of ctx.now) }
    requires term { term_of node.now.value ≡ Operation operation receiver argument }
    ensures exact { Meets found_of result (asked_of log.new.demands) (operation_row (context_of ctx.now) operation receiver argument (spots_at node.now.value.at node.now.value.first node.now.value.second) (asked_of log.old.demands)) }
    ensures places { IfOk result (λ f. places_of f.node.value ≡ places_of node.now.value) }
    ensures unchanged { IfOk result (λ f. f.unchanged ≡ true → term_of f.node.value ≡ term_of node.now.value) }
{
    device_part(alloc, ctx, node.first, base_operated(operation), receiver)?;
    operation_argument(
        alloc,
        ctx,
        base_taken(operation),
        argument,
        node.second,
        log,
    )?;
    let ty = base_type(alloc, base_answered(operation))?;
    let found = leaf(alloc, node, ty)?;
    Ok(found)
}

/// Leaving the boundary of an exit with a value.
pub fn leave(
    alloc: Global,
    ctx: &Ctx,
    node: &Rc<Node>,
    gives: &Rc<Ty>,
    exit: Var,
    value: Var,
    log: &mut Log,
) -> Result<Found, Stop>
    requires context { IsWellFormedContext (context_of ctx.now) }
    requires term { term_of node.now.value ≡ Leave (shape_of gives.now.value.shape.value) gives.now.value.set exit value }
    ensures exact { Meets found_of result (asked_of log.new.demands) (leave_row (context_of ctx.now) (shape_of gives.now.value.shape.value) gives.now.value.set exit value (spots_at node.now.value.at node.now.value.first node.now.value.second) (asked_of log.old.demands)) }
    ensures places { IfOk result (λ f. places_of f.node.value ≡ places_of node.now.value) }
    ensures unchanged { IfOk result (λ f. f.unchanged ≡ true → term_of f.node.value ≡ term_of node.now.value) }
{
    let takes = exit_part(alloc, ctx, node.first, exit)?;
    let given = type_of_variable(alloc, ctx, value)?;
    below(
        alloc,
        ctx,
        &given,
        &pure_type(alloc, takes),
        node.second,
        log,
    )?;
    let ty = read_type(alloc, gives, entries(ctx))?;
    let found = leaf(alloc, node, ty)?;
    Ok(found)
}
