//! Heads: the variables that a term applies, opens, operates or leaves through.

ghost use Rattle.std.specs.Prelude.{◌≡◌, IfOk};
ghost use Rattle.cc_core.specs.Captured as captured;
ghost use Rattle.cc_core.specs.Shapes.{capturing};
ghost use Rattle.cc_core.specs.TermViews.{shape_of, type_of, context_of};
ghost use Rattle.cc_core.specs.WellFormed.{IsWellFormedContext, IsWellFormedSet, IsWellFormedShape, IsWellFormedType};
ghost use Rattle.cc_checking.specs.Inference as plain;
ghost use Rattle.cc_known.specs.Logs.{Answers};
ghost use Rattle.cc_known.specs.Measures.{IsMeasuredBy, AreMeasuresOf};
ghost use Rattle.cc_type.specs.Rows.{function_at, type_function_at, box_at, exit_at, device_at};

use cc_base::literal::Base;
use cc_base::place::Place;
use cc_capture::Var;
use cc_core::{Ctx, Shape, Ty};
use cc_known::measures::{Measure, Measures, measure_of};
use cc_known::steps::{
    box_head, device_head, exit_head, function_head, in_context, type_function_head,
    variable_shape, variable_type,
};
use cc_known::stop::Stop;
use cc_subty::expose;
use std::alloc::Global;
use std::rc::Rc;

/// The type of a variable that stands in a term at a place of the context.
pub(crate) fn type_of_variable(alloc: Global, ctx: &Ctx, variable: Var) -> Result<Ty, Stop>
    requires { IsWellFormedContext (context_of ctx.now) }
    ensures is { Answers type_of result (plain.variable_type (context_of ctx.now) (plain.in_context (context_of ctx.now) variable)) }
    ensures formed { IfOk result (λ t. IsWellFormedType (context_of ctx.now) (type_of t)) }
{
    let ty = variable_type(alloc, ctx, in_context(ctx, variable))?;
    Ok(ty)
}

/// The shape of such a variable, whose type has the set of that variable.
pub(crate) fn shape_of_variable(alloc: Global, ctx: &Ctx, variable: Var) -> Result<Rc<Shape>, Stop>
    requires { IsWellFormedContext (context_of ctx.now) }
    ensures is { Answers (λ s. capturing (shape_of s.value) (captured.variable_set (plain.in_context (context_of ctx.now) variable))) result (plain.variable_type (context_of ctx.now) (plain.in_context (context_of ctx.now) variable)) }
    ensures formed { IfOk result (λ s. IsWellFormedShape (context_of ctx.now) (shape_of s.value)) }
{
    let shape = variable_shape(alloc, ctx, in_context(ctx, variable))?;
    Ok(shape)
}

/// The type of such a variable, with what is known of its shape.
pub(crate) fn measured_type(
    alloc: Global,
    ctx: &Ctx,
    measures: &Measures,
    variable: Var,
) -> Result<(Ty, Option<Measure>), Stop>
    requires context { IsWellFormedContext (context_of ctx.now) }
    requires measures { AreMeasuresOf measures.now (context_of ctx.now) }
    ensures is { Answers (λ t. type_of t.0) result (plain.variable_type (context_of ctx.now) (plain.in_context (context_of ctx.now) variable)) }
    ensures measured { IfOk result (λ t. IsMeasuredBy t.1 (shape_of t.0.shape.value)) }
{
    let named = in_context(ctx, variable);
    let ty = variable_type(alloc, ctx, named)?;
    let known = measure_of(measures, named);
    Ok((ty, known))
}

/// What the function at the head takes and gives.
pub(crate) fn function_part(
    alloc: Global,
    ctx: &Ctx,
    at: Place,
    variable: Var,
) -> Result<(Rc<Ty>, Rc<Ty>), Stop>
    requires { IsWellFormedContext (context_of ctx.now) }
    ensures is { Answers (λ f. record { takes = type_of f.0.value; gives = type_of f.1.value }) result (function_at (context_of ctx.now) at variable) }
    ensures formed { IfOk result (λ f. IsWellFormedType (context_of ctx.now) (type_of f.0.value)) }
{
    let shape = shape_of_variable(alloc, ctx, variable)?;
    let (takes, gives) = function_head(at, expose(ctx, &shape))?;
    let takes = takes.clone()?;
    let gives = gives.clone()?;
    Ok((takes, gives))
}

/// The bound that the type function at the head takes, and what it gives.
pub(crate) fn type_function_part(
    alloc: Global,
    ctx: &Ctx,
    at: Place,
    variable: Var,
) -> Result<(Rc<Shape>, Rc<Ty>), Stop>
    requires { IsWellFormedContext (context_of ctx.now) }
    ensures is { Answers (λ f. record { bound = shape_of f.0.value; gives = type_of f.1.value }) result (type_function_at (context_of ctx.now) at variable) }
    ensures formed { IfOk result (λ f. IsWellFormedShape (context_of ctx.now) (shape_of f.0.value)) }
{
    let shape = shape_of_variable(alloc, ctx, variable)?;
    let (bound, gives) = type_function_head(at, expose(ctx, &shape))?;
    let bound = bound.clone()?;
    let gives = gives.clone()?;
    Ok((bound, gives))
}

/// The type of what is in the box at the head.
pub(crate) fn box_part(alloc: Global, ctx: &Ctx, at: Place, variable: Var) -> Result<Rc<Ty>, Stop>
    requires { IsWellFormedContext (context_of ctx.now) }
    ensures is { Answers (λ t. type_of t.value) result (box_at (context_of ctx.now) at variable) }
    ensures formed { IfOk result (λ t. IsWellFormedSet (context_of ctx.now) t.value.set) }
{
    let shape = shape_of_variable(alloc, ctx, variable)?;
    let content = box_head(at, expose(ctx, &shape))?;
    let content = content.clone()?;
    Ok(content)
}

/// The shape that the exit at the head takes.
pub(crate) fn exit_part(
    alloc: Global,
    ctx: &Ctx,
    at: Place,
    variable: Var,
) -> Result<Rc<Shape>, Stop>
    requires { IsWellFormedContext (context_of ctx.now) }
    ensures is { Answers (λ s. shape_of s.value) result (exit_at (context_of ctx.now) at variable) }
    ensures formed { IfOk result (λ s. IsWellFormedShape (context_of ctx.now) (shape_of s.value)) }
{
    let shape = shape_of_variable(alloc, ctx, variable)?;
    let takes = exit_head(at, expose(ctx, &shape))?;
    let takes = takes.clone()?;
    Ok(takes)
}

/// The device at the head is of the base.
pub(crate) fn device_part(
    alloc: Global,
    ctx: &Ctx,
    at: Place,
    base: Base,
    variable: Var,
) -> Result<(), Stop>
    requires { IsWellFormedContext (context_of ctx.now) }
    ensures { Answers (λ u. u) result (device_at (context_of ctx.now) at base variable) }
{
    let shape = shape_of_variable(alloc, ctx, variable)?;
    device_head(at, base, expose(ctx, &shape))?;
    Ok(())
}
