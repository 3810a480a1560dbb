//! What stands at the variables of a form.

ghost use Rattle.std.specs.Prelude.{◌≡◌, IfOk};
ghost use Rattle.cc_core.specs.Captured.{variable_set};
ghost use Rattle.cc_core.specs.Shapes.{BaseShape, CapturingType, capturing};
ghost use Rattle.cc_core.specs.TermViews.{shape_of, type_of, context_of};
ghost use Rattle.cc_core.specs.WellFormed.{IsWellFormedContext, IsWellFormedShape};
ghost use Rattle.cc_base.specs.declared.place.Place.{Place};
ghost use Rattle.cc_checking.specs.Exposing.{exposed};
ghost use Rattle.cc_checking.specs.Inference as plain;
ghost use Rattle.cc_checking.specs.Outcomes.{finds};
ghost use Rattle.cc_type.specs.Rows.{comparing};
ghost use Rattle.cc_causes.specs.LeafReasons.{IsMatch, IsExposedAs};

use cc_base::literal::Base;
use cc_base::place::Place;
use cc_capture::Var;
use cc_core::{Ctx, Shape, Ty};
use cc_known::steps::{in_context, variable_shape, variable_type};
use cc_known::stop::Stop;
use cc_subty::exposing::expose;
use cc_type::Log;
use cc_type::operands::base_operand;
use std::alloc::{AllocError, Global};
use std::rc::Rc;

/// The shape of a variable that stands in a term at a place of the context.
pub fn shape_of_variable(alloc: Global, ctx: &Ctx, variable: Var) -> Result<Rc<Shape>, AllocError>
    requires { IsWellFormedContext (context_of ctx.now) }
    ensures is { IfOk result (λ s. plain.variable_type (context_of ctx.now) (plain.in_context (context_of ctx.now) variable) ≡ finds (capturing (shape_of s.value) (variable_set (plain.in_context (context_of ctx.now) variable)))) }
    ensures formed { IfOk result (λ s. IsWellFormedShape (context_of ctx.now) (shape_of s.value)) }
{
    match variable_shape(alloc, ctx, in_context(ctx, variable)) {
        Ok(shape) => Ok(shape),
        Err(_) => Err(AllocError),
    }
}

/// The type of such a variable.
pub fn type_of_variable(alloc: Global, ctx: &Ctx, variable: Var) -> Result<Ty, AllocError>
    ensures { IfOk result (λ t. plain.variable_type (context_of ctx.now) (plain.in_context (context_of ctx.now) variable) ≡ finds (type_of t)) }
{
    match variable_type(alloc, ctx, in_context(ctx, variable)) {
        Ok(ty) => Ok(ty),
        Err(_) => Err(AllocError),
    }
}

/// What the shape of such a variable exposes to.
pub fn exposed_shape(alloc: Global, ctx: &Ctx, variable: Var) -> Result<Rc<Shape>, AllocError>
    requires { IsWellFormedContext (context_of ctx.now) }
    ensures { IfOk result (λ e. IsExposedAs (context_of ctx.now) variable (shape_of e.value)) }
{
    let shape = shape_of_variable(alloc, ctx, variable)?;
    let reached = expose(ctx, &shape).clone()?;
    Ok(reached)
}

/// What a function takes and gives. It is none where no memory is wanting.
pub fn function_parts(shape: &Shape) -> Result<(&Rc<Ty>, &Rc<Ty>), AllocError>
    ensures { IfOk result (λ f. (at : Place) → plain.function_head at (shape_of shape.now) ≡ finds (record { takes = type_of f.0.now.value; gives = type_of f.1.now.value })) }
{
    match shape {
        Shape::Fun(takes, gives) => Ok((takes, gives)),
        _ => Err(AllocError),
    }
}

/// The same of a type function.
pub fn type_function_parts(shape: &Shape) -> Result<(&Rc<Shape>, &Rc<Ty>), AllocError>
    ensures { IfOk result (λ f. (at : Place) → plain.type_function_head at (shape_of shape.now) ≡ finds (record { bound = shape_of f.0.now.value; gives = type_of f.1.now.value })) }
{
    match shape {
        Shape::TFun(bound, gives) => Ok((bound, gives)),
        _ => Err(AllocError),
    }
}

/// The same of a box.
pub fn box_content(shape: &Shape) -> Result<&Rc<Ty>, AllocError>
    ensures { IfOk result (λ t. (at : Place) → plain.box_head at (shape_of shape.now) ≡ finds (type_of t.now.value)) }
{
    match shape {
        Shape::Boxed(content) => Ok(content),
        _ => Err(AllocError),
    }
}

/// The same of an exit.
pub fn exit_shape(shape: &Shape) -> Result<&Rc<Shape>, AllocError>
    ensures { IfOk result (λ s. (at : Place) → plain.exit_head at (shape_of shape.now) ≡ finds (shape_of s.now.value)) }
{
    match shape {
        Shape::Exit(gives) => Ok(gives),
        _ => Err(AllocError),
    }
}

/// Whether the shape of a variable matches the base shape.
pub fn matches_base(alloc: Global, ctx: &Ctx, variable: Var, base: Base) -> Result<bool, AllocError>
    requires { IsWellFormedContext (context_of ctx.now) }
    ensures { IfOk result (λ b. (s : CapturingType) → plain.variable_type (context_of ctx.now) (plain.in_context (context_of ctx.now) variable) ≡ finds s → IsMatch b (comparing (context_of ctx.now) s.shape (BaseShape base))) }
{
    let mut log = Log::new(alloc);
    let nowhere = Place { line: 0, col: 0 };
    match base_operand(alloc, ctx, variable, base, nowhere, &mut log) {
        Ok(()) => Ok(true),
        Err(Stop::Refused(_)) => Ok(false),
        Err(Stop::NoMemory) => Err(AllocError),
    }
}
