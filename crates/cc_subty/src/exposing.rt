//! Exposing a shape: type variables are followed to their bounds.

ghost use Rattle.std.specs.Prelude.{◌≡◌, option_map};
ghost use Rattle.cc_core.specs.TermViews.{shape_of, context_of};
ghost use Rattle.cc_core.specs.WellFormed.{IsWellFormedShape, IsWellFormedContext};
ghost use Rattle.cc_checking.specs.Comparison.{bound_of};
ghost use Rattle.cc_checking.specs.Exposing.{exposed};
ghost use Rattle.cc_subty.specs.Exposing.{shape_bound};

use cc_capture::Var;
use cc_core::{Bind, Ctx, Shape};
use std::rc::Rc;

/// The bound of the type variable. It takes no memory.
pub fn bound_of(ctx: &Ctx, variable: Var) -> Option<&Rc<Shape>>
    ensures { option_map (λ b. shape_of b.now.value) result ≡ bound_of (context_of ctx.now) variable }
{
    match variable {
        Var::Free(position) => match ctx.get(position) {
            Some(Bind::TVar(bound)) => Some(bound),
            _ => None,
        },
        Var::Bound(_) => None,
    }
}

// The bound of the shape, if it is a type variable.
fn bound<'a>(ctx: &'a Ctx, shape: &Shape) -> Option<&'a Rc<Shape>>
    ensures { option_map (λ b. shape_of b.now.value) result ≡ shape_bound (context_of ctx.now) (shape_of shape.now) }
{
    match shape {
        Shape::TVar(variable) => bound_of(ctx, *variable),
        _ => None,
    }
}

/// The shape, or where it is a type variable, what its bounds lead to in the end. It takes no memory.
pub fn expose<'a>(ctx: &'a Ctx, shape: &'a Rc<Shape>) -> &'a Rc<Shape>
    requires context { IsWellFormedContext (context_of ctx.now) }
    requires shape { IsWellFormedShape (context_of ctx.now) (shape_of shape.now.value) }
    ensures { shape_of result.now.value ≡ exposed (context_of ctx.now) (shape_of shape.now.value) }
{
    let mut reached = shape;
    while let Some(bound) = bound(ctx, reached) {
        reached = bound;
    }
    reached
}
