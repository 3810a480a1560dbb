//! Exposing in any context: type variables are followed to their bounds, each among the entries before it.

ghost use Rattle.std.specs.Prelude.{◌≡◌, Some, IfOk};
ghost use Rattle.cc_core.specs.Contexts.{lookup};
ghost use Rattle.cc_core.specs.TermViews.{shape_of, bind_of, context_of};
ghost use Rattle.cc_checking.specs.CanonicalDerivations.{shape_of_entry, shape_at};
ghost use Rattle.cc_checking.specs.Exposing.{exposed};
ghost use Rattle.cc_derive.specs.Older as plain;
ghost use Rattle.cc_derive.specs.Older.{position_before};

use crate::bases::entries;
use cc_capture::Var;
use cc_core::reading::read_shape;
use cc_core::{Bind, Ctx, Shape};
use cc_subty::exposing::bound_of;
use std::alloc::{AllocError, Global};
use std::rc::Rc;

// The position of the shape, if it is a type variable before the limit.
fn position_before(shape: &Shape, limit: u32) -> Option<u32>
    ensures { result ≡ position_before (shape_of shape.now) limit }
{
    match shape {
        Shape::TVar(variable) => position_of(*variable, limit),
        _ => None,
    }
}

// The position of the variable, if it is before the limit.
fn position_of(variable: Var, limit: u32) -> Option<u32>
    ensures { result ≡ plain.older_position variable limit }
{
    match variable {
        Var::Free(position) => {
            if position < limit {
                Some(position)
            } else {
                None
            }
        }
        Var::Bound(_) => None,
    }
}

/// The shape, or where it is a type variable, what its bounds lead to in the end. It takes no memory.
pub(crate) fn expose<'a>(ctx: &'a Ctx, shape: &'a Rc<Shape>) -> &'a Rc<Shape>
    ensures { shape_of result.now.value ≡ exposed (context_of ctx.now) (shape_of shape.now.value) }
{
    let mut limit = entries(ctx);
    let mut reached = shape;
    while let Some(position) = position_before(reached, limit) {
        match bound_of(ctx, Var::Free(position)) {
            Some(bound) => {
                reached = bound;
                limit = position;
            }
            None => return reached,
        }
    }
    reached
}

// The shape of an entry. That of a type variable is the greatest one.
fn entry_shape(alloc: Global, bind: &Bind) -> Result<Rc<Shape>, AllocError>
    ensures { IfOk result (λ s. shape_of s.value ≡ shape_of_entry (Some (bind_of bind.now))) }
{
    match bind {
        Bind::Var(ty) => ty.shape.clone(),
        Bind::TVar(_) => Ok(Rc::new(alloc, Shape::Any)?),
        Bind::Unread { shape, entries, .. } => read_shape(alloc, shape, *entries),
    }
}

// The shape of the entry at a position, if there is one.
fn shape_at_position(alloc: Global, ctx: &Ctx, position: u32) -> Result<Rc<Shape>, AllocError>
    ensures { IfOk result (λ s. shape_of s.value ≡ shape_of_entry (lookup (context_of ctx.now) position)) }
{
    match ctx.get(position) {
        Some(bind) => entry_shape(alloc, bind),
        None => Ok(Rc::new(alloc, Shape::Any)?),
    }
}

/// The shape of a variable. It is the greatest one where there is none.
pub(crate) fn shape_at(alloc: Global, ctx: &Ctx, variable: Var) -> Result<Rc<Shape>, AllocError>
    ensures { IfOk result (λ s. shape_of s.value ≡ shape_at (context_of ctx.now) variable) }
{
    match variable {
        Var::Free(position) => shape_at_position(alloc, ctx, position),
        Var::Bound(_) => Ok(Rc::new(alloc, Shape::Any)?),
    }
}

/// The shape that a variable is exposed to.
pub(crate) fn exposed_shape(
    alloc: Global,
    ctx: &Ctx,
    variable: Var,
) -> Result<Rc<Shape>, AllocError>
    ensures { IfOk result (λ s. shape_of s.value
        ≡ exposed (context_of ctx.now) (shape_at (context_of ctx.now) variable)) }
{
    let shape = shape_at(alloc, ctx, variable)?;
    expose(ctx, &shape).clone()
}
