//! Variables: heads, operands, and what is compared with a type.

ghost use Rattle.std.specs.Prelude.{◌≡◌, ℕ, ◌≤◌, IfOk};
ghost use Rattle.cc_core.specs.Shapes.{BaseShape};
ghost use Rattle.cc_core.specs.TermViews.{shape_of, type_of, context_of};
ghost use Rattle.cc_checking.specs.CanonicalDerivations as plain;
ghost use Rattle.cc_checking.specs.Exposing.{exposed};
ghost use Rattle.cc_derive.specs.Trees.{IsMade};
ghost use Rattle.cc_derive.specs.Typings.{IsTyping};

use crate::bases::variable_set;
use crate::exposing::shape_at;
use crate::nodes::{Typing, leaf, raise, raise_if};
use crate::{Making, Tree};
use cc_base::literal::Base;
use cc_capture::Var;
use cc_core::{Ctx, Shape, Ty};
use cc_derivation::Rule;
use std::alloc::{AllocError, Global};
use std::rc::Rc;

/// A variable.
pub(crate) fn variable(
    alloc: Global,
    build: Making,
    ctx: &Ctx,
    variable: Var,
) -> Result<Typing, AllocError>
    ensures { IfOk result (λ t. IsTyping build t (plain.variable_derived (context_of ctx.now) variable)) }
{
    let shape = shape_at(alloc, ctx, variable)?;
    let set = variable_set(alloc, variable)?;
    leaf(alloc, build, Rule::Variable, Ty { shape, set })
}

/// A head, whose shape is exposed to the shape.
pub(crate) fn head(
    alloc: Global,
    build: Making,
    ctx: &Ctx,
    head: Var,
    shape: &Rc<Shape>,
) -> Result<Tree, AllocError>
    requires { shape_of shape.now.value ≡ exposed (context_of ctx.now) (plain.shape_at (context_of ctx.now) head) }
    ensures { IfOk result (λ t. (m : ℕ) → 4294967295 ≤ m
        → IsMade build t (plain.head_derived (plain.shape_derived m) (context_of ctx.now) head)) }
{
    let part = variable(alloc, build, ctx, head)?;
    let shape = shape.clone()?;
    let set = variable_set(alloc, head)?;
    let raised = raise_if(alloc, build, ctx, part, Ty { shape, set })?;
    let Typing { ty: _, tree } = raised;
    Ok(tree)
}

/// A variable that is compared with the type.
pub(crate) fn given(
    alloc: Global,
    build: Making,
    ctx: &Ctx,
    given: Var,
    ty: Ty,
) -> Result<Tree, AllocError>
    ensures { IfOk result (λ t. (m : ℕ) → 4294967295 ≤ m
        → IsMade build t (plain.given_derived (plain.shape_derived m) (context_of ctx.now) given (type_of ty))) }
{
    let part = variable(alloc, build, ctx, given)?;
    let raised = raise(alloc, build, ctx, part, ty)?;
    let Typing { ty: _, tree } = raised;
    Ok(tree)
}

/// An operand of the shape.
pub(crate) fn operand(
    alloc: Global,
    build: Making,
    ctx: &Ctx,
    operand: Var,
    shape: Rc<Shape>,
) -> Result<Tree, AllocError>
    ensures { IfOk result (λ t. (m : ℕ) → 4294967295 ≤ m
        → IsMade build t (plain.operand_derived (plain.shape_derived m) (context_of ctx.now) operand
        (shape_of shape.value))) }
{
    let set = variable_set(alloc, operand)?;
    given(alloc, build, ctx, operand, Ty { shape, set })
}

/// An operand of the base shape.
pub(crate) fn base_operand(
    alloc: Global,
    build: Making,
    ctx: &Ctx,
    variable: Var,
    base: Base,
) -> Result<Tree, AllocError>
    ensures { IfOk result (λ t. (m : ℕ) → 4294967295 ≤ m
        → IsMade build t (plain.operand_derived (plain.shape_derived m) (context_of ctx.now) variable
        (BaseShape base))) }
{
    let shape = Rc::new(alloc, Shape::Base(base))?;
    operand(alloc, build, ctx, variable, shape)
}
