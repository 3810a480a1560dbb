//! The forms without parts.

ghost use Rattle.std.specs.Prelude.{◌≡◌, ℕ, ◌≤◌, Some, None, IfOk};
ghost use Rattle.cc_base.specs.declared.literal.Base.TheVariants as bases;
ghost use Rattle.cc_capture.specs.Sets.{empty};
ghost use Rattle.cc_core.specs.Captured.{variable_set};
ghost use Rattle.cc_core.specs.Derivations.{t-box, t-prim, t-repeat, OfType, Node, one, two};
ghost use Rattle.cc_core.specs.Shapes.{BaseShape, FunctionShape, BoxShape, capturing};
ghost use Rattle.cc_core.specs.Substitution.{replaced_type, replaced_type_by_shape};
ghost use Rattle.cc_core.specs.Typing as typing;
ghost use Rattle.cc_core.specs.TermViews.{shape_of, type_of, context_of};
ghost use Rattle.cc_checking.specs.CanonicalDerivations as plain;
ghost use Rattle.cc_checking.specs.Exposing.{exposed};
ghost use Rattle.cc_checking.specs.Inference.{base_type};
ghost use Rattle.cc_derive.specs.Trees.{IsMade};
ghost use Rattle.cc_derive.specs.Typings.{IsTyping};

use crate::bases::{base_answered, base_given, base_taken, base_type, pure_type};
use crate::exposing::exposed_shape;
use crate::nodes::{Typing, nothing, over_one, over_two};
use crate::variables::{base_operand, given, head, operand, variable};
use crate::{Making, Tree, derive_shapes};
use cc_base::literal::{Base, Op, Operator};
use cc_capture::{CapSet, Var};
use cc_core::substitution::{subst_type, subst_var};
use cc_core::{Ctx, Shape, Ty};
use cc_derivation::Rule;
use std::alloc::{AllocError, Global};
use std::rc::Rc;

/// A box of a variable.
pub(crate) fn boxed(
    alloc: Global,
    build: Making,
    ctx: &Ctx,
    content: Var,
) -> Result<Typing, AllocError>
    ensures { IfOk result (λ t. IsTyping build t
        (Node t-box (one (plain.variable_derived (context_of ctx.now) content))
        (OfType (capturing (BoxShape (plain.shape_at (context_of ctx.now) content) (variable_set content)) empty)))) }
{
    let inside = variable(alloc, build, ctx, content)?;
    let Typing { ty, tree } = inside;
    let whole = pure_type(alloc, box_of(alloc, &ty)?);
    over_one(alloc, build, Rule::Boxing, tree, whole)
}

// The same type, whose shape is shared.
fn copy(ty: &Rc<Ty>) -> Result<Ty, AllocError>
    ensures { IfOk result (λ t. type_of t ≡ type_of ty.now.value) }
{
    (**ty).clone()
}

// What a function that gives this gives for the argument.
fn applied(alloc: Global, gives: &Rc<Ty>, argument: Var) -> Result<Ty, AllocError>
    ensures { IfOk result (λ t. type_of t ≡ replaced_type argument (type_of gives.now.value)) }
{
    subst_var(alloc, gives, argument)
}

// What a type function that gives this gives for the shape.
fn applied_to_shape(alloc: Global, gives: &Rc<Ty>, argument: &Rc<Shape>) -> Result<Ty, AllocError>
    ensures { IfOk result (λ t. type_of t
        ≡ replaced_type_by_shape (shape_of argument.now.value) (type_of gives.now.value)) }
{
    subst_type(alloc, gives, argument)
}

// An application of a function that takes and gives these.
fn apply(
    alloc: Global,
    build: Making,
    ctx: &Ctx,
    function: Var,
    argument: Var,
    shape: &Rc<Shape>,
) -> Result<Typing, AllocError>
    requires { shape_of shape.now.value ≡ exposed (context_of ctx.now) (plain.shape_at (context_of ctx.now) function) }
    ensures { IfOk result (λ t. (m : ℕ) → 4294967295 ≤ m
        → IsTyping build t (plain.application_derived (plain.shape_derived m)
        (context_of ctx.now) function argument (shape_of shape.now.value))) }
{
    match &**shape {
        Shape::Fun(takes, gives) => {
            let first = head(alloc, build, ctx, function, shape)?;
            let takes = copy(takes)?;
            let second = given(alloc, build, ctx, argument, takes)?;
            let ty = applied(alloc, gives, argument)?;
            over_two(alloc, build, Rule::Application, first, second, ty)
        }
        _ => nothing(alloc, build),
    }
}

/// A function applied to a variable.
pub(crate) fn application(
    alloc: Global,
    build: Making,
    ctx: &Ctx,
    function: Var,
    argument: Var,
) -> Result<Typing, AllocError>
    ensures { IfOk result (λ t. (m : ℕ) → 4294967295 ≤ m
        → IsTyping build t (plain.application_derived (plain.shape_derived m)
        (context_of ctx.now) function argument
        (exposed (context_of ctx.now) (plain.shape_at (context_of ctx.now) function)))) }
{
    let shape = exposed_shape(alloc, ctx, function)?;
    apply(alloc, build, ctx, function, argument, &shape)
}

// An application of a type function of this shape.
fn apply_type(
    alloc: Global,
    build: Making,
    ctx: &Ctx,
    function: Var,
    argument: &Rc<Shape>,
    shape: &Rc<Shape>,
) -> Result<Typing, AllocError>
    requires { shape_of shape.now.value ≡ exposed (context_of ctx.now) (plain.shape_at (context_of ctx.now) function) }
    ensures { IfOk result (λ t. (m : ℕ) → 4294967295 ≤ m
        → IsTyping build t (plain.type_application_derived (plain.shape_derived m) (context_of ctx.now) function
        (shape_of argument.now.value) (shape_of shape.now.value))) }
{
    match &**shape {
        Shape::TFun(bound, gives) => {
            let first = head(alloc, build, ctx, function, shape)?;
            let second = derive_shapes(alloc, build, ctx, argument, bound)?;
            let ty = applied_to_shape(alloc, gives, argument)?;
            over_two(alloc, build, Rule::TypeApplication, first, second, ty)
        }
        _ => nothing(alloc, build),
    }
}

/// A type function applied to a shape.
pub(crate) fn type_application(
    alloc: Global,
    build: Making,
    ctx: &Ctx,
    function: Var,
    argument: &Rc<Shape>,
) -> Result<Typing, AllocError>
    ensures { IfOk result (λ t. (m : ℕ) → 4294967295 ≤ m
        → IsTyping build t (plain.type_application_derived (plain.shape_derived m) (context_of ctx.now) function
        (shape_of argument.now.value) (exposed (context_of ctx.now)
        (plain.shape_at (context_of ctx.now) function)))) }
{
    let shape = exposed_shape(alloc, ctx, function)?;
    apply_type(alloc, build, ctx, function, argument, &shape)
}

// The shape of the type with the set.
fn with_set(inside: &Rc<Ty>, set: CapSet) -> Result<Ty, AllocError>
    ensures { IfOk result (λ t. type_of t ≡ capturing (type_of inside.now.value).shape set) }
{
    let shape = inside.shape.clone()?;
    Ok(Ty { shape, set })
}

// Boxes of the type.
fn box_of(alloc: Global, ty: &Ty) -> Result<Rc<Shape>, AllocError>
    ensures { IfOk result (λ s. shape_of s.value ≡ BoxShape (type_of ty.now).shape (type_of ty.now).set) }
{
    let content = Rc::new(alloc, ty.clone()?)?;
    Ok(Rc::new(alloc, Shape::Boxed(content))?)
}

// Opening a box of this shape under the set.
fn unbox(
    alloc: Global,
    build: Making,
    ctx: &Ctx,
    set: CapSet,
    content: Var,
    shape: &Rc<Shape>,
) -> Result<Typing, AllocError>
    ensures { IfOk result (λ t. (m : ℕ) → 4294967295 ≤ m
        → IsTyping build t (plain.unboxing_derived (plain.shape_derived m) (context_of ctx.now) set content
        (shape_of shape.now.value))) }
{
    match &**shape {
        Shape::Boxed(inside) => {
            let ty = with_set(inside, set)?;
            let whole = box_of(alloc, &ty)?;
            let first = operand(alloc, build, ctx, content, whole)?;
            over_one(alloc, build, Rule::Unboxing, first, ty)
        }
        _ => nothing(alloc, build),
    }
}

/// The content of a box, opened under the set.
pub(crate) fn unboxing(
    alloc: Global,
    build: Making,
    ctx: &Ctx,
    set: CapSet,
    content: Var,
) -> Result<Typing, AllocError>
    ensures { IfOk result (λ t. (m : ℕ) → 4294967295 ≤ m
        → IsTyping build t (plain.unboxing_derived (plain.shape_derived m) (context_of ctx.now) set content
        (exposed (context_of ctx.now) (plain.shape_at (context_of ctx.now) content)))) }
{
    let shape = exposed_shape(alloc, ctx, content)?;
    unbox(alloc, build, ctx, set, content, &shape)
}

/// An operator on two numbers.
pub(crate) fn primitive(
    alloc: Global,
    build: Making,
    ctx: &Ctx,
    operator: Operator,
    left: Var,
    right: Var,
) -> Result<Typing, AllocError>
    ensures { IfOk result (λ t. (m : ℕ) → 4294967295 ≤ m → IsTyping build t
        (Node t-prim
        (two (plain.operand_derived (plain.shape_derived m) (context_of ctx.now) left (BaseShape bases.Int))
        (plain.operand_derived (plain.shape_derived m) (context_of ctx.now) right (BaseShape bases.Int)))
        (OfType (base_type (typing.base_given operator))))) }
{
    let first = base_operand(alloc, build, ctx, left, Base::Int)?;
    let second = base_operand(alloc, build, ctx, right, Base::Int)?;
    let ty = base_type(alloc, base_given(operator))?;
    over_two(alloc, build, Rule::Primitive, first, second, ty)
}

// Functions on numbers that capture nothing.
fn function_on_numbers(alloc: Global) -> Result<Rc<Shape>, AllocError>
    ensures { IfOk result (λ s. shape_of s.value
        ≡ FunctionShape (BaseShape bases.Int) empty (BaseShape bases.Unit) empty) }
{
    let takes = Rc::new(alloc, base_type(alloc, Base::Int)?)?;
    let gives = Rc::new(alloc, base_type(alloc, Base::Unit)?)?;
    Ok(Rc::new(alloc, Shape::Fun(takes, gives))?)
}

/// So many calls of a function on the numbers from 0.
pub(crate) fn repetition(
    alloc: Global,
    build: Making,
    ctx: &Ctx,
    count: Var,
    function: Var,
) -> Result<Typing, AllocError>
    ensures { IfOk result (λ t. (m : ℕ) → 4294967295 ≤ m → IsTyping build t
        (Node t-repeat
        (two (plain.operand_derived (plain.shape_derived m) (context_of ctx.now) count (BaseShape bases.Int))
        (plain.operand_derived (plain.shape_derived m) (context_of ctx.now) function
        (FunctionShape (BaseShape bases.Int) empty (BaseShape bases.Unit) empty)))
        (OfType (base_type bases.Unit)))) }
{
    let first = base_operand(alloc, build, ctx, count, Base::Int)?;
    let shape = function_on_numbers(alloc)?;
    let second = operand(alloc, build, ctx, function, shape)?;
    let ty = base_type(alloc, Base::Unit)?;
    over_two(alloc, build, Rule::Repetition, first, second, ty)
}

// The receiver of an operation.
fn receiver(alloc: Global, build: Making, ctx: &Ctx, receiver: Var) -> Result<Tree, AllocError>
    ensures { IfOk result (λ t. (m : ℕ) → 4294967295 ≤ m
        → IsMade build t (plain.head_derived (plain.shape_derived m) (context_of ctx.now) receiver)) }
{
    let shape = exposed_shape(alloc, ctx, receiver)?;
    head(alloc, build, ctx, receiver, &shape)
}

// An operation with an argument of the base shape.
fn operate_on(
    alloc: Global,
    build: Making,
    ctx: &Ctx,
    operation: Op,
    device: Var,
    argument: Var,
    base: Base,
) -> Result<Typing, AllocError>
    ensures { IfOk result (λ t. (m : ℕ) → 4294967295 ≤ m
        → IsTyping build t (plain.operation_derived (plain.shape_derived m) (context_of ctx.now) operation device
        (Some argument) (Some base))) }
{
    let first = receiver(alloc, build, ctx, device)?;
    let second = base_operand(alloc, build, ctx, argument, base)?;
    let ty = base_type(alloc, base_answered(operation))?;
    over_two(alloc, build, Rule::Operation, first, second, ty)
}

// An operation without an argument.
fn operate_alone(
    alloc: Global,
    build: Making,
    ctx: &Ctx,
    operation: Op,
    device: Var,
) -> Result<Typing, AllocError>
    ensures { IfOk result (λ t. (m : ℕ) → 4294967295 ≤ m
        → IsTyping build t (plain.operation_derived (plain.shape_derived m)
        (context_of ctx.now) operation device None None)) }
{
    let first = receiver(alloc, build, ctx, device)?;
    let ty = base_type(alloc, base_answered(operation))?;
    over_one(alloc, build, Rule::Operation, first, ty)
}

/// An operation of a device.
pub(crate) fn operation(
    alloc: Global,
    build: Making,
    ctx: &Ctx,
    operation: Op,
    device: Var,
    argument: Option<Var>,
) -> Result<Typing, AllocError>
    ensures { IfOk result (λ t. (m : ℕ) → 4294967295 ≤ m
        → IsTyping build t (plain.operation_derived (plain.shape_derived m)
        (context_of ctx.now) operation device argument (typing.base_taken operation))) }
{
    match argument {
        Some(variable) => match base_taken(operation) {
            Some(base) => operate_on(alloc, build, ctx, operation, device, variable, base),
            None => nothing(alloc, build),
        },
        None => match base_taken(operation) {
            Some(_) => nothing(alloc, build),
            None => operate_alone(alloc, build, ctx, operation, device),
        },
    }
}

// Leaving the boundary of an exit of this shape.
fn leave_through(
    alloc: Global,
    build: Making,
    ctx: &Ctx,
    gives: Ty,
    exit: Var,
    value: Var,
    shape: &Rc<Shape>,
) -> Result<Typing, AllocError>
    requires { shape_of shape.now.value ≡ exposed (context_of ctx.now) (plain.shape_at (context_of ctx.now) exit) }
    ensures { IfOk result (λ t. (m : ℕ) → 4294967295 ≤ m
        → IsTyping build t (plain.exit_derived (plain.shape_derived m) (context_of ctx.now)
        (type_of gives) exit value (shape_of shape.now.value))) }
{
    match &**shape {
        Shape::Exit(takes) => {
            let first = head(alloc, build, ctx, exit, shape)?;
            let inside = takes.clone()?;
            let taken = pure_type(alloc, inside);
            let second = given(alloc, build, ctx, value, taken)?;
            over_two(alloc, build, Rule::Exit, first, second, gives)
        }
        _ => nothing(alloc, build),
    }
}

/// Leaving the boundary of an exit with a value.
pub(crate) fn leave(
    alloc: Global,
    build: Making,
    ctx: &Ctx,
    gives: Ty,
    exit: Var,
    value: Var,
) -> Result<Typing, AllocError>
    ensures { IfOk result (λ t. (m : ℕ) → 4294967295 ≤ m
        → IsTyping build t (plain.exit_derived (plain.shape_derived m) (context_of ctx.now)
        (type_of gives) exit value (exposed (context_of ctx.now) (plain.shape_at (context_of ctx.now) exit)))) }
{
    let shape = exposed_shape(alloc, ctx, exit)?;
    leave_through(alloc, build, ctx, gives, exit, value, &shape)
}
