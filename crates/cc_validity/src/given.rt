//! The types that the rules give to terms, from the types that the premises claim.

ghost use Rattle.std.specs.Prelude.{◌≡◌, Some, option_map, IfOk};
ghost use Rattle.cc_capture.specs.Sets.{empty};
ghost use Rattle.cc_base.specs.declared.literal.Base.TheVariants as bases;
ghost use Rattle.cc_core.specs.Captured.{variable_set, captured_variables};
ghost use Rattle.cc_core.specs.Equality.{same_shape};
ghost use Rattle.cc_core.specs.Shapes.{capturing, BaseShape, FunctionShape};
ghost use Rattle.cc_core.specs.Terms.{Term, FunctionTerm, TypeFunctionTerm};
ghost use Rattle.cc_core.specs.TermViews.{shape_of, type_of, note_of, bind_of, context_of};
ghost use Rattle.cc_derivation.specs.Rows as plain;

use crate::side::{
    base_answered, base_operated, base_taken, base_type, has_no_cap, is_alone, is_base, is_note_of,
    is_taken, names, pure_type,
};
use cc_base::literal::{Base, Op};
use cc_capture::{CapSet, Elem, Var};
use cc_core::reading::read_shape;
use cc_core::same::{same_shape, same_type};
use cc_core::substitution::{close_type, subst_type, subst_var};
use cc_core::wellformed::{wf, wf_set, wf_shape};
use cc_core::{Bind, Ctx, Note, Shape, Ty};
use std::alloc::{AllocError, Global};
use std::rc::Rc;

// The type of a variable that has the shape.
fn variable_type(alloc: Global, variable: Var, shape: Rc<Shape>) -> Result<Ty, AllocError>
    ensures { IfOk result (λ t. type_of t ≡ capturing (shape_of shape.value) (variable_set variable)) }
{
    let mut set = CapSet::new(alloc);
    set.insert(Elem::Var(variable))?;
    Ok(Ty { shape, set })
}

// The type of a variable of the entry.
fn entry_type(alloc: Global, variable: Var, bind: &Bind) -> Result<Option<Ty>, AllocError>
    ensures { IfOk result (λ o. option_map type_of o ≡ plain.variable_given variable (Some (bind_of bind.now))) }
{
    match bind {
        Bind::Var(ty) => {
            let ty = variable_type(alloc, variable, ty.shape.clone()?)?;
            Ok(Some(ty))
        }
        Bind::TVar(_) => Ok(None),
        Bind::Unread { shape, entries, .. } => {
            let ty = variable_type(alloc, variable, read_shape(alloc, shape, *entries)?)?;
            Ok(Some(ty))
        }
    }
}

/// The type of a variable.
pub fn variable_given(alloc: Global, ctx: &Ctx, variable: Var) -> Result<Option<Ty>, AllocError>
    ensures { IfOk result (λ o. option_map type_of o ≡ plain.variable_given variable (plain.entry_at (context_of ctx.now) variable)) }
{
    match variable {
        Var::Free(position) => match ctx.get(position) {
            Some(bind) => entry_type(alloc, variable, bind),
            None => Ok(None),
        },
        Var::Bound(_) => Ok(None),
    }
}

/// The type of a function that captures the set, whose body has the type.
pub fn function_given(
    alloc: Global,
    ctx: &Ctx,
    takes: Ty,
    set: CapSet,
    gives: &Ty,
) -> Result<Option<Ty>, AllocError>
    ensures { IfOk result (λ o. (body : Term) → set ≡ captured_variables (FunctionTerm (type_of takes).shape (type_of takes).set body)
        → option_map type_of o ≡ plain.function_given (context_of ctx.now) (type_of takes).shape (type_of takes).set body (type_of gives.now)) }
{
    if !wf(alloc, ctx, &takes)? {
        return Ok(None);
    }
    let gives = close_type(alloc, gives, ctx.len())?;
    let shape = Shape::Fun(Rc::new(alloc, takes)?, Rc::new(alloc, gives)?);
    Ok(Some(Ty {
        shape: Rc::new(alloc, shape)?,
        set,
    }))
}

/// The type of a type function that captures the set, whose body has the type.
pub fn type_function_given(
    alloc: Global,
    ctx: &Ctx,
    bound: Rc<Shape>,
    set: CapSet,
    gives: &Ty,
) -> Result<Option<Ty>, AllocError>
    ensures { IfOk result (λ o. (body : Term) → set ≡ captured_variables (TypeFunctionTerm (shape_of bound.value) body)
        → option_map type_of o ≡ plain.type_function_given (context_of ctx.now) (shape_of bound.value) body (type_of gives.now)) }
{
    if !wf_shape(alloc, ctx, &bound)? {
        return Ok(None);
    }
    let gives = close_type(alloc, gives, ctx.len())?;
    let shape = Shape::TFun(bound, Rc::new(alloc, gives)?);
    Ok(Some(Ty {
        shape: Rc::new(alloc, shape)?,
        set,
    }))
}

/// What a function of the shape gives for an argument of the type.
pub fn application_given(
    alloc: Global,
    argument: Var,
    head: &Shape,
    given: &Ty,
) -> Result<Option<Ty>, AllocError>
    ensures { IfOk result (λ o. option_map type_of o ≡ plain.application_given argument (shape_of head.now) (type_of given.now)) }
{
    match head {
        Shape::Fun(takes, gives) => {
            if !same_type(given, takes) {
                return Ok(None);
            }
            let ty = subst_var(alloc, gives, argument)?;
            Ok(Some(ty))
        }
        _ => Ok(None),
    }
}

/// What a type function of the shape gives for an argument, where the left shape is known to be below the right one.
pub fn type_application_given(
    alloc: Global,
    ctx: &Ctx,
    argument: &Rc<Shape>,
    head: &Shape,
    left: &Shape,
    right: &Shape,
) -> Result<Option<Ty>, AllocError>
    ensures { IfOk result (λ o. option_map type_of o ≡ plain.type_application_given (context_of ctx.now) (shape_of argument.now.value) (shape_of head.now) (shape_of left.now) (shape_of right.now)) }
{
    match head {
        Shape::TFun(bound, gives) => {
            if !same_shape(left, argument) {
                return Ok(None);
            }
            if !same_shape(right, bound) {
                return Ok(None);
            }
            if !wf_shape(alloc, ctx, argument)? {
                return Ok(None);
            }
            let ty = subst_type(alloc, gives, argument)?;
            Ok(Some(ty))
        }
        _ => Ok(None),
    }
}

/// The type of a box with the content.
pub fn box_given(alloc: Global, content: &Ty) -> Result<Option<Ty>, AllocError>
    ensures { IfOk result (λ o. option_map type_of o ≡ plain.box_given (type_of content.now)) }
{
    if !has_no_cap(&content.set) {
        return Ok(None);
    }
    let shape = Rc::new(alloc, Shape::Boxed(Rc::new(alloc, content.clone()?)?))?;
    let ty = pure_type(alloc, &shape)?;
    Ok(Some(ty))
}

/// The type of what is in a box of the shape, taken out under the set.
pub fn unboxing_given(ctx: &Ctx, set: &CapSet, head: &Shape) -> Result<Option<Ty>, AllocError>
    ensures { IfOk result (λ o. option_map type_of o ≡ plain.unboxing_given (context_of ctx.now) set.now (shape_of head.now)) }
{
    match head {
        Shape::Boxed(content) => {
            let fits = content.set == *set && (wf_set(ctx, set) && has_no_cap(set));
            if !fits {
                return Ok(None);
            }
            let shape = content.shape.clone()?;
            let set = set.clone()?;
            Ok(Some(Ty { shape, set }))
        }
        _ => Ok(None),
    }
}

/// The type of a let, where its right side and its body have the types.
pub fn let_given(ctx: &Ctx, note: &Note, bound: &Ty, ty: &Ty) -> Result<Option<Ty>, AllocError>
    ensures { IfOk result (λ o. option_map type_of o ≡ plain.let_given (context_of ctx.now) (note_of note.now) (type_of bound.now) (type_of ty.now)) }
{
    let fits = is_note_of(note, bound) && !names(ctx.len(), ty);
    if !fits {
        return Ok(None);
    }
    let ty = ty.clone()?;
    Ok(Some(ty))
}

/// What an operator on two numbers gives.
pub fn primitive_given(
    alloc: Global,
    given: Base,
    left: &Shape,
    right: &Shape,
) -> Result<Option<Ty>, AllocError>
    ensures { IfOk result (λ o. option_map type_of o ≡ plain.primitive_given given (shape_of left.now) (shape_of right.now)) }
{
    let fits = is_base(left, Base::Int) && is_base(right, Base::Int);
    if !fits {
        return Ok(None);
    }
    let ty = base_type(alloc, given)?;
    Ok(Some(ty))
}

/// The type of a choice, where it is written.
pub fn choice_given(
    written: &Ty,
    test: &Shape,
    positive: &Ty,
    negative: &Ty,
) -> Result<Option<Ty>, AllocError>
    ensures { IfOk result (λ o. option_map type_of o ≡ plain.choice_given (type_of written.now) (shape_of test.now) (type_of positive.now) (type_of negative.now)) }
{
    let fits = is_base(test, Base::Bool)
        && (same_type(positive, written) && same_type(negative, written));
    if !fits {
        return Ok(None);
    }
    let ty = written.clone()?;
    Ok(Some(ty))
}

// Whether the shape is that of the functions that are called so many times.
fn is_repeated(alloc: Global, shape: &Shape) -> Result<bool, AllocError>
    ensures { IfOk result (λ b. b ≡ same_shape (shape_of shape.now) (FunctionShape (BaseShape bases.Int) empty (BaseShape bases.Unit) empty)) }
{
    let takes = Rc::new(alloc, base_type(alloc, Base::Int)?)?;
    let gives = Rc::new(alloc, base_type(alloc, Base::Unit)?)?;
    Ok(same_shape(shape, &Shape::Fun(takes, gives)))
}

/// The type of so many calls of a function.
pub fn repetition_given(
    alloc: Global,
    count: &Shape,
    function: &Shape,
) -> Result<Option<Ty>, AllocError>
    ensures { IfOk result (λ o. option_map type_of o ≡ plain.repetition_given (shape_of count.now) (shape_of function.now)) }
{
    let repeated = is_repeated(alloc, function)?;
    let fits = is_base(count, Base::Int) && repeated;
    if !fits {
        return Ok(None);
    }
    let ty = base_type(alloc, Base::Unit)?;
    Ok(Some(ty))
}

/// What an operation with an argument gives.
pub fn operation_given(
    alloc: Global,
    operation: Op,
    receiver: &Shape,
    argument: &Shape,
) -> Result<Option<Ty>, AllocError>
    ensures { IfOk result (λ o. option_map type_of o ≡ plain.operation_given operation (shape_of receiver.now) (shape_of argument.now)) }
{
    let fits = is_base(receiver, base_operated(operation))
        && is_taken(base_taken(operation), argument);
    if !fits {
        return Ok(None);
    }
    let ty = base_type(alloc, base_answered(operation))?;
    Ok(Some(ty))
}

/// What an operation without an argument gives.
pub fn lone_operation_given(
    alloc: Global,
    operation: Op,
    receiver: &Shape,
) -> Result<Option<Ty>, AllocError>
    ensures { IfOk result (λ o. option_map type_of o ≡ plain.lone_operation_given operation (shape_of receiver.now)) }
{
    let fits = is_base(receiver, base_operated(operation)) && is_alone(base_taken(operation));
    if !fits {
        return Ok(None);
    }
    let ty = base_type(alloc, base_answered(operation))?;
    Ok(Some(ty))
}

/// The type of a boundary, where its body has the type.
pub fn boundary_given(
    alloc: Global,
    ctx: &Ctx,
    gives: &Rc<Shape>,
    inner: &Ty,
) -> Result<Option<Ty>, AllocError>
    ensures { IfOk result (λ o. option_map type_of o ≡ plain.boundary_given (context_of ctx.now) (shape_of gives.now.value) (type_of inner.now)) }
{
    let ty = pure_type(alloc, gives)?;
    if !same_type(inner, &ty) {
        return Ok(None);
    }
    if !wf_shape(alloc, ctx, gives)? {
        return Ok(None);
    }
    Ok(Some(ty))
}

/// The type that is written where a boundary is left, by an exit of the shape and with a value of the type.
pub fn exit_given(
    alloc: Global,
    ctx: &Ctx,
    gives: &Ty,
    exit: &Shape,
    value: &Ty,
) -> Result<Option<Ty>, AllocError>
    ensures { IfOk result (λ o. option_map type_of o ≡ plain.exit_given (context_of ctx.now) (type_of gives.now) (shape_of exit.now) (type_of value.now)) }
{
    match exit {
        Shape::Exit(shape) => {
            let taken = pure_type(alloc, shape)?;
            if !same_type(value, &taken) {
                return Ok(None);
            }
            if !wf(alloc, ctx, gives)? {
                return Ok(None);
            }
            let ty = gives.clone()?;
            Ok(Some(ty))
        }
        _ => Ok(None),
    }
}

/// The upper type, where the lower one is the type of the term.
pub fn widened(
    alloc: Global,
    ctx: &Ctx,
    ty: &Ty,
    lower: &Ty,
    upper: &Ty,
) -> Result<Option<Ty>, AllocError>
    ensures { IfOk result (λ o. option_map type_of o ≡ plain.widened (context_of ctx.now) (type_of ty.now) (type_of lower.now) (type_of upper.now)) }
{
    if !same_type(lower, ty) {
        return Ok(None);
    }
    if !wf(alloc, ctx, upper)? {
        return Ok(None);
    }
    let ty = upper.clone()?;
    Ok(Some(ty))
}
