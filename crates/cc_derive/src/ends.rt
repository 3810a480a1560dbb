//! The last steps of the forms with parts.

ghost use Rattle.std.specs.Prelude.{◌≡◌, ℕ, ◌≤◌, ◌∷◌, length, IfOk};
ghost use Rattle.cc_core.specs.Contexts.{entry_of};
ghost use Rattle.cc_core.specs.Derivations.{Derivation};
ghost use Rattle.cc_core.specs.Shapes.{FunctionShape, TypeFunctionShape, capturing};
ghost use Rattle.cc_core.specs.Substitution.{closed_type};
ghost use Rattle.cc_core.specs.TermViews.{shape_of, type_of, note_of, context_of};
ghost use Rattle.cc_checking.specs.Avoidance.{Positive, avoided_type};
ghost use Rattle.cc_checking.specs.CanonicalDerivations as plain;
ghost use Rattle.cc_checking.specs.Inference.{exit_entry};
ghost use Rattle.cc_derive.specs.Typings.{IsTyping, function_over, type_function_over, choice_over};

use crate::Making;
use crate::bases::{entries, pure_type, set_in, type_in};
use crate::nodes::{Typing, nothing, over_one, over_three, over_two, raise, raise_if};
use crate::variables::base_operand;
use cc_avoid::{AvoidError, avoid_type};
use cc_base::literal::Base;
use cc_capture::{CapSet, Var};
use cc_core::substitution::close_type;
use cc_core::{Ctx, Note, Shape, Ty};
use cc_derivation::Rule;
use std::alloc::{AllocError, Global};
use std::rc::Rc;

// The type of a body where its binder is closed again.
fn closed(alloc: Global, ctx: &Ctx, ty: &Ty) -> Result<Rc<Ty>, AllocError>
    ensures { IfOk result (λ t. type_of t.value ≡ closed_type (length (context_of ctx.now)) (type_of ty.now)) }
{
    let ty = close_type(alloc, ty, entries(ctx))?;
    Ok(Rc::new(alloc, ty)?)
}

// The type of functions that take and give these and capture the set.
fn function_type(alloc: Global, takes: Ty, gives: Rc<Ty>, set: CapSet) -> Result<Ty, AllocError>
    ensures { IfOk result (λ t. type_of t
        ≡ capturing (FunctionShape (type_of takes).shape (type_of takes).set (type_of gives.value).shape
        (type_of gives.value).set) set) }
{
    let takes = Rc::new(alloc, takes)?;
    let shape = Rc::new(alloc, Shape::Fun(takes, gives))?;
    Ok(Ty { shape, set })
}

// The type of type functions of the bound that give this and capture the set.
fn type_function_type(
    alloc: Global,
    bound: Rc<Shape>,
    gives: Rc<Ty>,
    set: CapSet,
) -> Result<Ty, AllocError>
    ensures { IfOk result (λ t. type_of t
        ≡ capturing (TypeFunctionShape (shape_of bound.value) (type_of gives.value).shape
        (type_of gives.value).set) set) }
{
    let shape = Rc::new(alloc, Shape::TFun(bound, gives))?;
    Ok(Ty { shape, set })
}

/// A function that takes this, over its body, which captures these outside of its binder.
pub(crate) fn function_end(
    alloc: Global,
    build: Making,
    ctx: &Ctx,
    takes: Ty,
    captured: &CapSet,
    part: Typing,
) -> Result<Typing, AllocError>
    ensures { IfOk result (λ t. (d : Derivation) → IsTyping build part d
        → IsTyping build t (function_over (context_of ctx.now) (type_of takes) captured.now d)) }
{
    let Typing { ty: own, tree } = part;
    let gives = closed(alloc, ctx, &own)?;
    let set = set_in(alloc, ctx, captured)?;
    let ty = function_type(alloc, takes, gives, set)?;
    over_one(alloc, build, Rule::Function, tree, ty)
}

/// A type function of the bound, over its body, which captures these outside of its binder.
pub(crate) fn type_function_end(
    alloc: Global,
    build: Making,
    ctx: &Ctx,
    bound: Rc<Shape>,
    captured: &CapSet,
    part: Typing,
) -> Result<Typing, AllocError>
    ensures { IfOk result (λ t. (d : Derivation) → IsTyping build part d
        → IsTyping build t (type_function_over (context_of ctx.now) (shape_of bound.value) captured.now d)) }
{
    let Typing { ty: own, tree } = part;
    let gives = closed(alloc, ctx, &own)?;
    let set = set_in(alloc, ctx, captured)?;
    let ty = type_function_type(alloc, bound, gives, set)?;
    over_one(alloc, build, Rule::TypeFunction, tree, ty)
}

/// What is written for a type is what the type is widened to.
pub(crate) fn noted(
    alloc: Global,
    build: Making,
    ctx: &Ctx,
    note: &Note,
    part: Typing,
) -> Result<Typing, AllocError>
    ensures { IfOk result (λ t. (m : ℕ) → 4294967295 ≤ m → (d : Derivation) → IsTyping build part d
        → IsTyping build t (plain.noted_derived (plain.shape_derived m) (context_of ctx.now) (note_of note.now) d)) }
{
    match note {
        Note::Written(ty) => {
            let read = type_in(alloc, ctx, ty)?;
            raise(alloc, build, ctx, part, read)
        }
        Note::Absent => Ok(part),
        Note::Own(_) => Ok(part),
    }
}

// The type in which the newest variable, which is declared with the type, is avoided, where it can be.
fn avoided(alloc: Global, ctx: &Ctx, named: &Ty, ty: &Ty) -> Result<Ty, AllocError>
    ensures { IfOk result (λ t. type_of t
        ≡ plain.avoided_or (type_of ty.now)
        (avoided_type Positive (length (context_of ctx.now)) (type_of named.now).set (type_of ty.now))) }
{
    match avoid_type(alloc, entries(ctx), &named.set, ty) {
        Ok(found) => Ok(found),
        Err(AvoidError::Unavoidable) => ty.clone(),
        Err(AvoidError::NoMemory) => Err(AllocError),
    }
}

// The body of a let, widened where avoiding the variable changes its type.
fn left_behind(
    alloc: Global,
    build: Making,
    ctx: &Ctx,
    inner: &Ctx,
    named: &Ty,
    part: Typing,
) -> Result<Typing, AllocError>
    requires { context_of inner.now ≡ entry_of (type_of named.now) ∷ context_of ctx.now }
    ensures { IfOk result (λ t. (m : ℕ) → 4294967295 ≤ m → (d : Derivation) → IsTyping build part d
        → IsTyping build t (plain.left_derived (plain.shape_derived m) (context_of ctx.now) (type_of named.now) d)) }
{
    let ty = avoided(alloc, ctx, named, &part.ty)?;
    raise_if(alloc, build, inner, part, ty)
}

/// A let of what is named and the body.
pub(crate) fn let_end(
    alloc: Global,
    build: Making,
    ctx: &Ctx,
    inner: &Ctx,
    named: Typing,
    part: Typing,
) -> Result<Typing, AllocError>
    requires { context_of inner.now ≡ entry_of (type_of named.ty) ∷ context_of ctx.now }
    ensures { IfOk result (λ t. (m : ℕ) → 4294967295 ≤ m → (d e : Derivation) → IsTyping build named d
        → IsTyping build part e
        → IsTyping build t (plain.let_node d
        (plain.left_derived (plain.shape_derived m) (context_of ctx.now) (plain.typed d) e))) }
{
    let left = left_behind(alloc, build, ctx, inner, &named.ty, part)?;
    let Typing { ty, tree: body } = left;
    let Typing { ty: _, tree } = named;
    over_two(alloc, build, Rule::Let, tree, body, ty)
}

// A choice of two branches, both widened to the type.
fn choose(
    alloc: Global,
    build: Making,
    ctx: &Ctx,
    test: Var,
    ty: Ty,
    positive: Typing,
    negative: Typing,
) -> Result<Typing, AllocError>
    ensures { IfOk result (λ t. (m : ℕ) → 4294967295 ≤ m → (d e : Derivation) → IsTyping build positive d
        → IsTyping build negative e
        → IsTyping build t (choice_over (plain.shape_derived m) (context_of ctx.now) test (type_of ty) d e)) }
{
    let first = base_operand(alloc, build, ctx, test, Base::Bool)?;
    let one = ty.clone()?;
    let other = ty.clone()?;
    let positive = raise(alloc, build, ctx, positive, one)?;
    let negative = raise(alloc, build, ctx, negative, other)?;
    let Typing {
        ty: _,
        tree: second,
    } = positive;
    let Typing { ty: _, tree: third } = negative;
    over_three(alloc, build, Rule::Choice, first, second, third, ty)
}

/// A choice of two branches, by what is written for it.
pub(crate) fn choice(
    alloc: Global,
    build: Making,
    ctx: &Ctx,
    note: &Note,
    test: Var,
    positive: Typing,
    negative: Typing,
) -> Result<Typing, AllocError>
    ensures { IfOk result (λ t. (m : ℕ) → 4294967295 ≤ m → (d e : Derivation) → IsTyping build positive d
        → IsTyping build negative e
        → IsTyping build t (plain.choice_derived (plain.shape_derived m) (context_of ctx.now)
        (note_of note.now) test d e)) }
{
    match note {
        Note::Written(ty) => {
            let read = type_in(alloc, ctx, ty)?;
            choose(alloc, build, ctx, test, read, positive, negative)
        }
        Note::Absent => nothing(alloc, build),
        Note::Own(_) => nothing(alloc, build),
    }
}

/// A boundary that gives the shape, over its body.
pub(crate) fn boundary_end(
    alloc: Global,
    build: Making,
    ctx: &Ctx,
    inner: &Ctx,
    gives: Rc<Shape>,
    part: Typing,
) -> Result<Typing, AllocError>
    requires { context_of inner.now ≡ exit_entry (shape_of gives.value) ∷ context_of ctx.now }
    ensures { IfOk result (λ t. (m : ℕ) → 4294967295 ≤ m → (d : Derivation) → IsTyping build part d
        → IsTyping build t (plain.boundary_node (plain.shape_derived m) (context_of ctx.now)
        (shape_of gives.value) d)) }
{
    let whole = pure_type(alloc, gives);
    let copy = whole.clone()?;
    let raised = raise(alloc, build, inner, part, copy)?;
    let Typing { ty: _, tree } = raised;
    over_one(alloc, build, Rule::Boundary, tree, whole)
}
