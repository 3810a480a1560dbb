//! Base shapes of literals, operators and operations, and where a variable and an entry stand.

ghost use Rattle.std.specs.Prelude.{◌≡◌, ◌∷◌, length, IfOk};
ghost use Rattle.cc_base.specs.Literals.{literal_of};
ghost use Rattle.cc_capture.specs.Sets.{empty};
ghost use Rattle.cc_core.specs.Captured as captured;
ghost use Rattle.cc_core.specs.Contexts.{TypeEntry, entry_of};
ghost use Rattle.cc_core.specs.Typing as typing;
ghost use Rattle.cc_core.specs.TermViews.{shape_of, type_of, context_of};
ghost use Rattle.cc_checking.specs.Inference as plain;

use cc_base::literal::{Base, Lit, Op, Operator};
use cc_capture::{CapSet, Elem, Var};
use cc_core::acting::read_variable;
use cc_core::reading::{read_set, read_shape, read_type};
use cc_core::{Bind, Ctx, Shape, Ty};
use std::alloc::{AllocError, Global};
use std::rc::Rc;

/// The base shape of a literal.
pub(crate) fn base_of(literal: &Lit) -> Base
    ensures { result ≡ typing.base_of (literal_of literal.now) }
{
    match literal {
        Lit::Unit => Base::Unit,
        Lit::Bool(_) => Base::Bool,
        Lit::Int(_) => Base::Int,
        Lit::Str(_) => Base::Str,
    }
}

/// The base shape that an operator gives.
pub(crate) fn base_given(operator: Operator) -> Base
    ensures { result ≡ typing.base_given operator }
{
    match operator {
        Operator::Add => Base::Int,
        Operator::Sub => Base::Int,
        Operator::Mul => Base::Int,
        Operator::Less => Base::Bool,
        Operator::Equal => Base::Bool,
    }
}

/// The base shape of an operation's argument, if it takes one.
pub(crate) fn base_taken(operation: Op) -> Option<Base>
    ensures { result ≡ typing.base_taken operation }
{
    match operation {
        Op::Print => Some(Base::Int),
        Op::Say => Some(Base::Str),
        Op::Read => None,
        Op::Write => Some(Base::Int),
        Op::Tick => None,
    }
}

/// The base shape of an operation's answer.
pub(crate) fn base_answered(operation: Op) -> Base
    ensures { result ≡ typing.base_answered operation }
{
    match operation {
        Op::Print => Base::Unit,
        Op::Say => Base::Unit,
        Op::Read => Base::Int,
        Op::Write => Base::Unit,
        Op::Tick => Base::Int,
    }
}

/// The shape with the empty set.
pub(crate) fn pure_type(alloc: Global, shape: Rc<Shape>) -> Ty
    ensures { type_of result ≡ record { shape = shape_of shape.value; set = empty } }
{
    let set = CapSet::new(alloc);
    Ty { shape, set }
}

/// The base shape with the empty set.
pub(crate) fn base_type(alloc: Global, base: Base) -> Result<Ty, AllocError>
    ensures { IfOk result (λ t. type_of t ≡ plain.base_type base) }
{
    Ok(pure_type(alloc, Rc::new(alloc, Shape::Base(base))?))
}

/// How many entries the context has.
pub(crate) fn entries(ctx: &Ctx) -> u32
    ensures { result ≡ length (context_of ctx.now) }
{
    ctx.len()
}

/// What stands in a term at a place of the context, as it stands in the context.
pub(crate) fn in_context(ctx: &Ctx, variable: Var) -> Var
    ensures { result ≡ plain.in_context (context_of ctx.now) variable }
{
    read_variable(entries(ctx), 0, variable)
}

/// What stands in a term at a place of the context, as it stands in the context: the same of a set.
pub(crate) fn set_in(alloc: Global, ctx: &Ctx, set: &CapSet) -> Result<CapSet, AllocError>
    ensures { IfOk result (λ s. s ≡ plain.set_in (context_of ctx.now) set.now) }
{
    read_set(alloc, set, entries(ctx))
}

/// The same of a shape.
pub(crate) fn shape_in(alloc: Global, ctx: &Ctx, shape: &Rc<Shape>) -> Result<Rc<Shape>, AllocError>
    ensures { IfOk result (λ s. shape_of s.value ≡ plain.shape_in (context_of ctx.now) (shape_of shape.now.value)) }
{
    read_shape(alloc, shape, entries(ctx))
}

/// The same of a type.
pub(crate) fn type_in(alloc: Global, ctx: &Ctx, ty: &Rc<Ty>) -> Result<Ty, AllocError>
    ensures { IfOk result (λ t. type_of t ≡ plain.type_in (context_of ctx.now) (type_of ty.now.value)) }
{
    read_type(alloc, ty, entries(ctx))
}

/// The set of one variable.
pub(crate) fn variable_set(alloc: Global, variable: Var) -> Result<CapSet, AllocError>
    ensures { IfOk result (λ s. s ≡ captured.variable_set variable) }
{
    let mut set = CapSet::new(alloc);
    set.insert(Elem::Var(variable))?;
    Ok(set)
}

/// The context with a variable of the type.
pub(crate) fn with_variable(alloc: Global, ctx: &Ctx, ty: &Ty) -> Result<Ctx, AllocError>
    ensures { IfOk result (λ c. context_of c ≡ entry_of (type_of ty.now) ∷ context_of ctx.now) }
{
    ctx.push(alloc, Bind::Var(ty.clone()?))
}

/// The context with a type variable of the bound.
pub(crate) fn with_type_variable(
    alloc: Global,
    ctx: &Ctx,
    bound: &Rc<Shape>,
) -> Result<Ctx, AllocError>
    ensures { IfOk result (λ c. context_of c ≡ TypeEntry (shape_of bound.now.value) ∷ context_of ctx.now) }
{
    ctx.push(alloc, Bind::TVar(bound.clone()?))
}

// The type of the exit of a boundary that gives the shape.
fn exit_type(alloc: Global, gives: &Rc<Shape>) -> Result<Ty, AllocError>
    ensures { IfOk result (λ t. entry_of (type_of t) ≡ plain.exit_entry (shape_of gives.now.value)) }
{
    let shape = Rc::new(alloc, Shape::Exit(gives.clone()?))?;
    let mut set = CapSet::new(alloc);
    set.insert(Elem::Cap)?;
    Ok(Ty { shape, set })
}

/// The context with the exit of a boundary that gives the shape.
pub(crate) fn with_exit(alloc: Global, ctx: &Ctx, gives: &Rc<Shape>) -> Result<Ctx, AllocError>
    ensures { IfOk result (λ c. context_of c ≡ plain.exit_entry (shape_of gives.now.value) ∷ context_of ctx.now) }
{
    let ty = exit_type(alloc, gives)?;
    ctx.push(alloc, Bind::Var(ty))
}
