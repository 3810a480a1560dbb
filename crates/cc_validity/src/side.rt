//! The side conditions of the rules of typing.

ghost use Rattle.std.specs.Prelude.{◌≡◌, ◌+◌, length, IfOk};
ghost use Rattle.cc_base.specs.Literals.{literal_of};
ghost use Rattle.cc_capture.specs.Sets.{empty};
ghost use Rattle.cc_core.specs.Questions.{occurs_in_type};
ghost use Rattle.cc_core.specs.Shapes.{capturing};
ghost use Rattle.cc_core.specs.Typing as typing;
ghost use Rattle.cc_core.specs.TermViews.{shape_of, type_of, note_of, context_of};
ghost use Rattle.cc_derivation.specs.Rows as plain;

use cc_base::literal::{Base, Lit, Op, Operator};
use cc_capture::{CapSet, Elem};
use cc_core::occurrences::occurs_in_type;
use cc_core::same::{same_shape, same_type};
use cc_core::{Note, Shape, Ty};
use std::alloc::{AllocError, Global};
use std::rc::Rc;

/// The base shape of a literal.
pub fn base_of(literal: &Lit) -> Base
    ensures { result ≡ typing.base_of (literal_of literal.now) }
{
    match literal {
        Lit::Unit => Base::Unit,
        Lit::Bool(_) => Base::Bool,
        Lit::Int(_) => Base::Int,
        Lit::Str(_) => Base::Str,
    }
}

/// The base shape of what an operator on two numbers gives.
pub fn base_given(operator: Operator) -> Base
    ensures { result ≡ typing.base_given operator }
{
    match operator {
        Operator::Add => Base::Int,
        Operator::Sub => Base::Int,
        Operator::Mul => Base::Int,
        Operator::Less => Base::Bool,
        Operator::Equal => Base::Bool,
    }
}

/// The base shape of the devices that an operation is for.
pub fn base_operated(operation: Op) -> Base
    ensures { result ≡ typing.base_operated operation }
{
    match operation {
        Op::Print => Base::Console,
        Op::Say => Base::Console,
        Op::Read => Base::File,
        Op::Write => Base::File,
        Op::Tick => Base::Counter,
    }
}

/// The base shape of an operation's argument, if it takes one.
pub fn base_taken(operation: Op) -> Option<Base>
    ensures { result ≡ typing.base_taken operation }
{
    match operation {
        Op::Print => Some(Base::Int),
        Op::Say => Some(Base::Str),
        Op::Read => None,
        Op::Write => Some(Base::Int),
        Op::Tick => None,
    }
}

/// The base shape of an operation's answer.
pub fn base_answered(operation: Op) -> Base
    ensures { result ≡ typing.base_answered operation }
{
    match operation {
        Op::Print => Base::Unit,
        Op::Say => Base::Unit,
        Op::Read => Base::Int,
        Op::Write => Base::Unit,
        Op::Tick => Base::Int,
    }
}

/// Whether the shape is the base shape.
pub fn is_base(shape: &Shape, base: Base) -> bool
    ensures { result ≡ plain.is_base (shape_of shape.now) base }
{
    same_shape(shape, &Shape::Base(base))
}

/// Whether an argument of the shape is what the operation takes.
pub fn is_taken(taken: Option<Base>, shape: &Shape) -> bool
    ensures { result ≡ plain.is_taken taken (shape_of shape.now) }
{
    match taken {
        Some(base) => is_base(shape, base),
        None => false,
    }
}

/// Whether the operation takes no argument.
pub fn is_alone(taken: Option<Base>) -> bool
    ensures { result ≡ plain.is_alone taken }
{
    match taken {
        Some(_) => false,
        None => true,
    }
}

/// Whether the universal capability is not in the set.
pub fn has_no_cap(set: &CapSet) -> bool
    ensures { result ≡ plain.has_no_cap set.now }
{
    !set.contains(Elem::Cap)
}

/// Whether what is written for a type, if anything is, is that type.
pub fn is_note_of(note: &Note, ty: &Ty) -> bool
    ensures { result ≡ plain.is_note_of (note_of note.now) (type_of ty.now) }
{
    match note {
        Note::Absent => true,
        Note::Written(written) => same_type(written, ty),
        Note::Own(_) => false,
    }
}

/// Whether the position occurs in the type.
pub fn names(position: u32, ty: &Ty) -> bool
    ensures { result ≡ occurs_in_type (plain.position_asked position) (type_of ty.now) }
{
    occurs_in_type(position, ty)
}

/// The type of the base shape with the empty set.
pub fn base_type(alloc: Global, base: Base) -> Result<Ty, AllocError>
    ensures { IfOk result (λ t. type_of t ≡ plain.base_type base) }
{
    let shape = Rc::new(alloc, Shape::Base(base))?;
    Ok(Ty {
        shape,
        set: CapSet::new(alloc),
    })
}

/// The type of the shape with the empty set.
pub fn pure_type(alloc: Global, shape: &Rc<Shape>) -> Result<Ty, AllocError>
    ensures { IfOk result (λ t. type_of t ≡ capturing (shape_of shape.now.value) empty) }
{
    let shape = shape.clone()?;
    Ok(Ty {
        shape,
        set: CapSet::new(alloc),
    })
}
