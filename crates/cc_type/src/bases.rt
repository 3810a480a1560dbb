//! The base shapes of literals, operators and operations.

ghost use Rattle.std.specs.Prelude.{◌≡◌, IfOk};
ghost use Rattle.cc_base.specs.Literals.{literal_of};
ghost use Rattle.cc_base.specs.declared.literal.Base.TheVariants as bases;
ghost use Rattle.cc_capture.specs.Sets.{empty};
ghost use Rattle.cc_core.specs.Shapes.{BaseShape, FunctionShape};
ghost use Rattle.cc_core.specs.Typing as typing;
ghost use Rattle.cc_core.specs.TermViews.{shape_of, type_of};
ghost use Rattle.cc_checking.specs.Inference as plain;

use cc_base::literal::{Base, Lit, Op, Operator};
use cc_capture::CapSet;
use cc_core::{Shape, Ty};
use std::alloc::{AllocError, Global};
use std::rc::Rc;

/// The shape with the empty set.
pub fn pure_type(alloc: Global, shape: Rc<Shape>) -> Ty
    ensures { type_of result ≡ record { shape = shape_of shape.value; set = empty } }
{
    let set = CapSet::new(alloc);
    Ty { shape, set }
}

/// The base shape.
pub fn base_shape(alloc: Global, base: Base) -> Result<Rc<Shape>, AllocError>
    ensures { IfOk result (λ s. shape_of s.value ≡ BaseShape base) }
{
    Ok(Rc::new(alloc, Shape::Base(base))?)
}

/// The base shape with the empty set.
pub fn base_type(alloc: Global, base: Base) -> Result<Ty, AllocError>
    ensures { IfOk result (λ t. type_of t ≡ plain.base_type base) }
{
    Ok(pure_type(alloc, base_shape(alloc, base)?))
}

/// Functions on numbers that capture nothing.
pub fn function_on_numbers(alloc: Global) -> Result<Rc<Shape>, AllocError>
    ensures { IfOk result (λ s. shape_of s.value ≡ FunctionShape (BaseShape bases.Int) empty (BaseShape bases.Unit) empty) }
{
    let takes = Rc::new(alloc, base_type(alloc, Base::Int)?)?;
    let gives = Rc::new(alloc, base_type(alloc, Base::Unit)?)?;
    Ok(Rc::new(alloc, Shape::Fun(takes, gives))?)
}

/// The base shape of a literal.
pub fn base_of(literal: &Lit) -> Base
    ensures { result ≡ typing.base_of (literal_of literal.now) }
{
    match literal {
        Lit::Unit => Base::Unit,
        Lit::Bool(_) => Base::Bool,
        Lit::Int(_) => Base::Int,
        Lit::Str(_) => Base::Str,
    }
}

/// The base shape that an operator gives.
pub fn base_given(operator: Operator) -> Base
    ensures { result ≡ typing.base_given operator }
{
    match operator {
        Operator::Add => Base::Int,
        Operator::Sub => Base::Int,
        Operator::Mul => Base::Int,
        Operator::Less => Base::Bool,
        Operator::Equal => Base::Bool,
    }
}

/// The base shape of the device that an operation is for.
pub fn base_operated(operation: Op) -> Base
    ensures { result ≡ typing.base_operated operation }
{
    match operation {
        Op::Print => Base::Console,
        Op::Say => Base::Console,
        Op::Read => Base::File,
        Op::Write => Base::File,
        Op::Tick => Base::Counter,
    }
}

/// The base shape of what an operation takes, if it takes anything.
pub fn base_taken(operation: Op) -> Option<Base>
    ensures { result ≡ typing.base_taken operation }
{
    match operation {
        Op::Print => Some(Base::Int),
        Op::Say => Some(Base::Str),
        Op::Read => None,
        Op::Write => Some(Base::Int),
        Op::Tick => None,
    }
}

/// The base shape of what an operation answers.
pub fn base_answered(operation: Op) -> Base
    ensures { result ≡ typing.base_answered operation }
{
    match operation {
        Op::Print => Base::Unit,
        Op::Say => Base::Unit,
        Op::Read => Base::Int,
        Op::Write => Base::Unit,
        Op::Tick => Base::Int,
    }
}
