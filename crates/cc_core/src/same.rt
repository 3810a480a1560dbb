//! Whether two shapes or two types are one. The tests take no memory.

ghost use Rattle.std.specs.Prelude.{◌≡◌};
ghost use Rattle.cc_core.specs.Equality as plain;
ghost use Rattle.cc_core.specs.Equality.{base_number, SameShapeDecides, SameTypeDecides};
ghost use Rattle.cc_core.specs.TermViews.{shape_of, type_of};

use crate::types::{Shape, Ty};
use cc_base::literal::Base;
use cc_capture::var::same_var;

/// Whether the two are one type.
#[cycle(same)]
pub fn same_type(left: &Ty, right: &Ty) -> bool
    ensures { result ≡ plain.same_type (type_of left.now) (type_of right.now) }
{
    same_shape(&left.shape, &right.shape) && left.set == right.set
}

/// Whether the two are one shape.
#[cycle(same)]
pub fn same_shape(left: &Shape, right: &Shape) -> bool
    ensures { result ≡ plain.same_shape (shape_of left.now) (shape_of right.now) }
{
    match left {
        Shape::Base(base) => match right {
            Shape::Base(other) => base_number(*base) == base_number(*other),
            _ => false,
        },
        Shape::Any => match right {
            Shape::Any => true,
            _ => false,
        },
        Shape::TVar(variable) => match right {
            Shape::TVar(other) => same_var(*variable, *other),
            _ => false,
        },
        Shape::Fun(takes, gives) => match right {
            Shape::Fun(others, other_gives) => same_type(takes, others)
                && same_type(gives, other_gives),
            _ => false,
        },
        Shape::TFun(bound, gives) => match right {
            Shape::TFun(other, other_gives) => same_shape(bound, other)
                && same_type(gives, other_gives),
            _ => false,
        },
        Shape::Boxed(content) => match right {
            Shape::Boxed(other) => same_type(content, other),
            _ => false,
        },
        Shape::Exit(gives) => match right {
            Shape::Exit(other) => same_shape(gives, other),
            _ => false,
        },
    }
}

fn base_number(base: Base) -> u32
    ensures { result ≡ base_number base }
{
    match base {
        Base::Unit => 0,
        Base::Bool => 1,
        Base::Int => 2,
        Base::Str => 3,
        Base::Console => 4,
        Base::File => 5,
        Base::Counter => 6,
    }
}

/// The tests say exactly whether the two are one. The function does nothing.
pub fn tests_of_equality()
    ensures shapes { SameShapeDecides }
    ensures types { SameTypeDecides }
{}
