//! Numbers by which shapes are told apart before they are compared. Which number a shape has is no one's concern, but
//! that it is the same each time: a wrong one costs time alone.

use crate::ended::number_of;
use cc_base::literal::Base;
use cc_capture::{CapSet, Elem, Var};
use cc_core::{Shape, Ty};

// One number more. The factor is a prime number by which the bits are spread.
fn mixed(trace: u64, number: u32) -> u64 {
    (trace ^ u64::from(number)).wrapping_mul(1099511628211)
}

fn of_set(set: &CapSet, before: u64) -> u64 {
    let mut trace = mixed(before, 13);
    for elem in set.iter() {
        trace = mixed(trace, number_of(elem));
    }
    trace
}

#[cycle(traces)]
fn of_type(ty: &Ty, before: u64) -> u64 {
    let trace = of_set(&ty.set, before);
    of_shape(&ty.shape, trace)
}

#[cycle(traces)]
fn of_shape(shape: &Shape, before: u64) -> u64 {
    match shape {
        Shape::Base(base) => mixed(before, number_of_base(*base)),
        Shape::Any => mixed(before, 1),
        Shape::TVar(variable) => mixed(before, number_of(Elem::Var(*variable))),
        Shape::Fun(takes, gives) => {
            let trace = of_type(takes, mixed(before, 2));
            of_type(gives, trace)
        }
        Shape::TFun(bound, gives) => {
            let trace = of_shape(bound, mixed(before, 3));
            of_type(gives, trace)
        }
        Shape::Boxed(content) => of_type(content, mixed(before, 4)),
        Shape::Exit(gives) => of_shape(gives, mixed(before, 5)),
    }
}

fn number_of_base(base: Base) -> u32 {
    match base {
        Base::Unit => 6,
        Base::Bool => 7,
        Base::Int => 8,
        Base::Str => 9,
        Base::Console => 10,
        Base::File => 11,
        Base::Counter => 12,
    }
}

/// The number with a variable.
pub(crate) fn with_variable(variable: Var, before: u64) -> u64 {
    mixed(before, number_of(Elem::Var(variable)))
}

/// The number with a set.
pub(crate) fn with_set(set: &CapSet, before: u64) -> u64 {
    of_set(set, before)
}

/// The number with a shape.
pub(crate) fn with_shape(shape: &Shape, before: u64) -> u64 {
    of_shape(shape, before)
}

/// The number of a variable with a shape.
pub(crate) fn trace_of(variable: Var, right: &Shape) -> u64 {
    of_shape(right, u64::from(number_of(Elem::Var(variable))))
}

// So many of the first parts of a shape are looked at for a number of two shapes, and so many of the last ones. More
// would take as long as to compare them.
const PARTS: u32 = 256;

// A number made of parts of shapes, and how many more are looked at.
#[derive(Clone, Copy)]
struct Front {
    trace: u64,
    parts: u32,
}

// With one part more.
fn with_part(front: Front, number: u32) -> Front {
    Front {
        trace: mixed(front.trace, number),
        parts: front.parts.saturating_sub(1),
    }
}

#[cycle(fronts)]
fn front_of_type(ty: &Ty, before: Front) -> Front {
    if before.parts == 0 {
        return before;
    }
    let front = Front {
        trace: of_set(&ty.set, before.trace),
        parts: before.parts,
    };
    front_of_shape(&ty.shape, front)
}

#[cycle(fronts)]
fn front_of_shape(shape: &Shape, before: Front) -> Front {
    if before.parts == 0 {
        return before;
    }
    match shape {
        Shape::Base(base) => with_part(before, number_of_base(*base)),
        Shape::Any => with_part(before, 1),
        Shape::TVar(variable) => with_part(before, number_of(Elem::Var(*variable))),
        Shape::Fun(takes, gives) => {
            let front = front_of_type(takes, with_part(before, 2));
            front_of_type(gives, front)
        }
        Shape::TFun(bound, gives) => {
            let front = front_of_shape(bound, with_part(before, 3));
            front_of_type(gives, front)
        }
        Shape::Boxed(content) => front_of_type(content, with_part(before, 4)),
        Shape::Exit(gives) => front_of_shape(gives, with_part(before, 5)),
    }
}

#[cycle(backs)]
fn back_of_type(ty: &Ty, before: Front) -> Front {
    if before.parts == 0 {
        return before;
    }
    let front = back_of_shape(&ty.shape, before);
    Front {
        trace: of_set(&ty.set, front.trace),
        parts: front.parts,
    }
}

// The last parts come first.
#[cycle(backs)]
fn back_of_shape(shape: &Shape, before: Front) -> Front {
    if before.parts == 0 {
        return before;
    }
    match shape {
        Shape::Base(base) => with_part(before, number_of_base(*base)),
        Shape::Any => with_part(before, 1),
        Shape::TVar(variable) => with_part(before, number_of(Elem::Var(*variable))),
        Shape::Fun(takes, gives) => {
            let front = back_of_type(gives, before);
            back_of_type(takes, with_part(front, 2))
        }
        Shape::TFun(bound, gives) => {
            let front = back_of_type(gives, before);
            back_of_shape(bound, with_part(front, 3))
        }
        Shape::Boxed(content) => with_part(back_of_type(content, before), 4),
        Shape::Exit(gives) => with_part(back_of_shape(gives, before), 5),
    }
}

// The number with the first and the last parts of a shape.
fn with_ends(shape: &Shape, before: u64) -> u64 {
    let front = front_of_shape(
        shape,
        Front {
            trace: before,
            parts: PARTS,
        },
    );
    let back = back_of_shape(
        shape,
        Front {
            trace: front.trace,
            parts: PARTS,
        },
    );
    back.trace
}

/// The number of the first and the last parts of two shapes.
pub(crate) fn trace_of_shapes(left: &Shape, right: &Shape) -> u64 {
    with_ends(right, with_ends(left, 0))
}
