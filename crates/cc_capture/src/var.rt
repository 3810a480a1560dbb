ghost use Rattle.std.specs.Prelude.{◌≡◌};
ghost use Rattle.cc_capture.specs.Elements.{kind_number, rising_number, falling_number, element_order, same_element};
ghost use Rattle.cc_capture.specs.Variables.{same_variable};

use std::cmp::Ordering;

/// A variable: an index that counts binders from the innermost, or a position in the context.
#[derive(Clone, Copy, Debug, PartialEq, Eq)]
pub enum Var {
    Bound(u32),
    Free(u32),
}

/// An element of a capture set: a variable, the universal capability, or a hole (an omitted set of a parameter).
#[derive(Clone, Copy, Debug, PartialEq, Eq)]
pub enum Elem {
    Var(Var),
    Cap,
    Hole(u32),
}

fn kind_number(elem: Elem) -> u32
    ensures { result ≡ kind_number elem }
{
    match elem {
        Elem::Var(Var::Free(_)) => 0,
        Elem::Var(Var::Bound(_)) => 1,
        Elem::Cap => 2,
        Elem::Hole(_) => 3,
    }
}

fn rising_number(elem: Elem) -> u32
    ensures { result ≡ rising_number elem }
{
    match elem {
        Elem::Var(Var::Free(position)) => position,
        Elem::Hole(number) => number,
        _ => 0,
    }
}

fn falling_number(elem: Elem) -> u32
    ensures { result ≡ falling_number elem }
{
    match elem {
        Elem::Var(Var::Bound(index)) => index,
        _ => 0,
    }
}

/// The order of elements: free variables by position, bound variables from the outermost binder inwards, the universal
/// capability, and holes by number.
#[tactic(auto, unfolding(crate::specs::Elements::element_order))]
pub fn compare_elem(left: Elem, right: Elem) -> Ordering
    ensures { result ≡ element_order left right }
{
    kind_number(left)
        .cmp(&kind_number(right))
        .then(rising_number(left).cmp(&rising_number(right)))
        .then(falling_number(right).cmp(&falling_number(left)))
}

/// Whether the two are one element.
#[tactic(auto, unfolding(crate::specs::Elements::same_element))]
pub fn same_elem(left: Elem, right: Elem) -> bool
    ensures { result ≡ same_element left right }
{
    compare_elem(left, right).is_eq()
}

/// Whether the two are one variable.
#[tactic(auto, unfolding(crate::specs::Variables::same_variable))]
pub fn same_var(left: Var, right: Var) -> bool
    ensures { result ≡ same_variable left right }
{
    match (left, right) {
        (Var::Bound(index), Var::Bound(other)) => index == other,
        (Var::Free(position), Var::Free(other)) => position == other,
        _ => false,
    }
}
