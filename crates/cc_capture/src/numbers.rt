// The numbers of elements, which rise in the order of elements.
ghost use Rattle.std.specs.Prelude.{◌≡◌, ◌≤◌};
ghost use Rattle.cc_capture.specs.Numbers as numbers;
ghost use Rattle.cc_capture.specs.declared.var.Elem.TheVariants.{Var as Variable};

use crate::var::{Elem, Var};

// The number of the first bound variable, which has the greatest index.
const FIRST_BOUND: u64 = 4294967296;

// The number of the universal capability.
const CAP: u64 = 8589934592;

#[tactic(auto, unfolding(crate::specs::Numbers::element_number), using(crate::proofs::ElementNumbers::element_at_Free, crate::proofs::ElementNumbers::element_at_Bound_index))]
fn variable_number(var: Var) -> u64
    ensures value { result ≡ numbers.element_number (Variable var) }
    ensures within { result ≤ 12884901888 }
    ensures back { numbers.element_at result ≡ Variable var }
{
    match var {
        Var::Free(position) => u64::from(position),
        Var::Bound(index) => CAP - 1 - u64::from(index),
    }
}

#[tactic(auto, unfolding(crate::specs::Numbers::element_number), using(crate::proofs::ElementNumbers::element_at_Cap, crate::proofs::ElementNumbers::element_at_Hole_number))]
pub fn element_number(elem: Elem) -> u64
    ensures value { result ≡ numbers.element_number elem }
    ensures within { result ≤ 12884901888 }
    ensures back { numbers.element_at result ≡ elem }
{
    match elem {
        Elem::Var(var) => variable_number(var),
        Elem::Cap => CAP,
        Elem::Hole(number) => CAP + 1 + u64::from(number),
    }
}

#[tactic(auto, unfolding(crate::specs::Numbers::element_at))]
pub fn element_at(number: u64) -> Elem
    requires { number ≤ 12884901888 }
    ensures { result ≡ numbers.element_at number }
{
    if number < FIRST_BOUND {
        Elem::Var(Var::Free(number as u32))
    } else if number < CAP {
        Elem::Var(Var::Bound((CAP - 1 - number) as u32))
    } else if number == CAP {
        Elem::Cap
    } else {
        Elem::Hole((number - CAP - 1) as u32)
    }
}
