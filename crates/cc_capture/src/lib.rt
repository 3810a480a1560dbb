//! Variables, the elements of capture sets, and capture sets.
#![tactic(auto)]

mod numbers;
pub mod set;
pub mod set_laws;
pub mod var;
mod words;

pub use set::{CapSet, Elems};
pub use var::{Elem, Var, compare_elem, same_elem, same_var};
