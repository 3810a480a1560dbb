//! Avoiding positions in a type, as where a variable goes out of scope.
#![tactic(auto)]

pub mod avoiding;
pub mod positions;
pub mod sign;
pub mod walking;

pub use avoiding::{AvoidError, avoid, avoid_type};
