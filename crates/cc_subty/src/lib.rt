//! What comparing shapes and types asks of sets, what it reads of their parts, and the exposing of shapes.
#![tactic(auto)]

pub mod demands;
pub mod exposing;
pub mod parts;

pub use demands::{Demand, Demands};
pub use exposing::expose;
