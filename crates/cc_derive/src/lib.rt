//! The canonical derivation of an accepted definition, and those that sets, shapes and types are below each other: built,
//! with equal parts shared, or their nodes counted alone.
#![tactic(auto)]

mod bases;
pub mod definition;
mod ends;
mod exposing;
mod nodes;
mod rows;
pub mod sets;
pub mod shapes;
mod terms;
pub mod trees;
mod variables;

pub use definition::{der_size, derive, derive_filled, has_more_nodes};
pub use sets::derive_sets;
pub use shapes::{derive_shapes, derive_types};
pub use trees::{Making, Parts, Tree};
