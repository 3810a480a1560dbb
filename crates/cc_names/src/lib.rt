//! Names that differ, with their positions, found by a table.
#![tactic(auto)]

pub mod names;

pub use names::Names;
