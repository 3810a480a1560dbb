//! The text of capture sets, shapes and types, with the names of the free positions.
#![tactic(auto)]

pub mod names;
pub mod pieces;
pub mod printing;
pub mod type_text_laws;

pub use names::Names;
pub use pieces::{shape_text, type_text, write_type};
pub use printing::set_text;
