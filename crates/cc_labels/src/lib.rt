//! The texts of elements, sets, shapes and types, where positions have labels that are no identifiers: local variables are
//! told with their places. And lines of words with such types.
#![tactic(auto)]

pub mod labels;
pub mod lines;
pub mod pieces;
pub mod printing;

pub use labels::{Label, Labels};
pub use lines::{Line, write_lines};
pub use pieces::write_type;
