//! The lines of the reason for which a definition is refused.
#![tactic(auto)]

mod captured_lines;
mod filled_sets;
pub mod line_laws;
pub mod reason_lines;
