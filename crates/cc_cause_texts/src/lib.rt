//! The lines of the causes for which definitions are refused.
#![tactic(auto)]

pub mod cause_lines;
pub mod scene_labels;
mod single_lines;
mod within;
pub mod writing;

pub use writing::write_cause;
