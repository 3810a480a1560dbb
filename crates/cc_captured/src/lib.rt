//! The captured variables of a term, and which terms are values.
#![tactic(auto)]

pub mod captured;
