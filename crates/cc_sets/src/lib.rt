//! Subcapturing, decided in one pass over marks on positions.
#![tactic(auto)]

pub mod marks;
pub mod subcapturing;
