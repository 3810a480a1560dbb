//! Rules that bind each linked module: which devices its text names, and which of these it is not allowed.
#![tactic(auto)]

pub mod beyond;
pub mod binding_examples;
pub mod binding_laws;
pub mod naming;
