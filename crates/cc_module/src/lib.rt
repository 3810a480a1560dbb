//! The verdict of a module's text.
#![tactic(auto)]

pub mod contexts;
mod definitions;
pub mod finding;
pub mod judgement;
pub mod judging;
pub mod standing;
