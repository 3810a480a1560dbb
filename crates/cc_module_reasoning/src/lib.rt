//! Why a module is refused, found by going through it once more.
#![tactic(auto)]

pub mod binders;
pub mod definitions;
