//! What is answered to a module with its claims, by code. No inference and no filling is in it.
#![tactic(auto)]

pub mod answered;
pub mod answers;
pub mod claims;
mod definitions;
mod known;
