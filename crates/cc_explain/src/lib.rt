//! Links between definitions, and the first of the shortest chains along them: why a device is in a signature.
#![tactic(auto)]

pub mod chain;
pub mod chain_laws;
pub mod links;
mod step;
mod steps;
pub mod target;
