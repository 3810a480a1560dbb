//! What all crates speak of: names, places, codes of refusals, devices, literals, operations, and a counter of steps.
#![tactic(auto)]

pub mod code;
pub mod device;
pub mod literal;
pub mod name;
pub mod place;
pub mod steps;
pub mod text;
