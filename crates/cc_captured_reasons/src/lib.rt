//! What was captured and is not allowed, and the first of the shortest chains of declared sets from it to an end.
#![tactic(auto)]

pub mod captured;
pub mod chain_laws;
pub mod nearness;
pub mod tellings;
