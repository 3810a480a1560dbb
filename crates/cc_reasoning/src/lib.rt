//! Explained inference: what inference finds, with the local variables where each thing was asked; or why it is refused.
#![tactic(auto)]

pub mod explain;
mod lasts;
pub mod located;
mod scenes;
pub mod steps;
