//! Why a text is no module, found where it is refused: a byte, what a token breaks at, or a token and what is wanted there.
#![tactic(auto)]

mod breaks;
pub mod explain;
mod fronts;
pub mod lines;
pub mod reason;
mod texts;
