//! Certificates judged: whether the tree of the nodes is a valid derivation of the term.
#![tactic(auto)]

pub mod answer;
mod claims;
pub mod error;
mod judging;
pub mod judging_laws;
mod passes;
mod places;

pub use answer::{Answer, answer_to};
pub use error::JudgeError;
pub use judging::judge;
