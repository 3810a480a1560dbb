//! Inference of a term: its type, the completed term, and a log of what is asked and may still decide.
#![tactic(auto)]

pub mod infer;

pub use infer::{infer_known, infer_term};
