//! The words of a command line: which the system gives, and what they ask for.
#![tactic(auto)]

pub mod given;
pub mod word_laws;
pub mod words;
