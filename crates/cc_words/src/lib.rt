//! Words of a line, the names and numbers that words are, and lines of a text.
#![tactic(auto)]

pub mod lines;
pub mod words;
