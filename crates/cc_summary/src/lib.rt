//! What is kept of a text while it is written, and the summary of the text by it.
#![tactic(auto)]

pub mod counting;
pub mod summary;
pub mod summary_examples;
pub mod tally;
#[cfg(test)]
mod tests;
