//! Reading a source line by line.
#![tactic(auto)]

pub mod lines;
