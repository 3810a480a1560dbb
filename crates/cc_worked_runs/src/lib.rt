//! Runs of programs that are given as texts, by computation, whether a check accepts them or not. The functions do
//! nothing; each has worked examples, or a law of steps, as its contract.
#![tactic(auto)]

pub mod cells;
pub mod tasks;
pub mod texts;
