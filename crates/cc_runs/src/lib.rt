//! The laws of runs, apart from any code: no run of a well-typed program goes wrong. The functions do nothing; each has a
//! law as its contract.
#![tactic(auto)]

pub mod interleavings;
pub mod programs;
pub mod run_examples;
pub mod runs;
pub mod soundness;
