//! Worked jobs: the lines of a job one by one, and whole jobs with what is asked and what is written. The functions do
//! nothing; each has worked examples as its contract.
#![tactic(auto)]

pub mod counts;
pub mod jobs;
pub mod lines;
