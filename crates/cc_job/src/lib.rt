//! The text of a job, and reading it.
#![tactic(auto)]

pub mod head;
pub mod job;
pub mod job_laws;
pub mod read;
pub mod rules;
