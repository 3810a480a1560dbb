//! The items of a submission: what may be said next, and reading it line by line.
#![tactic(auto)]

pub mod heads;
pub mod hearing;
pub mod so_far;
pub mod submission_reading_laws;
