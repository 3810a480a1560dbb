//! The items of a conversation: what may be said next, and reading it line by line.
#![tactic(auto)]

pub mod asides;
pub mod reading;
