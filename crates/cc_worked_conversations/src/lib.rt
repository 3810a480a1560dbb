//! Worked conversations with live runs and with questions, line by line. The functions do nothing.
#![tactic(auto)]

pub mod conversations;
pub mod questions;
