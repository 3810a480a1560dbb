//! Tasks: programs that run interleaved on the same devices.
#![tactic(auto)]

mod task;
pub mod tasks;

pub use tasks::{TaskReport, run_tasks};
