//! Live runs: runs on the devices of a host. Each operation is a line that is written before the host is waited for, and the
//! host's next line is the answer.
#![tactic(auto)]

pub mod live_examples;
pub mod live_laws;
pub mod running;
pub mod telling;

pub use running::{LiveError, run_live};
