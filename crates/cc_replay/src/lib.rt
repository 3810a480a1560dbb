//! Replays of traces: a run that is compared with the lines of a trace, from which its devices are answered; and the text of
//! what a run may operate, of its events and of its end.
#![tactic(auto)]

pub mod replay_laws;
pub mod replaying;
pub mod run_texts;
pub mod trace_examples;

pub use replaying::{Replayed, replay};
