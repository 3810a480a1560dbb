//! The text of replies to commands that put, remove and check modules, show and explain signatures, show and judge
//! certificates, run definitions, audit and guard them by a policy, and compare lines with runs of them.
#![tactic(auto)]

pub mod certificates;
pub mod chains;
pub mod derivations;
pub mod explanations;
mod heads;
pub mod modules;
pub mod policies;
pub mod replays;
pub mod reply_examples;
pub mod reply_laws;
pub mod runs;
pub mod signatures;
pub mod tasks;
pub mod verdicts;
