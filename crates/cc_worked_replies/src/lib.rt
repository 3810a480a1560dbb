//! Worked replies as text: to commands that put, remove and check modules, to runs, tasks, audits, guards, replays and
//! certificates, and such that show or explain signatures, or show derivations. The functions do nothing; each has what
//! it shows as its contract.
#![tactic(auto)]

pub mod certificates;
pub mod commands;
pub mod derivations;
pub mod explanations;
pub mod outputs;
pub mod policies;
pub mod replays;
pub mod runs;
pub mod signatures;
pub mod started_definitions;
pub mod tasks;
pub mod texts;
pub mod written;
