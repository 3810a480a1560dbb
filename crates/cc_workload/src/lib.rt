//! The job of a workload, for measures.
#![tactic(auto)]

pub mod workload;
pub mod workload_laws;
