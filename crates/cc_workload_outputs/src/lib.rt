//! What the job of a workload writes. The functions do nothing; each has laws as its contract.
#![tactic(auto)]

pub mod workload_outputs;
