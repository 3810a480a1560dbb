//! That programs which are linked from modules that were vouched for run together. The functions do nothing; each has a law
//! as its contract.
#![tactic(auto)]

pub mod program_laws;
