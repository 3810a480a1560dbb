//! That what is accepted is vouched for, where it comes with the certificates that are written for it; and that bytes are
//! one submission at most. The functions do nothing; each has a law as its contract.
#![tactic(auto)]

pub mod completeness_laws;
pub mod submission_laws;
