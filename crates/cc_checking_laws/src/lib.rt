//! The laws of checking, apart from any code: inference has at most one outcome, the least filling is below each that serves,
//! an accepted definition has its signature's type, and a refused one has no algorithmic type under any filling; and its
//! canonical derivation is valid. The functions do nothing; each has a law as its contract.
#![tactic(auto)]

pub mod canonical_laws;
pub mod checking_laws;
pub mod example_derivations;
pub mod example_verdicts;
pub mod existence_laws;
pub mod filling_laws;
pub mod inference_laws;
pub mod repetition_laws;
pub mod staying_laws;
