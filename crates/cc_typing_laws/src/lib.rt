//! The laws of the static definitions, apart from any code: subtyping is the comparison, avoiding is sound, and subtyping
//! and typing are kept by maps of contexts. The functions do nothing; each has a law as its contract.
#![tactic(auto)]

pub mod avoidance_laws;
pub mod context_map_laws;
pub mod exposing_laws;
pub mod inversion_laws;
pub mod mapped_typing_laws;
pub mod subtyping_laws;
pub mod typing_examples;
pub mod typing_laws;
