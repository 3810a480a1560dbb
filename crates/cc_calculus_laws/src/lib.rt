//! Laws that say definitions of the calculus in other words, apart from any code. The functions do nothing; each has a
//! law as its contract.
#![tactic(auto)]

pub mod directed_laws;
pub mod least_laws;
pub mod occurring_laws;
