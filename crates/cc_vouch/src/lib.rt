//! Vouching: what comes of a definition with its certificate, by code. No inference and no filling is in it.
#![tactic(auto)]

pub mod claims;
pub mod definitions;
pub mod differences;
pub mod outcome_laws;
pub mod signature;
