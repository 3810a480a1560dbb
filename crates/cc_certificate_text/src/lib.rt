//! Certificates: the texts of derivations, as bytes, and what they say.
#![tactic(auto)]

pub mod bad_line_laws;
