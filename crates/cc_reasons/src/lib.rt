//! Why a module is refused, beside the code and the place, as definitions and laws. The functions do nothing.
#![tactic(auto)]

pub mod cause_laws;
pub mod line_laws;
pub mod mismatch_laws;
pub mod refused_laws;
