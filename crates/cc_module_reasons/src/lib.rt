//! Why a module is refused, of whatever kind the reason is, as definitions and laws. The functions do nothing.
#![tactic(auto)]

pub mod import_laws;
pub mod module_laws;
pub mod why_laws;
