//! Why elaboration refuses a module, beside the code and the place, as definitions and laws. The functions do nothing.
#![tactic(auto)]

pub mod elaboration_cause_laws;
pub mod refused_module_laws;
