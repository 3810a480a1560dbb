//! Policies: rules that allow or deny a module a device, of which the first that matches decides.
#![tactic(auto)]

pub mod policy;
pub mod policy_laws;
