//! The elaboration of modules: names become variables, and expressions become terms in monadic normal form.
#![tactic(auto)]

pub mod elaborate;
pub mod elaboration_laws;
pub mod error;
mod exprs;
mod operands;
mod scope;
mod stop;
mod types;

pub use elaborate::CoreModule;
pub use error::ElaborateError;
