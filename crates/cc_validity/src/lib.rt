//! Judging derivations: whether a node is an instance of its rule, at which places its premises stand, and whether a
//! derivation is valid for a term, or which node breaks its rule.
#![tactic(auto)]

pub mod captures;
pub mod claims;
pub mod comparisons;
mod counting;
pub mod error;
pub mod given;
mod instances;
mod judging;
pub mod places;
pub mod premises;
pub mod side;
pub mod typings;
mod waiting;

pub use error::ValidityError;
pub use judging::valid;
pub use places::{Spot, Spots};
