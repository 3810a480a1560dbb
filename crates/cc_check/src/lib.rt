//! The verdict of one definition.
#![tactic(auto)]

pub mod definition;
pub mod error;
mod found;
pub mod holes;
mod plain;
mod recursive;
pub mod signature;
mod signing;

pub use definition::{check_def, check_known, check_next};
pub use error::CheckError;
