//! What the text of a module is, and its imports.
#![tactic(auto)]

pub mod imports;
pub mod reading;
