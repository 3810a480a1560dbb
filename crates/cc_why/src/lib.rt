//! What is answered where it is asked why a module is refused.
#![tactic(auto)]

mod definitions;
mod elaboration;
mod imports;
mod reasons;
pub mod telling;
mod texts;
mod why;
mod writing;

pub use telling::tell_why;
