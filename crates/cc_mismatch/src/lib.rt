//! The first parts of two shapes that do not match.
#![tactic(auto)]

pub mod descent;
pub mod mismatch_laws;
pub mod parts;

pub use descent::mismatch;
pub use parts::Parts;
