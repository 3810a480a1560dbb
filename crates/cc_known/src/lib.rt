//! What is known when a term is gone through: what was found for a part, what is known of its shape, and which comparisons
//! need not be made again.
#![tactic(auto)]

pub mod again_laws;
pub mod bases;
pub mod compared;
pub mod ended;
pub mod fillable;
pub mod found;
pub mod keys;
pub mod known;
pub mod marked;
pub mod measures;
pub mod names;
pub mod needless;
mod pairs;
pub mod steps;
pub mod stop;
mod traces;

pub use found::Found;
pub use measures::{Measure, Measures};
pub use stop::Stop;
