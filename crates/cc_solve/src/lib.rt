//! Least fillings of holes, and which of what is asked a filling fails first.
#![tactic(auto)]

mod ends;
pub mod filling;
pub mod judging;
mod lists;
pub mod solving;
mod spreading;

pub use filling::Filling;
pub use judging::{first_failed, is_served};
pub use solving::solve;
