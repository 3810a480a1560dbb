//! The comparison of shapes and types, and the steps of inference: how a context grows, what is asked of the operands of a
//! form, and what is found for it when its parts are known; with a log of what is asked and may still decide.
#![tactic(auto)]

pub mod bases;
pub mod comparing;
pub mod contexts;
mod demand_ends;
pub mod ends;
mod forms;
mod heads;
pub mod instances;
pub mod keeping_laws;
pub mod log;
pub mod operands;
pub mod rows;
mod sizes;
pub mod subtyping;
mod walking;

pub use instances::Instances;
pub use log::Log;
pub use subtyping::{SubtypeError, sub_shape, subtype};
