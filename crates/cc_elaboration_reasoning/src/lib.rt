//! Why elaboration refuses a module, found beside the code and the place, and the lines that tell it.
#![tactic(auto)]

mod exprs;
pub mod finding_laws;
mod halt;
pub mod lines;
pub mod modules;
pub mod refusal;
mod right_sides;
mod scope;
mod types;

pub use modules::first_refusal;
pub use refusal::{ElaborationCause, ElaborationRefusal, ExpressionForm, StrictPlace};
