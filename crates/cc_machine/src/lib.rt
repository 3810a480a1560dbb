//! Programs that can be run, and the runner's machine: a program is loaded, goes on step by step, with one function for
//! each line of the step, and is run.
#![tactic(auto)]

pub mod answers;
pub mod asking;
pub mod calls;
pub mod choices;
pub mod devices;
pub mod endings;
pub mod example_environments;
pub mod growing;
pub mod links;
mod loading;
pub mod machine;
pub mod parts;
pub mod program;
pub mod reading;
pub mod runs;
pub mod scopes;
pub mod stepping;
pub mod values;

pub use asking::Wanted;
pub use links::Link;
pub use machine::Machine;
pub use parts::{Cell, Focus, Frame, Parts, Small};
pub use program::Program;
pub use runs::RunReport;
pub use values::TypedValue;
