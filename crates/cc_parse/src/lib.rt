//! The syntax tree of a module's tokens, or the place where no module goes on.
#![tactic(auto)]

pub mod error;
mod exprs;
mod heads;
mod levels;
pub mod parser;
mod pieces;
mod sets;
mod stop;
pub mod tree;
mod types;
