//! The kinds of tokens that are wanted behind the tokens of a module that has begun.
#![tactic(auto)]

pub mod kind;
mod trying;
pub mod wanted;
pub mod wanted_examples;
pub mod wanted_laws;
