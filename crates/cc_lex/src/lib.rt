//! The tokens of a module's text, each with its place.
#![tactic(auto)]

pub mod error;
mod form;
mod kind;
mod known;
pub mod lexer;
mod size;
pub mod token;
pub mod token_laws;
mod words;
