//! The import graph of modules.
#![tactic(auto)]

mod bits;
mod closure;
pub mod graph_laws;
pub mod imports;
