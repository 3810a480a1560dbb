//! Why a definition is refused, found by going through it once more: what a step of inference found and wanted, the first
//! demand that the least filling does not serve, or the position that keeps its type from a signature.
#![tactic(auto)]

pub mod definition;
mod definitions;
mod failing;
pub mod reason;
mod recursive;
mod unsigned;
