//! Why an import finds no definition, the first of the shortest circles of imports, and the lines that tell it.
#![tactic(auto)]

pub mod circle;
mod distances;
pub mod lines;
mod marks;
mod places;
pub mod reason;
