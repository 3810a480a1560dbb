//! Judging the present modules, each with what is found for its imports. A module that was judged before with the same
//! text and the same findings keeps its verdict.
#![tactic(auto)]

mod carrying;
pub mod dependencies;
pub mod finding_laws;
pub mod findings;
mod found_again;
pub mod grounds;
pub mod importing;
pub mod judging;
pub mod known_graph;
pub mod last;
pub mod names;
mod plans;
pub mod reading;
mod same;
mod staying;
