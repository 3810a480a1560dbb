//! Derivations as trees of nodes: which rule each node goes by, from which premises, and what it concludes; which nodes
//! break their rules; and the laws of this.
#![tactic(auto)]

pub mod counting;
pub mod derivation;
pub mod validity_laws;

pub use counting::node_count;
pub use derivation::{Claim, Der, Premises, Rule};
