//! Why a step of inference is refused: what was found where it is, and what was wanted.
#![tactic(auto)]

pub mod causes;
pub mod heads;
pub mod leaf_causes;
pub mod reason;
