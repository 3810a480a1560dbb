//! What it means that present files are sound, said by relations alone: which modules are accepted, by directed types, and
//! that the programs of their entries run together; and that the checker's verdicts and its entries are those. The functions
//! do nothing; each has a law as its contract.
#![tactic(auto)]

pub mod definition_laws;
pub mod example_texts;
pub mod running_laws;
pub mod text_laws;
