//! The grammar of modules: the trees, what tokens they stand for, and how tokens are read.
#![tactic(auto)]

pub mod grammar_laws;
