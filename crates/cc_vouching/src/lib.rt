//! Modules that come with certificates of their definitions: when one is vouched for, and else why not, as definitions, and
//! their laws. The functions do nothing; each has a law as its contract.
#![tactic(auto)]

pub mod vouching_laws;
