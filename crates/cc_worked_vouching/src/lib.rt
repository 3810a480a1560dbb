//! Worked submissions: what is vouched for, each reason why something is not, and forged certificates. The functions do
//! nothing; each has a page of rows as its contract.
#![tactic(auto)]

pub mod vouching_examples;
