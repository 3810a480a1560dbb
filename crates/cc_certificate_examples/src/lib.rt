//! Worked certificates, their parts, and canonical derivations by example. The functions do nothing; each has what it
//! shows as its contract.
#![tactic(auto)]

pub mod canonical_examples;
pub mod certificate_texts;
pub mod claim_forms;
pub mod comparison_certificates;
pub mod height_examples;
pub mod judging_facts;
pub mod line_facts;
pub mod name_examples;
pub mod placed_certificates;
pub mod rule_conditions;
pub mod term_kinds;
pub mod typing_certificates;
