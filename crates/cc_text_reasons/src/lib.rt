//! Why a text is no module, as definitions and laws. The functions do nothing.
#![tactic(auto)]

pub mod text_laws;
pub mod text_reason_examples;
