//! Worked reasons: why texts are refused, line by line. The functions do nothing.
#![tactic(auto)]

pub mod definition_rows;
