//! Worked causes: why elaboration refuses texts, line by line. The functions do nothing.
#![tactic(auto)]

pub mod elaboration_rows;
