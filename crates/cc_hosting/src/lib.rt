//! Running definitions on the devices of a host, where the rules in force permit it.
#![tactic(auto)]

pub mod course_laws;
pub mod hosted_examples;
pub mod hosting;
pub mod texts;
