//! What checking a definition means: the comparison of shapes and types, which demands that one set is below
//! another, exposing, the avoidance of variables that go out of scope, and on these inference, fillings of holes, the
//! verdict of a definition, and its canonical derivation. There is no code: other crates meet these definitions.
#![tactic(auto)]

pub mod comparison_examples;
pub mod example_checks;
