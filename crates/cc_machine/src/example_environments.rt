//! Environments and terms that are read in them, by example. The functions do nothing.
ghost use Rattle.cc_machine.specs.ExampleEnvironments as example;

/// Environments share nodes, and a term is read in one without being changed.
pub fn worked_environments()
    ensures shared { example.EnvironmentsShareNodes }
    ensures terms { example.TermsAreReadInThem }
    ensures sets { example.SetsOfUnboxingsAreRead }
{}
