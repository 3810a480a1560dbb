//! The function does nothing. Its contract is a theorem.
ghost use Rattle.cc_checking_laws.specs.StayingLaws as law;

/// The canonical derivation of an accepted definition stays the same with any greater number of steps.
pub fn derivations_of_definitions()
    ensures { law.DerivationsOfDefinitionsStay }
{}
