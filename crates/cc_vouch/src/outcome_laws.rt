//! The law of outcomes. The function does nothing.
ghost use Rattle.cc_vouch.specs.OutcomeLaws as law;

/// What the code answers of a definition is what comes of it by the definitions.
pub fn known_outcomes_are_them()
    ensures { law.KnownOutcomesAreThem }
{}
