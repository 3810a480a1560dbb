//! What terms look for in the store and on the stack. The function does nothing.
ghost use Rattle.cc_worked_runs.specs.FittingCells.{StuckTermsLackWhatTheyNeed};

/// A step is stuck exactly where the term does not find what it needs.
pub fn stuck_terms_lack_what_they_need()
    ensures { StuckTermsLackWhatTheyNeed }
{}
