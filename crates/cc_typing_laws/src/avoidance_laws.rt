//! Avoiding a variable in a type. The functions do nothing.
ghost use Rattle.cc_typing_laws.specs.AvoidanceLaws as law;

/// Avoiding is sound: it goes up at positive places and down at negative ones.
pub fn avoiding_is_sound()
    ensures positive { law.AvoidingGivesASupertype }
    ensures negative { law.AvoidingGivesASubtype }
{}

/// What becomes of the position, and when there is no answer.
pub fn avoiding_removes_the_position()
    ensures refused { law.RefusedInInvariantPlaces }
    ensures gone { law.AvoidedIsGone }
    ensures nothing { law.NothingToAvoid }
{}

/// What is avoided is well formed, and without the variable where that is the newest.
pub fn avoiding_keeps_well_formedness()
    ensures kept { law.AvoidingKeepsWellFormedness }
    ensures scope { law.AvoidingLeavesTheScope }
{}
