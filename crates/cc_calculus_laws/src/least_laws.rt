//! Avoiding the newest variable. The functions do nothing.
ghost use Rattle.cc_calculus_laws.specs.LeastAvoidance as law;

/// Avoiding gives the least type above that does not name the variable, and the greatest one below, where no function
/// at a negative place has it on both sides.
pub fn avoiding_is_least()
    ensures positive { law.AvoidingGivesTheLeastSupertype }
    ensures negative { law.AvoidingGivesTheGreatestSubtype }
    ensures not_on_both_sides { law.NotLeastOnBothSides }
{}
