//! Worked examples. The functions do nothing.
ghost use Rattle.cc_checking.specs.ComparisonExamples as example;

/// What a comparison demands, in order, and what does not match.
pub fn comparisons()
    ensures one_demand { example.PrintingDemands }
    ensures below_any { example.BoxesAreBelowAny }
    ensures bounds { example.DifferentBoundsMismatch }
    ensures variables { example.VariablesCompareAsTheirBounds }
    ensures functions { example.ParametersGoRightToLeft }
{}

/// A type variable below another is followed to the end.
pub fn exposing()
    ensures { example.ExposingGoesOn }
{}

/// Positive sets are widened, negative ones lose the name, and invariant places stand in the way.
pub fn avoidance()
    ensures widens_and_narrows { example.AvoidingWidensAndNarrows }
    ensures turns_twice { example.AvoidingTurnsTwice }
    ensures bounds { example.BoundsAreNotAvoided }
    ensures exits { example.ExitsAreNotAvoided }
{}
