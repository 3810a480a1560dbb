//! Subtyping and the comparison of shapes and types. The functions do nothing.
ghost use Rattle.cc_typing_laws.specs.SubtypingLaws as law;

/// Subtyping holds exactly where the comparison has demands and all of them hold.
pub fn subtyping_is_comparison()
    ensures shapes { law.SubtypingIsComparison }
    ensures types { law.SubtypingOfTypesIsComparison }
{}

/// A comparison has one answer: more steps change none, so no two lists of demands, and no list and a mismatch.
pub fn comparison_has_one_answer()
    ensures steps { law.MoreStepsKeepTheAnswer }
    ensures demands { law.DemandsAreUnique }
    ensures mismatch { law.DemandsExcludeMismatch }
    ensures not_below { law.MismatchIsNoSubtype }
{}

/// On a well-formed context and well-formed shapes each comparison ends, after no more steps than the shapes weigh.
pub fn comparison_ends()
    ensures shapes { law.ComparisonEnds }
    ensures steps { law.WeightsAreEnough }
    ensures types { law.ComparisonOfTypesEnds }
{}
