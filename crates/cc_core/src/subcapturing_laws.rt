//! The laws of subcapturing, which hold of the values that contracts see. The functions do nothing.
ghost use Rattle.cc_core.specs.SubcapturingLaws as law;

/// Subcapturing orders the sets of a context, and has inclusion in it.
pub fn subcapturing_is_an_order()
    ensures reflexive { law.SubcapturingIsReflexive }
    ensures transitive { law.SubcapturingIsTransitive }
    ensures subsets { law.SubsetsSubcapture }
{}

/// What becomes of it where entries are added, made smaller, or taken away.
pub fn subcapturing_in_other_contexts()
    ensures weakens { law.SubcapturingWeakens }
    ensures narrows { law.SubcapturingNarrows }
    ensures strengthens { law.SubcapturingStrengthens }
{}

/// What an element is below.
pub fn subcapturing_of_elements()
    ensures variables { law.SubcapturingOfVariables }
    ensures others { law.SubcapturingOfOthers }
{}

/// The universal capability is hidden by no set without it.
pub fn cap_is_below_no_other()
    ensures { law.CapIsBelowNoOther }
{}
