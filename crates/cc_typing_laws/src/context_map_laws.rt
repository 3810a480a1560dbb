//! Maps of one context into another. The functions do nothing.
ghost use Rattle.cc_typing_laws.specs.ContextMapLaws as law;

/// Subcapturing and subtyping are kept along each map of contexts.
pub fn maps_keep_subtyping()
    ensures subcapturing { law.SubcapturingAlongMaps }
    ensures subtyping { law.SubtypingAlongMaps }
    ensures types { law.SubtypingOfTypesAlongMaps }
    ensures under_binders { law.MapsGoUnderBinders }
    ensures entries { law.EntriesMakeAMap }
{}

/// The maps that the rules use.
pub fn maps_of_contexts()
    ensures longer { law.LongerContextIsAMap }
    ensures renaming { law.RenamingIsAMap }
    ensures variable { law.VariableForAVariable }
    ensures shape { law.ShapeForATypeVariable }
    ensures smaller { law.SmallerTypeForALargerOne }
{}

/// What follows for subtyping in other contexts.
pub fn subtyping_in_other_contexts()
    ensures weakens { law.SubtypingWeakens }
    ensures narrows { law.SubtypingNarrows }
    ensures renames { law.SubtypingRenames }
    ensures puts_variables { law.SubtypingPutsVariables }
    ensures puts_shapes { law.SubtypingPutsShapes }
{}
