//! Reasons and verdicts belong together. The functions do nothing.
ghost use Rattle.cc_reasons.specs.CauseLaws.{ExplainedInferenceIsInference, ExplainedDefinitionsAreChecked, ReasonsAreOfRefusals, RefusalsHaveAReason, ReasonsAreUnique};

/// A host that is told why a definition is refused is told what inference found at the place that it names.
pub fn explained_inference_is_inference()
    ensures { ExplainedInferenceIsInference }
{}

/// The same of a definition with what is written for it.
pub fn explained_definitions_are_checked()
    ensures { ExplainedDefinitionsAreChecked }
{}

/// Nothing that is accepted has a reason to be refused, and a reason has the code and the place of the verdict.
pub fn reasons_are_of_refusals()
    ensures { ReasonsAreOfRefusals }
{}

/// Whatever is refused has one.
pub fn refusals_have_a_reason()
    ensures { RefusalsHaveAReason }
{}

/// And one alone, so a host that is told it need not look for another.
pub fn reasons_are_unique()
    ensures { ReasonsAreUnique }
{}
