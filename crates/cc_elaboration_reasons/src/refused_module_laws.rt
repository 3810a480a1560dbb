//! The causes of refusals of elaboration belong to the verdicts of modules. The functions do nothing.
ghost use Rattle.cc_elaboration_reasons.specs.RefusedModules.{CausesAreOfVerdicts, RefusedModulesHaveACause, CausesOfModulesAreUnique};

/// A host that is told why a text is refused is told of the module's verdict.
pub fn causes_are_of_verdicts()
    ensures { CausesAreOfVerdicts }
{}

/// Whatever text is refused for its names or its normal form has a cause.
pub fn refused_modules_have_a_cause()
    ensures { RefusedModulesHaveACause }
{}

/// And one alone.
pub fn causes_of_modules_are_unique()
    ensures { CausesOfModulesAreUnique }
{}
