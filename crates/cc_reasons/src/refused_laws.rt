//! The reasons of definitions belong to the verdicts of modules. The functions do nothing.
ghost use Rattle.cc_reasons.specs.RefusedLaws.{ReasonsOfDefinitionsAreOfRefusals, RefusedDefinitionsHaveAReason, ReasonsOfDefinitionsAreUnique};

/// The code and the place that a reason comes with are those of the module's verdict.
pub fn reasons_of_definitions_are_of_refusals()
    ensures { ReasonsOfDefinitionsAreOfRefusals }
{}

/// Each module that is refused for one of its definitions has a reason.
pub fn refused_definitions_have_a_reason()
    ensures { RefusedDefinitionsHaveAReason }
{}

/// And no second one.
pub fn reasons_of_definitions_are_unique()
    ensures { ReasonsOfDefinitionsAreUnique }
{}
