//! The reasons of modules belong to their verdicts. The functions do nothing.
ghost use Rattle.cc_module_reasons.specs.ModuleReasons.{ModuleReasonsAreOfRefusals, RefusedModulesHaveAReason, ModuleReasonsAreUnique, AcceptedModulesHaveNoReason};

/// The code and the place that a reason comes with are those of the module's verdict.
pub fn module_reasons_are_of_refusals()
    ensures { ModuleReasonsAreOfRefusals }
{}

/// Each module that is refused has a reason.
pub fn refused_modules_have_a_reason()
    ensures { RefusedModulesHaveAReason }
{}

/// And no second one.
pub fn module_reasons_are_unique()
    ensures { ModuleReasonsAreUnique }
{}

/// A module that is accepted has none.
pub fn accepted_modules_have_no_reason()
    ensures { AcceptedModulesHaveNoReason }
{}
