//! The reasons of imports belong to the verdicts of modules. The functions do nothing.
ghost use Rattle.cc_module_reasons.specs.ImportReasonLaws.{ImportReasonsAreOfRefusals, MissingImportsHaveAReason, ImportReasonsAreUnique};

/// The code and the place that a reason comes with are those of the module's verdict.
pub fn import_reasons_are_of_refusals()
    ensures { ImportReasonsAreOfRefusals }
{}

/// Each module that is refused for one of its imports has a reason.
pub fn missing_imports_have_a_reason()
    ensures { MissingImportsHaveAReason }
{}

/// And no second one.
pub fn import_reasons_are_unique()
    ensures { ImportReasonsAreUnique }
{}
