//! Causes and refusals of elaboration belong together. The functions do nothing.
ghost use Rattle.cc_elaboration_reasons.specs.CauseContents.{RepeatedNamesAreGivenTwice, FormsAreOfRightSides};
ghost use Rattle.cc_elaboration_reasons.specs.ElaborationCauseLaws.{FirstRefusalIsOfElaboration, CausesAreOfRefusals, RefusalsHaveACause, CausesAreUnique, ElaboratedModulesHaveNoCause};

/// A host that is told why a module is refused is told of the place that the refusal names, and of its code.
pub fn first_refusal_is_of_elaboration()
    ensures { FirstRefusalIsOfElaboration }
{}

/// Nothing that is elaborated has a cause, and a cause has the code and the place of the refusal.
pub fn causes_are_of_refusals()
    ensures { CausesAreOfRefusals }
{}

/// Whatever is refused has one.
pub fn refusals_have_a_cause()
    ensures { RefusalsHaveACause }
{}

/// And one alone, so a host that is told it need not look for another.
pub fn causes_are_unique()
    ensures { CausesAreUnique }
{}

/// Whether a module is elaborated can be told from the text's names, sets and right sides alone.
pub fn elaborated_modules_have_no_cause()
    ensures { ElaboratedModulesHaveNoCause }
{}

/// A second name that is told stands at the place of the refusal, and first where that is told.
pub fn repeated_names_are_given_twice()
    ensures { RepeatedNamesAreGivenTwice }
{}

/// A form that is told is that of a right side, which starts at the place of the refusal.
pub fn forms_are_of_right_sides()
    ensures { FormsAreOfRightSides }
{}
