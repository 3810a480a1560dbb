//! Why elaboration refuses texts. The functions do nothing.
ghost use Rattle.cc_worked_elaboration.specs.ElaborationRows as example;

/// Worked causes: names that are given twice.
pub fn second_names_told()
    ensures { example.SecondNames }
{}

/// Worked causes: unknown names.
pub fn unknown_names_told()
    ensures { example.UnknownNames }
{}

/// Worked causes: names beyond ASCII.
pub fn other_letters_told()
    ensures { example.OtherLetters }
{}

/// Worked causes: right sides that are no values.
pub fn no_values_told()
    ensures { example.NoValues }
{}

/// Worked causes: sets that may not be omitted.
pub fn omitted_sets_told()
    ensures { example.OmittedSets }
{}
