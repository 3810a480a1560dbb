//! What omitted sets are filled with, in the right sides that run, by texts. The functions do nothing.
ghost use Rattle.cc_worked_texts.specs.FilledTexts as example;

/// Each omitted set is filled where it was written, in the variables of that place.
pub fn filled_forms()
    ensures { example.FilledForms }
{}

/// Omitted sets of one definition are filled each by what flows into it, however many there are.
pub fn sets_apart()
    ensures { example.SetsApart }
{}
