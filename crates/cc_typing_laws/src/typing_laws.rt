//! The laws of typing. The functions do nothing.
ghost use Rattle.cc_typing_laws.specs.TypingLaws as law;

/// Typing is kept in longer contexts, where a variable's type becomes smaller, and where variables and shapes are put for
/// the variable of a binder.
pub fn typing_goes_along()
    ensures weakening { law.TypingWeakens }
    ensures narrowing { law.TypingNarrows }
    ensures variable { law.VariablesSubstitute }
    ensures shape { law.ShapesSubstitute }
{}

/// A value captures no more than the set of its type.
pub fn values_capture_their_sets()
    ensures { law.ValuesCaptureTheirSets }
{}

/// The condition that a box's content has no universal capability excludes no type of the content.
pub fn boxes_are_of_any_type_of_their_content()
    ensures { law.BoxesAreOfAnyTypeOfTheirContent }
{}
