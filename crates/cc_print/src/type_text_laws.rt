//! The law of the texts of types. The function does nothing.
ghost use Rattle.cc_print.specs.TypeTextLaws.{DifferentTypesHaveDifferentTexts};

/// Different closed types over one list of different names have different texts.
pub fn different_types_have_different_texts()
    ensures { DifferentTypesHaveDifferentTexts }
{}
