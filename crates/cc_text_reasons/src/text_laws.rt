//! The reasons of texts that are no modules belong to what the texts are. The functions do nothing.
ghost use Rattle.cc_text_reasons.specs.TextReasonLaws.{TextReasonsAreOfRefusals, RefusedTextsHaveAReason, TextReasonsAreUnique};

/// A text with a reason is no module, with the code and the place that the reason comes with.
pub fn text_reasons_are_of_refusals()
    ensures { TextReasonsAreOfRefusals }
{}

/// Each text that is no module has a reason.
pub fn refused_texts_have_a_reason()
    ensures { RefusedTextsHaveAReason }
{}

/// And no second one.
pub fn text_reasons_are_unique()
    ensures { TextReasonsAreUnique }
{}
