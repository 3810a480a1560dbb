//! Reasons of texts that are no modules, with the lines by which they are told. The function does nothing.

ghost use Rattle.cc_text_reasons.specs.TextReasonTextExamples.{WorkedTextReasonLines};

/// The lines of reasons of each kind, with characters of two to six digits and found tokens of each kind.
pub fn worked_text_reason_lines()
    ensures { WorkedTextReasonLines }
{}
