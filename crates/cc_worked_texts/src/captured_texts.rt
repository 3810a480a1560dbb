//! What functions capture, by the forms of their bodies. The functions do nothing.
ghost use Rattle.cc_worked_texts.specs.CapturedTexts as example;

/// Each part of a body is captured, and what it captures stands in the type of the function.
pub fn parts()
    ensures { example.CapturedParts }
{}

/// What is not captured.
pub fn not_captured()
    ensures { example.NotCaptured }
{}

/// What a `val` captures: its right side, unless that is a value that is not used, and what is behind it.
pub fn lets()
    ensures { example.CapturedLets }
{}
