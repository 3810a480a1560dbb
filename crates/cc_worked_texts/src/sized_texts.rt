//! Texts with types of the greatest size, and with larger ones. The functions do nothing.
ghost use Rattle.cc_worked_texts.specs.SizedTexts as example;

/// A type that is written may be too large, too.
pub fn written()
    ensures { example.WrittenSizes }
{}

/// A term of each form whose type is too large is refused at its own parenthesis.
pub fn terms()
    ensures { example.SizedTerms }
{}
