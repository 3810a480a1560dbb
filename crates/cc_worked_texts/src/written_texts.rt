//! Texts with types that are written for terms. The functions do nothing.
ghost use Rattle.cc_worked_texts.specs.WrittenTexts as example;

/// A type that is written is that of the term.
pub fn types()
    ensures { example.WrittenTypes }
{}
