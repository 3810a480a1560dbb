//! Texts with names, reserved words and symbols. The functions do nothing.
ghost use Rattle.cc_worked_texts.specs.WordVerdicts as example;

/// Which characters names are of.
pub fn names()
    ensures { example.NameTexts }
{}

/// No reserved word is a name.
pub fn reserved()
    ensures { example.ReservedWords }
{}

/// What is close to a word, or a word of other languages, is a name.
pub fn others()
    ensures { example.OtherWords }
{}

/// Which symbols there are, and where they end.
pub fn symbols()
    ensures { example.Symbols }
{}
