//! Texts with strings: what stands in them, and how long they are. The functions do nothing.
ghost use Rattle.cc_worked_texts.specs.StringVerdicts as example;

/// What stands in strings.
pub fn characters()
    ensures { example.StringCharacters }
{}

/// What stands in no string, which is refused at its opening quote.
pub fn no_strings()
    ensures { example.NoStrings }
{}

/// How long strings are: they have at most 200 characters.
pub fn lengths()
    ensures { example.StringLengths }
{}
