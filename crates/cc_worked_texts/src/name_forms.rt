//! What is a name, by example: each word of the language is none, and what a name begins with and goes on with. The functions do nothing.
ghost use Rattle.cc_worked_texts.specs.NameForms as example;

/// Each word of the language is no name.
pub fn words_are_no_names()
    ensures { example.WordsAreNoNames }
{}

/// A name begins with a letter, and goes on with letters, marks, digits and low lines.
pub fn name_characters()
    ensures { example.NameCharacters }
{}
