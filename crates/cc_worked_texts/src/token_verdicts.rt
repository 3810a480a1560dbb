//! Texts whose tokens decide. The functions do nothing.
ghost use Rattle.cc_worked_texts.specs.TokenVerdicts as example;

/// Which characters stand in a string, and how many.
pub fn strings()
    ensures { example.StringTexts }
{}

/// White space, numbers and words.
pub fn others()
    ensures { example.OtherTokens }
{}

/// Tabulator, line feed, carriage return and blank are white space, and nothing else is.
pub fn white_space()
    ensures { example.WhiteSpace }
{}

/// Places count lines, which a line feed ends, and characters.
pub fn lines_and_columns()
    ensures { example.LinesAndColumns }
{}

/// A comment begins with two slashes, and ends before the next line feed or with the text.
pub fn comments()
    ensures { example.Comments }
{}

/// Where a text ends. One that is no module, but begins one, is refused at its end.
pub fn text_ends()
    ensures { example.TextEnds }
{}

/// Numbers are digits, up to 9223372036854775807.
pub fn numbers()
    ensures { example.Numbers }
{}

/// A text that is no UTF-8 is refused at the first byte that is not part of it.
pub fn no_utf8()
    ensures { example.NoUtf8 }
{}
