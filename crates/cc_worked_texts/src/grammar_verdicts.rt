//! Texts whose grammar decides. The functions do nothing.
ghost use Rattle.cc_worked_texts.specs.GrammarVerdicts as example;

/// Operators, prefixes, and the words of shapes and of operations.
pub fn operators()
    ensures { example.OperatorTexts }
{}

/// How operators and prefixes group, each beside the text with its parentheses; the numbers `a` to `d` are parameters.
pub fn groups()
    ensures { example.Groups }
{}

/// Where the tokens of a text begin no module.
pub fn refusals()
    ensures { example.GrammarRefusals }
{}

/// A set behind a type belongs to the innermost type that can take it.
pub fn sets()
    ensures { example.InnermostSets }
{}

/// A tree of height 100 is read, and one of height 101 is refused at the token behind which all are too high.
pub fn heights()
    ensures { example.Heights }
{}
