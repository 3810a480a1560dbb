//! Texts that are parts of others: what stands where an expression or a type does, and what has to be there. The functions do nothing.
ghost use Rattle.cc_worked_texts.specs.PartVerdicts as example;

/// Parts that any expression may be, without parentheses.
pub fn any_expressions()
    ensures { example.AnyExpressions }
{}

/// What goes on as far as it can is no operand.
pub fn no_operands()
    ensures { example.NoOperands }
{}

/// Which types have a set, and what they are made of.
pub fn types()
    ensures { example.TypeParts }
{}

/// How sets are written.
pub fn sets()
    ensures { example.SetTexts }
{}

/// Which tokens have to be there; the first that does not go on is refused.
pub fn wanted_tokens()
    ensures { example.WantedTokens }
{}

/// What is an operand wherever one is wanted, without parentheses.
pub fn whole_operands()
    ensures { example.WholeOperands }
{}
