//! How tight each form of an expression is, and how tight an operator wants its operands, by numbers. The functions do nothing.
ghost use Rattle.cc_worked_texts.specs.GrammarLevels as example;

/// The forms that go on as far as they can are loosest, then come operators, then boxing and unboxing, and then what is an operand anywhere.
pub fn levels_of_forms()
    ensures { example.LevelsOfForms }
{}

/// Operators group to the left: the left operand is at least as tight as the operator, and of a comparison tighter.
pub fn levels_of_operands()
    ensures { example.LevelsOfOperands }
{}
