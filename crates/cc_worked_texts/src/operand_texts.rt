//! Texts with operators and operations, and what they take and give. The functions do nothing.
ghost use Rattle.cc_worked_texts.specs.OperandTexts as example;

/// Operators take numbers, and give numbers or truths, without a set.
pub fn operators()
    ensures { example.OperatorTypes }
{}

/// Which device each operation is for, what it is given and what it answers.
pub fn operations()
    ensures { example.OperationTypes }
{}

/// The types of literals.
pub fn literals()
    ensures { example.LiteralTypes }
{}

/// A repetition takes a number and a function of numbers that gives nothing.
pub fn repetitions()
    ensures { example.RepetitionTypes }
{}
