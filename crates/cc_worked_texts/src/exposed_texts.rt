//! Texts in which a type variable stands for its bound. The functions do nothing.
ghost use Rattle.cc_worked_texts.specs.ExposedTexts as example;

/// A head of each form may be of a type variable, whose bound counts, and that of its bound.
pub fn heads()
    ensures { example.ExposedHeads }
{}

/// A head whose bound has another form is refused.
pub fn other_heads()
    ensures { example.OtherHeads }
{}

/// An operand of each construct may be of a type variable whose bound is what is wanted.
pub fn operands()
    ensures { example.ExposedOperands }
{}
