//! What constructs become: operands that are no names are named, from left to right, and local names are variables. The functions do nothing.
ghost use Rattle.cc_worked_texts.specs.NamedOperands as example;

/// An operand that is no name is named, outside its construct and inside all that stands around.
pub fn operands()
    ensures { example.Operands }
{}

/// What a name stands for.
pub fn names()
    ensures { example.Names }
{}
