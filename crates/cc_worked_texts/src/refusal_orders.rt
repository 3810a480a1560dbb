//! What is refused first, where a text has more than one reason. The functions do nothing.
ghost use Rattle.cc_worked_texts.specs.RefusalOrders as example;

/// Operands are named from left to right, before the construct that has them is looked at.
pub fn operands()
    ensures { example.OperandOrders }
{}

/// Each part is compared before the next is looked at, and a definition after its right side.
pub fn parts()
    ensures { example.PartOrders }
{}

/// Sets are judged when all shapes match, the first that is asked first, and before the name of a definition is avoided.
pub fn demands()
    ensures { example.DemandOrders }
{}
