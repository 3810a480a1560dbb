//! Where expressions and shapes start, and which of two unknown names is refused first. The functions do nothing.
ghost use Rattle.cc_worked_texts.specs.StartPlaces as example;

/// Where each form of expression starts, as the branch of a choice whose shape does not match.
pub fn expressions()
    ensures { example.ExpressionStarts }
{}

/// Where each form of shape starts, as an argument that is not below the bound.
pub fn shapes()
    ensures { example.ShapeStarts }
{}

/// What is refused in parentheses.
pub fn parentheses()
    ensures { example.Parentheses }
{}

/// What is refused first, in the order of the text: a type before a set, and both before what they are written for.
pub fn orders()
    ensures { example.TextOrders }
{}
