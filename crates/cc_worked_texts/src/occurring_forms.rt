//! Where something occurs in a shape, by example: in each part of each form alone, and in none; the kinds of what stands there; and which shapes and types are the same. The functions do nothing.
ghost use Rattle.cc_worked_texts.specs.OccurringForms as example;

/// Each part of a form is looked at.
pub fn occurring_parts()
    ensures { example.OccurringParts }
{}

/// Holes are no variables and not `cap`.
pub fn holes()
    ensures { example.Holes }
{}

/// In sets stand variables of terms, `cap` and holes.
pub fn kinds_of_elements()
    ensures { example.KindsOfElements }
{}

/// A position is no index, also where the numbers are one.
pub fn same_variables()
    ensures { example.SameVariables }
{}

/// Shapes are the same where their forms and all their parts are.
pub fn same_shapes()
    ensures { example.SameShapes }
{}
