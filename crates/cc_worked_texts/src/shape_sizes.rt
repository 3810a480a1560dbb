//! The sizes of shapes and types, by numbers. The functions do nothing.
ghost use Rattle.cc_worked_texts.specs.ShapeSizes as example;

/// A leaf has size 1, and every other shape one more than its parts together, whose sets count element by element.
pub fn shapes()
    ensures { example.ShapeSizes }
{}

/// A type has the size of its shape, and one more for each element of its set, whatever that is.
pub fn types()
    ensures { example.TypeSizes }
{}
