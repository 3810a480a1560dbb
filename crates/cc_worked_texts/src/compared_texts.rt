//! Texts in which one type is compared with another. The functions do nothing.
ghost use Rattle.cc_worked_texts.specs.ComparedTexts as example;

/// Shapes below each other.
pub fn shapes()
    ensures { example.ComparedShapes }
{}

/// Type variables are below themselves, and below what their bounds are below.
pub fn variables()
    ensures { example.ComparedVariables }
{}

/// A function is below another that takes less and gives more.
pub fn functions()
    ensures { example.ComparedFunctions }
{}

/// A type function is below another with the same bound that gives more.
pub fn type_functions()
    ensures { example.ComparedTypeFunctions }
{}

/// Contents of boxes are compared with their sets; exits match where they are equal.
pub fn boxes()
    ensures { example.ComparedBoxes }
{}

/// Sets below each other.
pub fn sets()
    ensures { example.ComparedSets }
{}
