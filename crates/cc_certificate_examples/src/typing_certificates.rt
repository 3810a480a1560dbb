//! Certificates of each rule of typing, with what is found of them: one that is valid, and for each condition of the
//! rule one in which it alone does not hold. The functions do nothing.
ghost use Rattle.cc_certificate_examples.specs.TypingCertificates as example;

/// A variable has its declared shape, and captures itself alone; a literal has its base shape, and captures nothing.
pub fn variables_and_literals()
    ensures { example.VariablesAndLiterals }
{}

/// A function captures what is free in its body, and its result is closed over its parameter; so it is with type
/// functions.
pub fn functions()
    ensures { example.Functions }
{}

/// An argument has exactly the type that the function takes, and takes the place of the parameter in its result; so
/// it is with shapes and bounds.
pub fn applications()
    ensures { example.Applications }
{}

/// A box captures nothing, and is opened under the set of its content; neither is done with the universal capability.
pub fn boxes()
    ensures { example.Boxes }
{}

/// The right side of a let has exactly the type that is written, if one is, and the body stands under a variable of
/// the type that the right side has.
pub fn lets()
    ensures { example.Lets }
{}

/// Both sides of an operator are numbers, whatever they capture, and what it gives captures nothing.
pub fn operators()
    ensures { example.Operators }
{}

/// Both branches of a choice have exactly the type that is written.
pub fn choices()
    ensures { example.Choices }
{}

/// What is repeated is a function from numbers to units that takes and gives nothing that is captured.
pub fn repetitions()
    ensures { example.Repetitions }
{}

/// Each operation is on its device, takes its argument, and answers its base shape.
pub fn operations()
    ensures { example.Operations }
{}

/// A boundary gives what its body has, with nothing captured, and so does what it is left with; its exit is a
/// capability that does not leave it.
pub fn boundaries()
    ensures { example.Boundaries }
{}

/// A term has each type above the one that it has, and no other.
pub fn widening()
    ensures { example.Widening }
{}
