//! Certificates in which a term is widened, with what is found of them: by each rule for sets, shapes and types, and
//! with each condition of the rule that alone does not hold. The functions do nothing.
ghost use Rattle.cc_certificate_examples.specs.ComparisonCertificates as example;

/// The set of one element is below a set that has it, or that its declared set is below; any other set is by a
/// premise for each of its elements, in their order.
pub fn sets_below_sets()
    ensures { example.SetsBelowSets }
{}

/// Each rule for shapes, where it serves and where it does not.
pub fn shapes_below_shapes()
    ensures { example.ShapesBelowShapes }
{}

/// What the right function takes is below what the left one does, and what the left one gives is below what the right
/// one does, under the parameter of the right one.
pub fn functions_below_functions()
    ensures { example.FunctionsBelowFunctions }
{}

/// Type functions have one bound, and what they give compares under it; boxes compare by their contents.
pub fn type_functions_and_boxes()
    ensures { example.TypeFunctionsAndBoxes }
{}

/// Types compare by their sets and then by their shapes, and each comparison is of its own kind.
pub fn types_below_types()
    ensures { example.TypesBelowTypes }
{}
