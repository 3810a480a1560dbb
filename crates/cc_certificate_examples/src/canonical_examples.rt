//! The canonical derivation in each case of its choices, by the lines of its nodes. The functions do nothing.
ghost use Rattle.cc_certificate_examples.specs.CanonicalExamples as example;
ghost use Rattle.cc_certificate_examples.specs.WidenedPremises as widened;

/// A set is below another by each of its elements, in their order. An element is a member where it is one, and else
/// goes by its declared set.
pub fn canonical_sets()
    ensures { example.CanonicalSets }
{}

/// Shapes that are one are below each other by themselves, also the greatest one; any other shape is below the
/// greatest; and else the form of the left one decides.
pub fn canonical_shapes_by_form()
    ensures { example.CanonicalShapes }
{}

/// Types compare by their sets first.
pub fn canonical_types()
    ensures { example.CanonicalTypes }
{}

/// A right side is widened to what is written for it always, and to its signature where that differs.
pub fn canonical_definitions()
    ensures { example.CanonicalDefinitions }
{}

/// The body of a let is widened where avoiding its variable changes the type, and its right side where a type is
/// written.
pub fn canonical_lets()
    ensures { example.CanonicalLets }
{}

/// A head is widened where exposing changes its shape; an operand is widened to the shape that is wanted, and an
/// argument to the type, also where they are the same.
pub fn canonical_operands()
    ensures { widened.CanonicalOperands }
{}

/// What is put into a box is not widened; what is opened is, and so are the body of a boundary and what it is left
/// with.
pub fn canonical_boxes_and_boundaries()
    ensures { widened.CanonicalBoxesAndBoundaries }
{}

/// Where a head is not of the shape that its construct wants, or a choice has no type, the node is no instance of its
/// rule.
pub fn terms_without_a_derivation()
    ensures { widened.TermsWithoutADerivation }
{}
