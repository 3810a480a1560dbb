//! Worked heights of shapes, terms and claims. The functions do nothing.
ghost use Rattle.cc_certificate_examples.specs.HeightExamples as example;

/// A shape without parts has the height 1, and any other is one higher than its highest part.
pub fn heights_of_shapes()
    ensures { example.HeightsOfShapes }
{}

/// What is written for a type is as high as its shape; nothing has no height.
pub fn heights_of_notes()
    ensures { example.HeightsOfNotes }
{}

/// A variable and a literal have the height 1, and any other term is one higher than its highest part, be it a variable, a
/// term, a type or a shape.
pub fn heights_of_terms()
    ensures { example.HeightsOfTerms }
{}

/// A claim is as high as the higher one of its sides; sets have no height.
pub fn heights_of_claims()
    ensures { example.HeightsOfClaims }
{}
