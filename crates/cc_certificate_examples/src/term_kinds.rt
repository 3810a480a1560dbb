//! The kinds of variables in terms and shapes, by example. The functions do nothing.
ghost use Rattle.cc_certificate_examples.specs.TermKinds as example;

/// Each part of a term wants a variable of terms or of types.
pub fn parts_have_kinds()
    ensures { example.PartsHaveKinds }
{}

/// Each form of a shape with all parts of the right kinds, and with each of them of a wrong one.
pub fn parts_of_shapes_have_kinds()
    ensures { example.PartsOfShapesHaveKinds }
{}

/// An index counts a binder that was passed, and no entry, in each part of each form.
pub fn indices_have_binders()
    ensures { example.IndicesHaveBinders }
{}
