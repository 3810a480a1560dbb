//! Worked names in claims. The functions do nothing.
ghost use Rattle.cc_certificate_examples.specs.NameExamples as example;

/// Behind two names the first local variable has the position 2, wherever it stands in a shape; names keep theirs.
pub fn placed_shapes()
    ensures { example.PlacedShapes }
{}

/// So it is on both sides of each form of claim.
pub fn placed_claims()
    ensures { example.PlacedClaims }
{}

/// In sets of claims stand those of two names, local variables whose numbers are below 2^32, and the universal capability.
pub fn names_in_sets()
    ensures { example.NamesInSets }
{}

/// Each part of a shape is asked for its names.
pub fn names_in_shapes()
    ensures { example.NamesInShapes }
{}

/// The number of each binder is below 2^32; it is one more where the binder stands in what another one gives, and nowhere
/// else.
pub fn numbers_of_binders()
    ensures { example.NumbersOfBinders }
{}

/// What a function and a type function give stands under one binder more, in its shape and in its set.
pub fn binders_around()
    ensures { example.BindersAround }
{}

/// Both sides of each form of claim are asked.
pub fn names_in_claims()
    ensures { example.NamesInClaims }
{}

/// A function and a type function have a binder; a box and an exit have those of what is inside; on both sides of a claim.
pub fn binders_in_claims()
    ensures { example.BindersInClaims }
{}
