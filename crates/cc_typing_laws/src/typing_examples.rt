//! Worked examples. The functions do nothing.
ghost use Rattle.cc_typing_laws.specs.TypingExamples as example;

/// A function that prints may be written with its set, and not with the empty one.
pub fn a_function_has_its_set()
    ensures not_pure { example.PrintingIsNotPure }
    ensures with_its_set { example.PrintingWithItsSet }
{}

/// An exit stays inside its boundary, also in a box.
pub fn exits_stay_inside()
    ensures bare { example.ExitsDoNotLeave }
    ensures boxed { example.BoxesDoNotHideExits }
{}

/// An application of a type function, and two bounds.
pub fn type_functions()
    ensures applied { example.IdentityAtBoxes }
    ensures not_below { example.DifferentBoundsAreNotBelow }
{}

/// What functions give is compared under the right parameter.
pub fn results_of_functions()
    ensures { example.ResultsAreUnderTheRightParameter }
{}

/// A function that prints has its set, and is not pure.
pub fn printers_have_their_set()
    ensures with_its_set { example.PrinterHasItsSet }
    ensures not_pure { example.PrinterIsNotPure }
{}

/// A box is opened under the set of its content, and one whose content set became cap is not opened.
pub fn boxes_are_opened_under_their_sets()
    ensures opened { example.BoxOpensUnderItsSet }
    ensures of_cap { example.BoxOfCapIsNotOpened }
{}

/// A boundary that would give its own exit has no type, bare and in a box; one that uses it inside has.
pub fn boundaries_keep_their_exits()
    ensures inside { example.ExitsInsideAreTyped }
    ensures bare { example.FunctionsDoNotTakeExitsOut }
    ensures boxed { example.BoxesDoNotTakeExitsOut }
{}

/// What is written for the type of a let counts.
pub fn notes_are_heeded()
    ensures { example.NotesAreHeeded }
{}

/// The terms that have no type are well formed.
pub fn refused_terms_are_well_formed()
    ensures { example.RefusedTermsAreWellFormed }
{}
