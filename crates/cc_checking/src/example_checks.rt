//! Worked examples of checking definitions. The functions do nothing.
ghost use Rattle.cc_checking.specs.ExampleChecks as example;

/// What is refused, with its code and its place.
pub fn refusals()
    ensures wrong_shape_given { example.ConsoleIsNoUnit }
    ensures wrong_head { example.UnitIsNoFunction }
    ensures unavoidable { example.BoundsKeepTheirNames }
    ensures different_bounds { example.BoundsHaveToBeTheSame }
{}

/// What is found and asked, with its places.
pub fn findings()
    ensures sets_of_functions { example.ConsoleGivenAsksThree }
    ensures sets_of_boxes { example.OpeningAsksForASetWithoutCap }
    ensures omitted_sets { example.OmittedSetsAreThoseOfContents }
    ensures recursion { example.RecursionHasItsSignature }
{}

/// Canonical derivations and their sizes.
pub fn canonical_derivations()
    ensures two_nodes { example.IdentityHasTwoNodes }
    ensures fourteen_nodes { example.PrinterHasFourteenNodes }
{}
