//! Certificates with what is found of them by the places of their nodes: which names may stand there, and which
//! numbers binders have. The functions do nothing.
ghost use Rattle.cc_certificate_examples.specs.PlacedCertificates as example;

/// On both sides of a claim each name has its binder. A node in which one has none breaks its rule, and its premises
/// have no place, so that none of them is told, even where it would break its rule.
pub fn names_on_both_sides()
    ensures { example.NamesOnBothSides }
{}

/// A name in a set is that of a variable of terms, and a name that stands for a shape is that of a type variable.
pub fn kinds_of_names()
    ensures { example.KindsOfNames }
{}

/// The outermost binders of a claim have the number of the local variables in scope, and those inside the next ones.
pub fn numbers_of_binders()
    ensures { example.NumbersOfBinders }
{}

/// The rules tell where premises stand, also where a node is no instance of its rule; above a node that does not fit
/// its place nothing has one.
pub fn places_of_premises()
    ensures { example.PlacesOfPremises }
{}
