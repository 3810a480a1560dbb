//! Texts whose names decide. The functions do nothing.
ghost use Rattle.cc_worked_texts.specs.NameVerdicts as example;

/// No name is given twice, by devices, imports or definitions.
pub fn second_names()
    ensures { example.SecondNames }
{}

/// Names of terms and of types are apart.
pub fn unknown_names()
    ensures { example.UnknownNames }
{}

/// The right side of a definition is a value, and that of a recursive one a function.
pub fn values()
    ensures { example.Values }
{}

/// A set is omitted only at the outside of the type of a parameter, of a `val`, of a choice and of a definition that is not recursive.
pub fn omitted_sets()
    ensures { example.OmittedSets }
{}

/// Names are looked up in the order of the text.
pub fn orders()
    ensures { example.NameOrders }
{}

/// Where a binder is visible.
pub fn scopes()
    ensures { example.Scopes }
{}
