//! What an action does to each form of shapes, notes and terms, by example; and what opening, closing, renaming, filling, reading and writing do to a variable or an element. The functions do nothing.
ghost use Rattle.cc_worked_texts.specs.ActedForms as example;

/// Every element of a set is acted on; `cap` and holes are no variables.
pub fn acted_sets()
    ensures { example.ActedSets }
{}

/// What functions and type functions give stands under one binder more, and no other part does.
pub fn acted_shapes()
    ensures { example.ActedShapes }
{}

/// What is written for a type is acted on where it stands.
pub fn acted_notes()
    ensures { example.ActedNotes }
{}

/// The bodies of functions, type functions, lets and boundaries stand under one binder more, and no other part does.
pub fn acted_terms()
    ensures { example.ActedTerms }
{}

/// Opening puts a variable, or a shape, for the index that counts the binders above alone; closing makes one position that index; renaming and filling touch positions alone, and holes alone.
pub fn acted_variables()
    ensures { example.ActedVariables }
{}

/// Among five entries, under two binders: the indices that count the entries are those from 2 to 6, the newest entry first.
pub fn read_variables()
    ensures { example.ReadVariables }
{}
