//! Modules that stand beside others, by example: what is found for their imports, the import graph, and the context and the names before a definition. The functions do nothing.
ghost use Rattle.cc_worked_texts.specs.StandingForms as example;

/// An import for which no definition is found is refused by what is found for it.
pub fn codes_of_imports()
    ensures { example.CodesOfImports }
{}

/// A definition stands behind the devices, what is found for the imports, and the definitions before it, each in order; a recursive one has itself behind these.
pub fn behind_others()
    ensures { example.BehindOthers }
{}

/// The first definition of a name counts.
pub fn first_of_the_name()
    ensures { example.FirstOfTheName }
{}

/// The import graph has the modules among the present texts, with the modules that they import from.
pub fn imports_of_texts()
    ensures { example.ImportsOfTexts }
{}

/// A definition stands in an accepted present module; or else the first of these is missing.
pub fn standing_by_name()
    ensures { example.StandingByName }
{}
