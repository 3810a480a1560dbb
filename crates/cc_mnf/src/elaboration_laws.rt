//! The laws of the elaboration of a module. The functions do nothing.
ghost use Rattle.cc_mnf.specs.ElaborationLaws as law;
ghost use Rattle.cc_mnf.specs.Layout as layout;
ghost use Rattle.cc_mnf.specs.NameLaws as names;

/// Each definition of an elaborated module is well formed where it stands, may be a definition, and has its holes in order;
/// there is one for each of the text.
pub fn definitions()
    ensures formed { law.ElaboratedDefinitionsAreWellFormed }
    ensures values { law.RightSidesAreValues }
    ensures holes { law.HolesOfDefinitionsAreOfParameters }
    ensures in_order { law.DefinitionsAreElaboratedInOrder }
{}

/// What a module may be refused with. What is refused stays refused, whatever follows, and what follows changes nothing
/// before.
pub fn refusals()
    ensures codes { law.RefusalsHaveTheseCodes }
    ensures stay { names.RefusalsStay }
    ensures beginnings { names.BeginningsAreElaborated }
{}

/// Names differ, and a module is refused for a second name exactly where one stands.
pub fn names()
    ensures differ { names.NamesDiffer }
    ensures second { names.SecondNamesAreRefused }
{}

/// Places and redundant parentheses change no term, no name and no code.
pub fn layout()
    ensures alike { layout.LayoutDoesNotMatter }
{}
