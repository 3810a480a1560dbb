//! The laws of definitions where they stand. The functions do nothing.
ghost use Rattle.cc_verdicts.specs.StandingLaws as law;

/// What is found by the names of a module and of a definition stands there, what stands there is found, and the texts
/// alone decide it.
pub fn definitions_are_found_where_they_stand()
    ensures stand { law.StandingDefinitionsStand }
    ensures found { law.StandingDefinitionsAreFound }
    ensures of_texts { law.StandingDefinitionsAreOfTexts }
{}

/// A definition is accepted where it stands.
pub fn standing_definitions_are_accepted()
    ensures { law.StandingDefinitionsAreAccepted }
{}
