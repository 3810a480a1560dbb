//! The laws of definitions that are accepted by directed types. The functions do nothing.
ghost use Rattle.cc_sound_laws.specs.DefinedLaws as law;

/// A definition is defined as something where it has a directed type, and is typed then by the rules of the calculus.
pub fn defined_definitions_are_typed()
    ensures directed { law.DefinedWhereDirected }
    ensures typed { law.DefinedDefinitionsAreTyped }
{}

/// What the checker accepts is accepted by its types, as the same value with the same signature, and what it refuses has no
/// type under any filling.
pub fn verdicts_of_definitions_are_by_types()
    ensures accepted { law.AcceptedVerdictsAreByTypes }
    ensures refused { law.RefusedVerdictsHaveNoTypes }
{}

/// A text is a module with a tree exactly where it is read as one.
pub fn module_texts_are_read()
    ensures { law.ModuleTextsAreRead }
{}
