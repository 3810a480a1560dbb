//! Worked texts. The functions do nothing.
ghost use Rattle.cc_sound_laws.specs.ExampleTexts as example;

/// An entry of two accepted modules, a module whose second definition has no type, and one that imports from none.
pub fn texts()
    ensures accepted { example.MainIsAccepted }
    ensures untyped { example.UnitsAreNoFunctions }
    ensures imports { example.ImportsWantEarlierModules }
{}
