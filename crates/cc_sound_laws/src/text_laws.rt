//! The laws of present texts. The functions do nothing.
ghost use Rattle.cc_sound_laws.specs.SoundTexts.{PresentTextsAreSound};
ghost use Rattle.cc_sound_laws.specs.VerdictsByTypes.{VerdictsAreByTypes};
ghost use Rattle.cc_sound_laws.specs.EntriesByTypes as entries;

/// Present texts are sound: modules of theirs are accepted one behind another, each other one that may be asked for its types
/// has none, and the programs of all entries of accepted modules run together.
pub fn present_texts_are_sound()
    ensures { PresentTextsAreSound }
{}

/// A present module's verdict is accepted exactly where the module is one of those that are accepted one behind another, as
/// the same definitions, and one that is refused with a code for definitions is refused for its types.
pub fn verdicts_are_by_types()
    ensures { VerdictsAreByTypes }
{}

/// The entry of each definition that a run would not refuse is one of accepted modules, and these are entries of typed ones.
pub fn entries_are_by_types()
    ensures accepted { entries.PresentEntriesAreAccepted }
    ensures exist { entries.StartedDefinitionsHaveEntries }
    ensures typed { entries.AcceptedEntriesAreEntries }
{}
