//! The laws of verdicts. The functions do nothing.
ghost use Rattle.cc_verdicts.specs.Readings as readings;
ghost use Rattle.cc_verdicts.specs.ModuleLaws as law;

/// A text is one thing: a module with one tree, or no module, refused at one place.
pub fn readings_are_unique()
    ensures { readings.ATextHasOneReading }
{}

/// A text has one verdict, with what is found for its imports.
pub fn verdicts_of_one_text()
    ensures exist { law.ModuleVerdictsExist }
    ensures unique { law.ModuleVerdictsAreUnique }
{}

/// What an accepted module's definitions are.
pub fn accepted_modules()
    ensures sound { law.AcceptedModulesAreSound }
{}
