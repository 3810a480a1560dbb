//! Replies to runs. The functions do nothing.
ghost use Rattle.cc_worked_replies.specs.RunExamples as example;

/// A function that prints, with as much fuel as it takes, and with less.
pub fn printing_runs()
    ensures { example.PrintingRuns }
{}

/// Why a definition is not run.
pub fn refused_runs()
    ensures { example.RefusedRuns }
{}

/// An exit from the outer one of two boundaries.
pub fn nested_boundaries_run()
    ensures { example.NestedBoundariesRun }
{}

/// A type function, and a box that is opened.
pub fn type_functions_run()
    ensures { example.TypeFunctionsRun }
{}

/// A module with all that it imports, on two devices.
pub fn three_modules_run()
    ensures { example.ThreeModulesRun }
{}

/// An imported name is no definition of the module that imports it.
pub fn imported_names_do_not_run()
    ensures { example.ImportedNamesDoNotRun }
{}

/// A module that is refused has no definition that is run.
pub fn refused_modules_do_not_run()
    ensures { example.RefusedModulesDoNotRun }
{}

/// Two modules with a definition of one name.
pub fn same_names_run()
    ensures { example.SameNamesRun }
{}

/// A run begins with the devices as they are declared, and what they answer is told.
pub fn file_and_counter_run()
    ensures { example.FileAndCounterRun }
{}

/// What runs end with.
pub fn values_are_shown()
    ensures { example.ValuesAreShown }
{}

/// A function whose written set is the universal capability.
pub fn cap_gives_each_device()
    ensures { example.CapGivesEachDevice }
{}
