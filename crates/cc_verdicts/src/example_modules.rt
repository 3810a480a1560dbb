//! Worked verdicts of modules. The functions do nothing.
ghost use Rattle.cc_verdicts.specs.ExampleModules as example;

/// What comes first, and that definitions see those before them.
pub fn verdicts()
    ensures imports { example.FirstImportDecides }
    ensures names { example.ImportsComeBeforeNames }
    ensures second { example.SecondDefinitionIsRefused }
    ensures accepted { example.SecondNamesTheFirst }
{}
