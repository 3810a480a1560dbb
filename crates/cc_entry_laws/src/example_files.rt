//! Worked files. The functions do nothing.
ghost use Rattle.cc_entry_laws.specs.ExampleFiles as example;

/// The verdicts of two texts, and an entry of theirs.
pub fn files()
    ensures { example.MainIsPresent }
{}
