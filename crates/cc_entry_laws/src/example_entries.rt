//! Worked entries. The functions do nothing.
ghost use Rattle.cc_entry_laws.specs.ExampleEntries as example;

/// The entry of two modules, with its order and its authority, and a definition that has none.
pub fn entries()
    ensures entry { example.MainHasItsEntry }
    ensures none { example.NumbersHaveNone }
{}
