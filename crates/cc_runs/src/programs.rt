//! Programs that are linked from modules. The functions do nothing.
ghost use Rattle.cc_runs.specs.LinkLaws as law;
ghost use Rattle.cc_runs.specs.ExampleEntries as example;
ghost use Rattle.cc_runs.specs.ExampleLinks as links;

/// Modules that were checked apart link: the linked store is typed, and each definition stands where its names say, with its
/// signature.
pub fn linked_stores_are_typed()
    ensures typed { law.LinkedStoresAreTyped }
    ensures linked { law.DefinitionsAreLinked }
{}

/// The program of an entry is typed, and its runs are safe, on declared devices and on all others of their shapes.
pub fn entries_run_safely()
    ensures typed { law.EntriesAreTyped }
    ensures declared { law.DeclaredDevicesHaveTheirShapes }
    ensures safe { law.EntriesRunSafely }
{}

/// An entry of two modules, with imports and a recursive definition: it has all that an entry has; what it is linked to, how
/// it runs, and in which order modules stand, by computation.
pub fn worked_entries()
    ensures entry { example.MainIsAnEntry }
    ensures linked { example.MainIsLinked }
    ensures runs { example.MainRuns }
    ensures order { example.ModulesStandInOrder }
{}

/// Modules that have a definition of one name each, with an import from one of them: what they are linked to, and how they
/// run. An entry with every authority, and one with a boundary.
pub fn worked_links()
    ensures linked { links.EqualNamesAreApart }
    ensures runs { links.EqualNamesRunApart }
    ensures entry { links.AppIsAnEntry }
    ensures every { links.CapIsAnEntry }
    ensures boundary { links.BoundaryIsAnEntry }
{}
