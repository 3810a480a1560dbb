//! The laws of programs of modules that were vouched for. The functions do nothing.
ghost use Rattle.cc_vouched_programs.specs.VouchedPrograms as law;

/// An entry that is linked from modules which were vouched for is one of typed modules.
pub fn vouched_entries_are_entries()
    ensures { law.VouchedEntriesAreEntries }
{}

/// The programs of entries that are linked from modules which were vouched for run together: none is stuck, operates what it
/// does not reach or may not, or leaves a boundary that has ended.
pub fn vouched_programs_run_together()
    ensures { law.VouchedProgramsRunTogether }
{}
