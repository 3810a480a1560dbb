//! The laws of programs that run together. The functions do nothing.
ghost use Rattle.cc_sound_laws.specs.RunningTogether as law;
ghost use Rattle.cc_sound_laws.specs.SingleRuns.{SingleRunsAreTurns};

/// The programs of entries of typed modules run together, whoever takes the next turn and for as long as they go on: no task
/// is stuck or operates what it does not reach or may not, scopes are kept, each device has its own history, and a task that
/// has its devices alone is where it comes alone.
pub fn programs_run_together()
    ensures { law.ProgramsRunTogether }
{}

/// A run of one program alone is turns of a list of one.
pub fn single_runs_are_turns()
    ensures { SingleRunsAreTurns }
{}
