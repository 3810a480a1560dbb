//! Soundness of runs. The functions do nothing.
ghost use Rattle.cc_runs.specs.Alike as alike;
ghost use Rattle.cc_runs.specs.Soundness as steps;
ghost use Rattle.cc_runs.specs.SoundRuns as runs;
ghost use Rattle.cc_runs.specs.StoreLaws as stores;

/// Progress and preservation: a sound configuration is not stuck, and each step from it leads to a sound one, whatever a
/// device answers.
pub fn steps_are_sound()
    ensures steps { steps.StepsAreSound }
{}

/// Well-typed programs start soundly, and soundness is kept over whole runs.
pub fn programs_are_sound()
    ensures starts { runs.TypedProgramsStartSoundly }
    ensures moves { runs.MovesAreSound }
    ensures kept { runs.SoundnessIsKept }
    ensures never_stuck { runs.SoundStatesNeverGetStuck }
    ensures never_stops { runs.RunsNeverStop }
    ensures are_steps { runs.RunsAreSteps }
{}

/// What a run can come to is what its captured set reaches.
pub fn runs_keep_their_authority()
    ensures operated { runs.OperatedDevicesAreReached }
    ensures reached { runs.ReachNeverGrows }
    ensures authority { runs.EntriesKeepTheirAuthority }
    ensures named { runs.AuthorityIsWhatIsNamed }
{}

/// What a typed store holds in the cell of each shape, and what sets reach through it.
pub fn stores_hold_what_they_say()
    ensures holds { stores.CellsHoldTheirShapes }
    ensures types { stores.ValuesHaveTheirTypes }
    ensures declared { stores.DeclaredSetsReach }
    ensures below { stores.SetsReachWhatIsBelow }
    ensures fitting { runs.FittingIsByShapes }
{}

/// Boundaries are entered and left in order, and each exit finds its scope.
pub fn scopes_are_kept()
    ensures followed { runs.ScopesFollowEvents }
    ensures well_scoped { runs.EventsAreWellScoped }
{}

/// No type or shape that is written in a term decides a step, a run, what is shown, or what is captured.
pub fn annotations_decide_nothing()
    ensures captured { alike.AlikeCaptureTheSame }
    ensures steps { alike.AlikeStepAlike }
    ensures shows { alike.AlikeShowTheSame }
    ensures runs { alike.AlikeRunAlike }
{}
