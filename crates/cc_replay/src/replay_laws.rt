//! What replays say. The functions do nothing.
ghost use Rattle.cc_replay.specs.ReplayLaws as law;

/// A replay agrees exactly where the lines are the trace of a run whose devices are answered from outside.
pub fn agreeing_lines_are_traces()
    ensures { law.AgreeingLinesAreTraces }
{}

/// A replay differs exactly at the first line with which no such trace goes on.
pub fn replays_differ_first()
    ensures { law.ReplaysDifferFirst }
{}

/// Where a replay from a sound configuration agrees, the run of the trace is stuck nowhere, operates only devices that the
/// configuration reaches, and its events lead from the scopes at its start to those at its end.
pub fn agreeing_traces_are_safe()
    ensures { law.AgreeingTracesAreSafe }
{}

/// Where a replay of an entry's program agrees, each device that the trace names lies in the entry's authority, and the
/// events are well scoped.
pub fn agreeing_traces_keep_the_authority()
    ensures { law.AgreeingTracesKeepTheAuthority }
{}

/// The lines that a run on devices gives agree when they are replayed with its fuel.
pub fn runs_are_replayed()
    ensures { law.RunsAreReplayed }
{}

/// So does the text of these lines, where no name and no text has a line feed, and each number has 64 bits.
pub fn written_runs_are_replayed()
    ensures { law.WrittenRunsAreReplayed }
{}

/// Types and shapes that are written decide no replay.
pub fn alike_replay_alike()
    ensures { law.AlikeReplayAlike }
{}
