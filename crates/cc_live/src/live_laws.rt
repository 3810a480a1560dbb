//! What live runs say. The functions do nothing.
ghost use Rattle.cc_live.specs.LiveLaws as law;

/// What was told is not taken back when the host says more, and where no more of its lines are needed they are left.
pub fn more_lines_go_on()
    ensures { law.MoreLinesGoOn }
{}

/// Each live run is one whose devices were answered by the host: its text is what is told of its events, and of how it stands
/// behind them.
pub fn live_runs_are_answered()
    ensures { law.LiveRunsAreAnswered }
{}

/// The live runs of an entry's program ask only devices of the entry's authority, whatever the host says. Their events are
/// well scoped, and they are stuck nowhere.
pub fn live_runs_are_safe()
    ensures { law.LiveRunsAreSafe }
{}

/// The trace of a live run that came to its end agrees when it is replayed with its fuel.
pub fn live_runs_are_replayed()
    ensures { law.LiveRunsAreReplayed }
{}

/// The text of a live run is made of lines that begin with two spaces.
pub fn live_texts_are_lines()
    ensures { law.LiveTextsAreLines }
{}

/// Types and shapes that are written decide no live run.
pub fn alike_live_alike()
    ensures { law.AlikeLiveAlike }
{}
