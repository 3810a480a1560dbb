//! Replies to replays. The functions do nothing.
ghost use Rattle.cc_worked_replies.specs.ReplayExamples as example;

/// A function that prints: lines that agree, and others.
pub fn printing_replays()
    ensures { example.PrintingReplays }
{}

/// Lines with an answer that the declared counter would not give, and others.
pub fn ticks_replay()
    ensures { example.TicksReplay }
{}

/// The lines of runs agree.
pub fn runs_replay()
    ensures { example.RunsReplay }
{}

/// Why lines are not replayed.
pub fn refused_replays()
    ensures { example.RefusedReplays }
{}
