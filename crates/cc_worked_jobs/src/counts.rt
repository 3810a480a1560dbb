//! The counts of summaries. The function does nothing.
ghost use Rattle.cc_worked_jobs.specs.CountExamples as example;

/// Counts up to the greatest number of 64 bits, and beyond.
pub fn worked_counts()
    ensures bounded { example.CountsAreBounded }
    ensures great { example.GreatCounts }
    ensures summaries { example.SummariesAreBounded }
{}
