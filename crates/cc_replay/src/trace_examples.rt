//! Worked replays. The functions do nothing.
ghost use Rattle.cc_replay.specs.TraceExamples as example;

/// Traces that agree.
pub fn answers_come_from_lines()
    ensures { example.AnswersComeFromLines }
{}

/// What is no number of an answer.
pub fn numbers_are_decimal()
    ensures { example.NumbersAreDecimal }
{}

/// Lines that are not the text of the event.
pub fn events_are_compared()
    ensures { example.EventsAreCompared }
{}

/// Ends that are not the trace's, and lines that are missing or too many.
pub fn ends_are_compared()
    ensures { example.EndsAreCompared }
{}

/// Replays with more and with less fuel.
pub fn fuel_is_counted()
    ensures { example.FuelIsCounted }
{}
