//! Worked live runs. The functions do nothing.
ghost use Rattle.cc_live.specs.LiveExamples as example;

/// Lines that are answers.
pub fn the_host_answers()
    ensures { example.TheHostAnswers }
{}

/// Events that need no answer, and ends.
pub fn events_are_told()
    ensures { example.EventsAreTold }
{}

/// Lines that are no answers.
pub fn other_lines_break()
    ensures { example.OtherLinesBreak }
{}

/// Runs that the host stops, and runs that wait for it.
pub fn the_host_stops()
    ensures { example.TheHostStops }
{}

/// Live runs with more and with less fuel.
pub fn live_fuel_is_counted()
    ensures { example.LiveFuelIsCounted }
{}
