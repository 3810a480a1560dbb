//! Replies to commands that put, remove and check modules and set rules. The functions do nothing.
ghost use Rattle.cc_worked_replies.specs.CommandExamples as example;

/// What is told first of a put that is refused, and what it changes.
pub fn refused_puts()
    ensures first { example.LengthsAreToldFirst }
    ensures unseen { example.RefusedPutsAreNotSeen }
    ensures nothing { example.RefusedPutsChangeNothing }
{}

/// Commands that are not refused.
pub fn commands_are_told()
    ensures { example.CommandsAreTold }
{}

/// A line for each module, in order of name.
pub fn modules_are_checked()
    ensures five { example.FiveModulesAreChecked }
    ensures three { example.ThreeModulesAreChecked }
{}
