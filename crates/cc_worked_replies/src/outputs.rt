//! Whole outputs of jobs. The functions do nothing.
ghost use Rattle.cc_worked_replies.specs.OutputExamples as example;

/// A chain of one module and of two is put and checked, its first module changes, and what calls the last one is run.
pub fn chains_are_checked_and_run()
    ensures one { example.OutputOfOneModule }
    ensures two { example.OutputOfTwoModules }
{}
