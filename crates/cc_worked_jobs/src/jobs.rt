//! Whole jobs: what they ask for, and what is written for them.
ghost use Rattle.cc_worked_jobs.specs.WholeJobs as example;

use cc_worked_replies::certificates::certificates_are_judged;

/// Each command once in one job, and each one refused in a job of its own; rules and texts that take the place of
/// others; and no command. The function does nothing.
pub fn whole_jobs()
    ensures carried_out { example.EachCommandIsCarriedOut }
    ensures refused { example.EachCommandIsRefused }
    ensures rules { example.NoRulesDeny }
    ensures last { example.LastOnesCount }
    ensures nothing { example.NoCommandWritesNothing }
{
    certificates_are_judged();
}
