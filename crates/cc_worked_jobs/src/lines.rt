//! What is a line of a job, and what is none. The functions do nothing.
ghost use Rattle.cc_worked_jobs.specs.LineExamples as example;

/// Where a name is wanted, what is none is refused.
pub fn names_in_lines()
    ensures modules { example.ModulesHaveNames }
    ensures derived { example.DerivedDefinitionsHaveNames }
    ensures run { example.RunDefinitionsHaveNames }
    ensures tasks { example.TaskDefinitionsHaveNames }
    ensures audited { example.AuditedDefinitionsHaveNames }
    ensures guarded { example.GuardedDefinitionsHaveNames }
    ensures explained { example.ExplainedDefinitionsHaveNames }
    ensures replayed { example.ReplayedDefinitionsHaveNames }
    ensures devices { example.DevicesHaveNames }
    ensures rules { example.RulesHaveNames }
    ensures text { example.NamesAreText }
    ensures encoded { example.NamesAreEncoded }
    ensures encoded_in_rules { example.RulesAreEncoded }
    ensures alike { example.NamesMayBeAlike }
{}

/// Which numbers a schedule has, and how they are written.
pub fn schedules_in_lines()
    ensures tasks { example.SchedulesHaveTasksAlone }
    ensures words { example.SchedulesAreWords }
{}

/// The words of each line, with one fewer, one more, or in another order.
pub fn words_in_lines()
    ensures modules { example.ModuleCommandsHaveTheirWords }
    ensures definitions { example.DefinitionCommandsHaveTheirWords }
    ensures tasks { example.TaskCommandsHaveTheirWords }
    ensures policies { example.PolicyCommandsHaveTheirWords }
    ensures others { example.OtherCommandsHaveTheirWords }
    ensures devices { example.DevicesHaveTheirWords }
    ensures spaces { example.LinesAreWords }
    ensures bytes { example.TextsAreAnyBytes }
    ensures first { example.JobsHaveTheirFirstLine }
    ensures first_bad { example.FirstBadLineIsTold }
{}
