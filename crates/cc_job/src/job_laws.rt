ghost use Rattle.cc_job.specs.Jobs.{BytesAreAJobOrBad, BytesHaveOneJob, BytesHaveOneBadLine};
ghost use Rattle.cc_job.specs.LimitExamples as limit;
ghost use Rattle.cc_job.specs.JobExamples.{ShortestJob, LongJob, CertificateJob, PolicyJob, TraceJob, NothingIsBad, TwoSpacesAreBad, MinusZeroIsBad, MissingTaskIsBad, LateDeviceIsBad, SecondNameIsBad, ShortTextIsBad, OpenTextIsBad};

/// Bytes are the text of a job, or they have a bad line.
pub fn bytes_are_a_job_or_bad()
    ensures { BytesAreAJobOrBad }
{}

/// Bytes are the text of at most one job.
pub fn bytes_have_one_job()
    ensures { BytesHaveOneJob }
{}

/// Bytes that are no job have one bad line.
pub fn bytes_have_one_bad_line()
    ensures { BytesHaveOneBadLine }
{}

/// Worked jobs.
pub fn worked_jobs()
    ensures shortest { ShortestJob }
    ensures long { LongJob }
    ensures certificate { CertificateJob }
    ensures policy { PolicyJob }
    ensures trace { TraceJob }
{}

/// Bytes that are no job, with their lines.
pub fn worked_refusals()
    ensures nothing { NothingIsBad }
    ensures spaces { TwoSpacesAreBad }
    ensures minus { MinusZeroIsBad }
    ensures task { MissingTaskIsBad }
    ensures device { LateDeviceIsBad }
    ensures name { SecondNameIsBad }
    ensures short { ShortTextIsBad }
    ensures open { OpenTextIsBad }
{}

/// The limits of jobs, each on both of its sides.
pub fn worked_limits()
    ensures schedule { limit.ScheduleLimit }
    ensures entries { limit.EntryLimit }
    ensures no_entry { limit.NoEntry }
    ensures fuel_of_tasks { limit.TasksFuelLimit }
    ensures fuel_of_runs { limit.RunFuelLimit }
    ensures forms_of_fuel { limit.FuelForms }
    ensures forms_of_schedules { limit.ScheduleForms }
    ensures numbers { limit.FileNumberLimit }
    ensures forms_of_numbers { limit.FileNumberForms }
    ensures devices { limit.DeviceLimit }
    ensures lines { limit.TextLineLimit }
    ensures counts { limit.TextLineCounts }
    ensures certificate_lines { limit.CertificateLineLimit }
    ensures certificate_counts { limit.CertificateLineCounts }
    ensures rules { limit.RuleLimit }
    ensures rule_counts { limit.RuleCounts }
    ensures rule_places { limit.RulePlaces }
    ensures rule_forms { limit.RuleForms }
    ensures fuel_of_guards { limit.GuardFuelLimit }
    ensures forms_of_audits { limit.AuditForms }
    ensures fuel_of_replays { limit.ReplayFuelLimit }
    ensures trace_lines { limit.TraceLineLimit }
    ensures trace_counts { limit.TraceLineCounts }
    ensures forms_of_replays { limit.ReplayForms }
    ensures forms_of_explanations { limit.ExplainForms }
{}
