//! What the contract of the top call says: of a source that tells its bytes, where no read and no write fails, and of
//! faults, what is written and how many modules are judged, for all streams.
ghost use Rattle.cc_program.specs.StatusTable.{StatusesShow, JobsHaveSoManyBytes};
ghost use Rattle.cc_program.specs.SoundJobs.{EveryJobIsSound, ShownRunsAreSafe, ShownTasksAreSafe};
ghost use Rattle.cc_program.specs.ExplainedSignatures.{ExplainedSignaturesAreExplained};
ghost use Rattle.cc_program.specs.GuardedRuns.{ShownGuardedRunsArePermitted, RefusedEntriesAreNotPermitted};
ghost use Rattle.cc_program.specs.ReplayedRuns.{AgreeingTracesKeepTheAuthority, DifferencesAreFirst, ShownRunsAreReplayed};
ghost use Rattle.cc_program.specs.SoundReplies.{EveryOutputIsSound};
ghost use Rattle.cc_program.specs.TrueReplies.{RepliesAreTrue};
ghost use Rattle.cc_program.specs.UniqueAnswers.{AnswersAreUnique};
ghost use Rattle.cc_program.specs.VerifiedTexts.{VerifiedTypesAreProved, ShownCertificatesAreValid};
ghost use Rattle.cc_program.specs.Exactness.{AJobIsAnswered, WhatIsNoJobIsRefused, WhatIsTooLongIsRefused, AFaultIsTold, OnlyTheOutputIsWritten, OnlyStaleModulesAreJudged, AWorkloadIsSummarized, AFaultOfAWorkloadIsTold};

/// A job is carried out and its output written whole, unless memory lacks: then a front of it is written.
pub fn a_job_is_answered()
    ensures { AJobIsAnswered }
{}

/// What is no job is refused as such, by its bad line, unless memory lacks, and nothing is written.
pub fn what_is_no_job_is_refused()
    ensures { WhatIsNoJobIsRefused }
{}

/// What is longer than the limit is refused as such, unless memory lacks, and nothing is written.
pub fn what_is_too_long_is_refused()
    ensures { WhatIsTooLongIsRefused }
{}

/// A read failed exactly where the status says so, and so did a write.
pub fn a_fault_is_told()
    ensures { AFaultIsTold }
{}

/// Nothing is written but a front of the output of the job that was read.
pub fn only_the_output_is_written()
    ensures { OnlyTheOutputIsWritten }
{}

/// No module is judged but those that the commands of the job that was read find stale.
pub fn only_stale_modules_are_judged()
    ensures { OnlyStaleModulesAreJudged }
{}

/// The summary of a workload is written whole, unless memory lacks: then a front of it is written.
pub fn a_workload_is_summarized()
    ensures { AWorkloadIsSummarized }
{}

/// With a workload a write failed exactly where the status says so, and no read did.
pub fn a_fault_of_a_workload_is_told()
    ensures { AFaultOfAWorkloadIsTold }
{}

/// The number and the message of each status, written out.
pub fn statuses_show()
    ensures { StatusesShow }
{}

/// How many bytes a job may have, and with how many it is too long.
pub fn jobs_have_so_many_bytes()
    ensures { JobsHaveSoManyBytes }
{}

/// The files of every job are sound, at every moment of it, and each definition that may be run then has one entry.
pub fn every_job_is_sound()
    ensures { EveryJobIsSound }
{}

/// What the replies to the commands of every job say is so, each in the state in which it is given.
pub fn every_output_is_sound()
    ensures { EveryOutputIsSound }
{}

/// What the reply to each question of every job says is true.
pub fn replies_are_true()
    ensures { RepliesAreTrue }
{}

/// What the contract of a call names by its existence is one thing alone.
pub fn answers_are_unique()
    ensures { AnswersAreUnique }
{}

/// What is shown of runs and of tasks is shown of runs of the definitions that are asked for, which are safe.
pub fn shown_runs_are_safe()
    ensures runs { ShownRunsAreSafe }
    ensures tasks { ShownTasksAreSafe }
{}

/// What is shown of guarded runs is shown of runs of the definitions that are asked for, which are safe and which the rules
/// in force permit: each device that is operated is allowed to the module. Where one is refused for that, its entry is not
/// permitted.
pub fn shown_guarded_runs_are_permitted()
    ensures shown { ShownGuardedRunsArePermitted }
    ensures refused { RefusedEntriesAreNotPermitted }
{}

/// What is said to be a valid certificate is one. The lines of a certificate that was shown, each with a line feed, are
/// said to be a valid one, of the signature's type, wherever they are judged.
pub fn shown_certificates_are_valid()
    ensures proved { VerifiedTypesAreProved }
    ensures shown { ShownCertificatesAreValid }
{}

/// Lines that are said to agree with a definition are the trace of a run of its program that is answered from outside, and
/// that is safe; lines that are said to differ first do so at that line. What is shown of a run agrees with its definition.
pub fn shown_runs_are_replayed()
    ensures traces { AgreeingTracesKeepTheAuthority }
    ensures differences { DifferencesAreFirst }
    ensures runs { ShownRunsAreReplayed }
{}

/// Where a signature is explained, an element is in it exactly where it has a line, with a chain of links that leads to it.
pub fn explained_signatures_are_explained()
    ensures { ExplainedSignaturesAreExplained }
{}
