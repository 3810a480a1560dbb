//! What a call does, in bytes and numbers, and how the program ends, in words and texts.
ghost use Rattle.cc_program.specs.CallLaws.{JobsInBytes, BadJobsInBytes, TooLongJobsInBytes, ReadFaultsInBytes, WriteFaultsInBytes, FaultsInNumbers, WorkloadsInBytes, SummariesInBytes, NoWordAsksForTheJob, WorkloadsLeaveTheSource, OtherWordsTouchNothing, BadWordsTouchNothing};
ghost use Rattle.cc_program.specs.JobTexts.{JobsHaveTexts, WorkloadsAreJobs, TextOfOneModule};
ghost use Rattle.cc_program.specs.EndingLaws.{TheNameIsNoWord, NoNameIsNoWord, ThreeWordsAreTwo, ErrorsTouchNothing, KindsInNumbers, MessagesInTexts};

use cc_arguments::word_laws::{words_ask_for_one_thing, worked_words};
use cc_workload::workload_laws::workload_items;
use cc_workload_outputs::workload_outputs::workloads_end_clean;

/// What a call does that carries out the job of its source, where nothing fails: what is left of the bytes, what was
/// written, how many modules were judged, and the number with which the program ends.
pub fn jobs_in_bytes()
    ensures jobs { JobsInBytes }
    ensures bad { BadJobsInBytes }
    ensures too_long { TooLongJobsInBytes }
{}

/// The same where a read or a write fails, and that the number tells of a fault exactly where there was one.
pub fn faults_in_bytes()
    ensures reads { ReadFaultsInBytes }
    ensures writes { WriteFaultsInBytes }
    ensures numbers { FaultsInNumbers }
{}

/// What a call does that carries a workload out, and the summaries of three outputs.
pub fn workloads_in_bytes()
    ensures calls { WorkloadsInBytes }
    ensures summaries { SummariesInBytes }
{
    workloads_end_clean();
}

/// What the words of a call decide, with a source and a sink in memory: with no word the job of the source is carried out,
/// with those of a workload the source is left as it was, and with any other words both are.
pub fn words_decide()
    ensures job { NoWordAsksForTheJob }
    ensures workload { WorkloadsLeaveTheSource }
    ensures others { OtherWordsTouchNothing }
    ensures worked { BadWordsTouchNothing }
{
    words_ask_for_one_thing();
    worked_words();
}

/// The first word that the system gives, the program's name, is none of the call's.
pub fn the_name_is_no_word()
    ensures name { TheNameIsNoWord }
    ensures none { NoNameIsNoWord }
    ensures three { ThreeWordsAreTwo }
{}

/// Where the system gives an error in the place of words, nothing is touched, and the number tells whether memory lacked.
pub fn errors_touch_nothing()
    ensures errors { ErrorsTouchNothing }
    ensures kinds { KindsInNumbers }
{}

/// What is said for each status.
pub fn messages_in_texts()
    ensures { MessagesInTexts }
{}

/// Each job of items that a job may have is that of its text, and so is the job of each workload, whose files are sound.
pub fn jobs_have_texts()
    ensures jobs { JobsHaveTexts }
    ensures workloads { WorkloadsAreJobs }
    ensures one { TextOfOneModule }
{
    workload_items();
}
