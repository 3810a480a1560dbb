ghost use Rattle.std.specs.Prelude.{◌≡◌, ◌↔◌, ◌-◌, ◌^◌, ◌<◌, map};
ghost use Rattle.std.specs.String.{string_bytes};
ghost use Rattle.cc_arguments.specs.Words.{AsksFor};
ghost use Rattle.cc_program.specs.Calls.{IsCall};
ghost use Rattle.cc_program.specs.Outcome.{Outcome, ends};
ghost use Rattle.cc_program.specs.TrueReplies.{RepliesAreTrue};
ghost use Rattle.cc_program.specs.UniqueAnswers.{AnswersAreUnique};
ghost use Rattle.cc_sound_laws.specs.EntriesByTypes.{PresentEntriesAreAccepted, StartedDefinitionsHaveEntries};
ghost use Rattle.cc_sound_laws.specs.SoundTexts.{PresentTextsAreSound};
ghost use Rattle.cc_sound_laws.specs.VerdictsByTypes.{VerdictsAreByTypes};

use crate::job_laws::{answers_are_unique, replies_are_true};
use crate::status::Status;
use crate::workload::summarize;
use cc_answers::commands::carry_out;
use cc_arguments::words::{Asked, asked_by};
use cc_base::steps::Steps;
use cc_io::{ReadAll, Sink, Source, WriteAll, read_all};
use cc_job::job::JobError;
use cc_job::read::read_job;
use cc_sound_laws::text_laws::{
    entries_are_by_types, present_texts_are_sound, verdicts_are_by_types,
};
use std::alloc::Global;
use std::sync::ledger::Ledger;

/// The greatest number of bytes of a job.
pub const JOB_LIMIT: usize = 4_194_304;

// Reads the job of the source, carries it out, and writes the replies. Nothing is written before the job is read.
fn carry_out_source<S: Source, K: Sink, L: Ledger>(
    alloc: Global,
    source: &mut S,
    sink: &mut K,
    steps: &mut Steps<L>,
) -> Status
    requires source { S.faults source.old < 2 ^ 64 - 1 }
    requires sink { K.faults sink.old < 2 ^ 64 - 1 }
    ensures { Outcome
        (ends (S.left source.old) (S.faults source.old) (K.written sink.old) (K.faults sink.old) steps.old)
        (ends (S.left source.new) (S.faults source.new) (K.written sink.new) (K.faults sink.new) steps.new)
        result }
{
    let bytes = match read_all(alloc, source, JOB_LIMIT) {
        Ok(bytes) => bytes,
        Err(ReadAll::ReadFault) => return Status::ReadFault,
        Err(ReadAll::TooLong) => return Status::TooLong,
        Err(ReadAll::NoMemory) => return Status::NoMemory,
    };
    let job = match read_job(alloc, &bytes) {
        Ok(job) => job,
        Err(JobError::BadJob { line }) => return Status::BadJob(line),
        Err(JobError::NoMemory) => return Status::NoMemory,
    };
    match carry_out(alloc, job, sink, steps) {
        Ok(false) => Status::Clean,
        Ok(true) => Status::Refusals,
        Err(WriteAll::WriteFault) => Status::WriteFault,
        Err(WriteAll::NoMemory) => Status::NoMemory,
    }
}

/// Carries out what the words ask for, which are those after the program's name.
///
/// With no word it reads the job of the source, carries it out, and writes the replies. With the words of a workload it
/// carries that one's job out, writes the summary of the replies, and leaves the source as it was. Other words touch
/// nothing. The counter counts the modules that are judged.
pub fn capc<S: Source, K: Sink, L: Ledger>(
    alloc: Global,
    words: &[String],
    source: &mut S,
    sink: &mut K,
    steps: &mut Steps<L>,
) -> Status
    requires source { S.faults source.old < 2 ^ 64 - 1 }
    requires sink { K.faults sink.old < 2 ^ 64 - 1 }

    // The words are bad exactly where they ask for nothing.
    ensures words { (result ≡ Status.BadWords) ↔ AsksFor (map string_bytes words.now) Asked.Nothing }

    // Present texts are sound, whatever is written in them: which modules are accepted by their types, that each other one
    // which may be asked for its types has none, and that the programs of accepted modules run together.
    ensures sound { PresentTextsAreSound }

    // What `call` names as verdicts and as entries of present texts are those of `sound`: a verdict is accepted exactly where
    // the module is, as the same definitions; each entry is one of accepted modules; and each definition that a run would not
    // refuse has one.
    ensures verdicts { VerdictsAreByTypes }
    ensures entries { PresentEntriesAreAccepted }
    ensures started { StartedDefinitionsHaveEntries }

    // What the reply to each question of every job says is true: of runs, tasks, guarded runs and audits, of certificates,
    // explanations and replays.
    ensures replies { RepliesAreTrue }

    // What the other clauses name by its existence is one thing alone: what the words ask for, the job of bytes or their
    // bad line, the output of a job, and how many modules it finds stale.
    ensures unique { AnswersAreUnique }

    // What was read and written, and how many modules were judged, by what the words ask for, for each status.
    ensures call { IsCall (source.new ≡ source.old) (sink.new ≡ sink.old)
        (ends (S.left source.old) (S.faults source.old) (K.written sink.old) (K.faults sink.old) steps.old)
        (ends (S.left source.new) (S.faults source.new) (K.written sink.new) (K.faults sink.new) steps.new)
        (map string_bytes words.now) result }
{
    present_texts_are_sound();
    verdicts_are_by_types();
    entries_are_by_types();
    replies_are_true();
    answers_are_unique();
    match asked_by(words) {
        Asked::Job => carry_out_source(alloc, source, sink, steps),
        Asked::Workload(number) => summarize(alloc, number, sink, steps),
        Asked::Nothing => Status::BadWords,
    }
}
