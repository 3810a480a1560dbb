//! Carrying a workload out, of whose replies the summary alone is written.

ghost use Rattle.std.specs.Prelude.{◌≡◌, ◌-◌, ◌^◌, ◌<◌, ◌≤◌, ℕ, List, Option, Some};
ghost use Rattle.cc_io.specs.Wholes.{WriteAllCause, WritesWhole};
ghost use Rattle.cc_summary.specs.Summaries.{summary_text};
ghost use Rattle.cc_program.specs.Outcome.{ends};
ghost use Rattle.cc_program.specs.WorkloadOutcome.{WorkloadOutcome};

use crate::status::Status;
use cc_answers::commands::carry_out;
use cc_base::steps::Steps;
use cc_io::{Sink, WriteAll, write_all};
use cc_summary::counting::CountingSink;
use cc_workload::workload::workload;
use cc_workload::workload_laws::workload_items;
use cc_workload_outputs::workload_outputs::workloads_end_clean;
use std::alloc::{AllocError, Global};
use std::sync::ledger::Ledger;

// Writes the summary of what the sink that counts was given.
fn write_summary<K: Sink>(
    alloc: Global,
    number: u32,
    counting: &CountingSink,
    sink: &mut K,
) -> Result<(), WriteAll>
    requires { K.faults sink.old < 2 ^ 64 - 1 }
    ensures written { (text : List ℕ) → Some text ≡ ⟦<CountingSink as Sink>⟧.written counting.now
        → WritesWhole (K.written sink.old) (K.written sink.new) result (summary_text number text) }
    ensures cause { WriteAllCause (K.faults sink.old) (K.faults sink.new) result }
{
    match counting.summary(alloc, number) {
        Ok(summary) => write_all(sink, summary.as_slice()),
        Err(AllocError) => Err(WriteAll::NoMemory),
    }
}

/// Carries out the job of the workload with the number, into a sink that writes nothing, and writes the summary. None of its
/// replies tells of a refusal.
pub fn summarize<K: Sink, L: Ledger>(
    alloc: Global,
    number: u32,
    sink: &mut K,
    steps: &mut Steps<L>,
) -> Status
    requires number { (1 ≤ number) × (number ≤ 200) }
    requires sink { K.faults sink.old < 2 ^ 64 - 1 }
    ensures { (left : Option (List ℕ)) (read_faults : ℕ) → WorkloadOutcome
        (ends left read_faults (K.written sink.old) (K.faults sink.old) steps.old)
        (ends left read_faults (K.written sink.new) (K.faults sink.new) steps.new)
        number result }
{
    workload_items();
    workloads_end_clean();
    let job = match workload(alloc, number) {
        Ok(job) => job,
        Err(AllocError) => return Status::NoMemory,
    };
    let mut counting = CountingSink::new(alloc);
    match carry_out(alloc, job, &mut counting, steps) {
        Ok(_) => {}
        Err(_) => return Status::NoMemory,
    }
    match write_summary(alloc, number, &counting, sink) {
        Ok(()) => Status::Clean,
        Err(WriteAll::WriteFault) => Status::WriteFault,
        Err(WriteAll::NoMemory) => Status::NoMemory,
    }
}
