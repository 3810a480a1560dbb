//! Running a definition on the devices of a host.

ghost use Rattle.std.specs.Prelude.{◌≡◌, ◌-◌, ◌^◌, ◌<◌, ℕ, List, IsTrue, IfOk};
ghost use Rattle.std.specs.Io.KnownBytes.{IsAtEnd};
ghost use Rattle.std.specs.String.{string_bytes};
ghost use Rattle.cc_answers.specs.KeptEntries.{IsKeptFor};
ghost use Rattle.cc_answers.specs.LinkedPrograms.{IsProgramOf};
ghost use Rattle.cc_hosting.specs.HostedRuns.{course_behind, hosted, RunsHosted, IsTold, RefusesSo};
ghost use Rattle.cc_io.specs.Wholes.{WritesWhole, WriteAllCause};
ghost use Rattle.cc_live.specs.LiveEnds.{ReadsBy, RunsLive, WritesBy};
ghost use Rattle.cc_mnf.specs.ElaboratedModules.{device_names};
ghost use Rattle.cc_replies.specs.Requests.{holding_under};
ghost use Rattle.cc_session.specs.Entries.{entry_of};
ghost use Rattle.cc_verdicts.specs.ModuleLaws.{NamesOfDevicesDiffer};
ghost use Rattle.cc_verdicts.specs.PresentTexts.{ArePresent};

use crate::texts::{beginning, beyond_refusal, refusal};
use cc_answers::kept::{Kept, linked_entry};
use cc_answers::linked::LinkedEntry;
use cc_base::code::Code;
use cc_base::name::Name;
use cc_base::steps::Steps;
use cc_binding::beyond::first_beyond;
use cc_io::{Sink, Source, WriteAll, write_all};
use cc_line_reading::lines::LineReader;
use cc_live::running::{LiveError, run_live};
use cc_policy::policy::Policy;
use cc_print::Names;
use cc_replies::policies::are_allowed;
use cc_session::present_entries::EntryError;
use cc_session::session::Session;
use std::alloc::{AllocError, Global};
use std::sync::ledger::Ledger;

// Writes a text, if there is memory for it.
fn tell<K: Sink>(sink: &mut K, text: Result<String, AllocError>) -> Result<(), LiveError>
    requires { K.faults sink.old < 2 ^ 64 - 1 }
    ensures told { (bytes : List ℕ) → IfOk text (λ it. string_bytes it ≡ bytes)
        → IsTold (K.written sink.old) (K.written sink.new) bytes result }
    ensures reads { (count : ℕ) → ReadsBy count count result }
    ensures writes { WritesBy (K.faults sink.old) (K.faults sink.new) result }
{
    match text {
        Ok(text) => match write_all(sink, text.as_bytes()) {
            Ok(()) => Ok(()),
            Err(WriteAll::WriteFault) => Err(LiveError::WriteFault),
            Err(WriteAll::NoMemory) => Err(LiveError::NoMemory),
        },
        Err(AllocError) => Err(LiveError::NoMemory),
    }
}

// Writes the reply that refuses a run, if there is memory for it.
fn refuse<K: Sink>(sink: &mut K, reply: Result<String, AllocError>) -> Result<bool, LiveError>
    requires { K.faults sink.old < 2 ^ 64 - 1 }
    ensures refuses { (bytes : List ℕ) → IfOk reply (λ it. string_bytes it ≡ bytes)
        → RefusesSo (K.written sink.old) (K.written sink.new) bytes result }
    ensures reads { (count : ℕ) → ReadsBy count count result }
    ensures writes { WritesBy (K.faults sink.old) (K.faults sink.new) result }
{
    match tell(sink, reply) {
        Ok(()) => Ok(true),
        Err(error) => Err(error),
    }
}

// Runs the program of an entry behind what is told before it. 2^32 cells count as want of memory.
fn run_behind<S: Source, K: Sink>(
    alloc: Global,
    names: &Names,
    text: Result<String, AllocError>,
    fuel: u32,
    linked: &LinkedEntry,
    reader: &mut LineReader,
    source: &mut S,
    lines: &mut u64,
    sink: &mut K,
) -> Result<bool, LiveError>
    requires reads { S.faults source.old < 2 ^ 64 - 1 }
    requires writes { K.faults sink.old < 2 ^ 64 - 1 }
    requires known { IsTrue reader.old.ended → IsAtEnd (S.left source.old) }
    requires program { IsProgramOf linked.now.program linked.now.entry }
    ensures runs { (bytes : List ℕ) → IfOk text (λ it. string_bytes it ≡ bytes)
        → RunsLive (course_behind names.now.names.items fuel bytes (entry_of linked.now.entry)) reader.old reader.new (S.left source.old) (S.left source.new)
        lines.old lines.new (K.written sink.old) (K.written sink.new) result }
    ensures known { IsTrue reader.new.ended → IsAtEnd (S.left source.new) }
    ensures reads { ReadsBy (S.faults source.old) (S.faults source.new) result }
    ensures writes { WritesBy (K.faults sink.old) (K.faults sink.new) result }
{
    if !linked.program.has_positions(fuel) {
        return Err(LiveError::NoMemory);
    }
    match tell(&mut *sink, text) {
        Ok(()) => run_live(
            alloc,
            names,
            &linked.program,
            fuel,
            reader,
            source,
            lines,
            sink,
        ),
        Err(error) => Err(error),
    }
}

// Runs the entry of the definition, where the policy permits it and binds each of its modules.
fn run_entry<S: Source, K: Sink>(
    alloc: Global,
    names: &Names,
    session: &Session,
    policy: &Policy,
    module: &Name,
    def: &Name,
    fuel: u32,
    linked: &LinkedEntry,
    reader: &mut LineReader,
    source: &mut S,
    lines: &mut u64,
    sink: &mut K,
) -> Result<bool, LiveError>
    requires reads { S.faults source.old < 2 ^ 64 - 1 }
    requires writes { K.faults sink.old < 2 ^ 64 - 1 }
    requires known { IsTrue reader.old.ended → IsAtEnd (S.left source.old) }
    requires program { IsProgramOf linked.now.program linked.now.entry }
    ensures runs { RunsLive (hosted names.now.names.items policy.now session.now.present «module».now def.now fuel (entry_of linked.now.entry))
        reader.old reader.new (S.left source.old) (S.left source.new) lines.old lines.new (K.written sink.old) (K.written sink.new) result }
    ensures known { IsTrue reader.new.ended → IsAtEnd (S.left source.new) }
    ensures reads { ReadsBy (S.faults source.old) (S.faults source.new) result }
    ensures writes { WritesBy (K.faults sink.old) (K.faults sink.new) result }
{
    let entry = &linked.entry;
    if !are_allowed(policy, &entry.module, names, &entry.authority) {
        return refuse(sink, refusal(alloc, module, def, Code::E37));
    }
    match first_beyond(policy, names, entry) {
        Some((at, device)) => {
            let owner = &entry.modules[at].name;
            refuse(
                sink,
                beyond_refusal(alloc, names, module, def, owner, device),
            )
        }
        None => {
            let text = beginning(alloc, names, session, policy, module, def, &entry.authority);
            run_behind(
                alloc, names, text, fuel, linked, reader, source, lines, sink,
            )
        }
    }
}

// Runs the definition of the module, where the modules are checked.
fn host_checked<S: Source, K: Sink>(
    alloc: Global,
    names: &Names,
    session: &Session,
    kept: &mut Kept,
    policy: &Policy,
    module: &Name,
    def: &Name,
    fuel: u32,
    reader: &mut LineReader,
    source: &mut S,
    lines: &mut u64,
    sink: &mut K,
) -> Result<bool, LiveError>
    requires reads { S.faults source.old < 2 ^ 64 - 1 }
    requires writes { K.faults sink.old < 2 ^ 64 - 1 }
    requires known { IsTrue reader.old.ended → IsAtEnd (S.left source.old) }
    requires checked { IsTrue session.now.checked }
    requires differ { NamesOfDevicesDiffer session.now.devices }
    requires present { ArePresent session.now.present }
    requires kept { IsKeptFor session.now.devices session.now.present kept.old }
    requires names { (names.now.names.items ≡ device_names session.now.devices) × (names.now.locals ≡ 0) }
    ensures runs { RunsHosted session.now.devices (holding_under policy.now session.now.present) «module».now def.now fuel
        reader.old reader.new (S.left source.old) (S.left source.new) lines.old lines.new (K.written sink.old) (K.written sink.new) result }
    ensures kept { IsKeptFor session.now.devices session.now.present kept.new }
    ensures known { IsTrue reader.new.ended → IsAtEnd (S.left source.new) }
    ensures reads { ReadsBy (S.faults source.old) (S.faults source.new) result }
    ensures writes { WritesBy (K.faults sink.old) (K.faults sink.new) result }
{
    match linked_entry(alloc, session, kept, module, def) {
        Ok(linked) => run_entry(
            alloc, names, session, policy, module, def, fuel, &linked, reader, source, lines, sink,
        ),
        Err(EntryError::Refused(refused)) => {
            refuse(sink, refusal(alloc, module, def, refused.code))
        }
        Err(EntryError::NoMemory) => Err(LiveError::NoMemory),
    }
}

/// Runs the definition of the module, where the policy permits it, on the devices of the host: each operation is told in a
/// line of the sink before the next line of the source is waited for, which is the answer. Each line is counted. It tells
/// whether the run was refused, or cut short. What is kept serves again as long as the present modules stay.
///
/// `ReadFault`: a read failed, and the count of its faults rose. `TooLong`: a line has more bytes than 4,194,304 with its line
/// feed. `NoMemory`: memory lacked, as which 2^32 cells count, or lines are too many to be counted. `WriteFault`: a write
/// failed, and the count of its faults rose. `Ended`: nothing is left where an answer is waited for. `BadLine`: the last line
/// is no answer.
pub fn host<S: Source, K: Sink, L: Ledger>(
    alloc: Global,
    names: &Names,
    session: &mut Session,
    kept: &mut Kept,
    policy: &Policy,
    module: &Name,
    def: &Name,
    fuel: u32,
    reader: &mut LineReader,
    source: &mut S,
    lines: &mut u64,
    sink: &mut K,
    steps: &mut Steps<L>,
) -> Result<bool, LiveError>
    requires reads { S.faults source.old < 2 ^ 64 - 1 }
    requires writes { K.faults sink.old < 2 ^ 64 - 1 }
    requires known { IsTrue reader.old.ended → IsAtEnd (S.left source.old) }
    requires differ { NamesOfDevicesDiffer session.old.devices }
    requires present { ArePresent session.old.present }
    requires kept { IsKeptFor session.old.devices session.old.present kept.old }
    requires names { (names.now.names.items ≡ device_names session.old.devices) × (names.now.locals ≡ 0) }
    ensures runs { RunsHosted session.old.devices (holding_under policy.now session.old.present) «module».now def.now fuel
        reader.old reader.new (S.left source.old) (S.left source.new) lines.old lines.new (K.written sink.old) (K.written sink.new) result }
    ensures texts { (session.new.devices ≡ session.old.devices) × (session.new.present ≡ session.old.present) }
    ensures kept { IsKeptFor session.new.devices session.new.present kept.new }
    ensures known { IsTrue reader.new.ended → IsAtEnd (S.left source.new) }
    ensures reads { ReadsBy (S.faults source.old) (S.faults source.new) result }
    ensures writes { WritesBy (K.faults sink.old) (K.faults sink.new) result }
{
    match session.check(steps) {
        Ok(()) => host_checked(
            alloc, names, &*session, kept, policy, module, def, fuel, reader, source, lines, sink,
        ),
        Err(AllocError) => Err(LiveError::NoMemory),
    }
}
