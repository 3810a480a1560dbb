//! Live runs.

ghost use Rattle.std.specs.Prelude.{◌≡◌, ◌≢◌, ◌+◌, ◌-◌, ◌^◌, ◌<◌, ◌≤◌, ◌++◌, ℕ, List, [], Some, None, IfOk, IsTrue, OnOk, length, option_map};
ghost use Rattle.std.specs.Bool.{MatchBool};
ghost use Rattle.std.specs.Io.KnownBytes.{IsAtEnd};
ghost use Rattle.std.specs.String.{string_bytes};
ghost use Rattle.cc_base.specs.Literals.{literal_of};
ghost use Rattle.cc_device.specs.DeviceViews.{end_of};
ghost use Rattle.cc_io.specs.Pieces.{Streams};
ghost use Rattle.cc_io.specs.Wholes.{ReadAllCause, WriteAllCause};
ghost use Rattle.cc_live.specs.LiveEnds.{ReadsBy, RunsLive, WritesBy};
ghost use Rattle.cc_live.specs.LiveRuns as plain;
ghost use Rattle.cc_live.specs.LiveTurns.{AdvancesTo, HearsLine, SaysOf, StopsSo, TakesTurn, end_line, turn_of};
ghost use Rattle.cc_machine.specs.Asking.{question_in, question_of};
ghost use Rattle.cc_machine.specs.Machines.{count_cells, held_by};
ghost use Rattle.cc_machine.specs.Programs.{start_of};
ghost use Rattle.cc_replay.specs.Replays.{ending_in};
ghost use Rattle.cc_runs.specs.Machine as table;
ghost use Rattle.cc_runs.specs.Runs.{Ends};

use crate::telling::{put_stopped_line, tell_end, tell_event, tell_question};
use cc_base::literal::{Lit, Op};
use cc_device::End;
use cc_io::{ReadAll, Sink, Source, WriteAll, write_all};
use cc_line_reading::lines::LineReader;
use cc_machine::{Machine, Program, Wanted};
use cc_print::Names;
use cc_words::words::signed_of;
use std::alloc::{AllocError, Global};

/// How many bytes a line of the host has at most, with its line feed.
const LIMIT: usize = 4_194_304;

/// Why a live run came to no end.
#[derive(Clone, Copy, Debug, PartialEq, Eq)]
pub enum LiveError {
    /// A read failed.
    ReadFault,
    /// A line of the host is too long.
    TooLong,
    /// There is no memory.
    NoMemory,
    /// A write failed.
    WriteFault,
    /// The input ended where an answer was waited for.
    Ended,
    /// A line of the host is no answer.
    BadLine,
}

// What a line of the host says: an answer that was gone on from, that the run is to stop, or neither.
enum Said {
    Answer,
    Stop,
    Other,
}

// Takes the next line of the host, without its line feed, and counts it. It tells whether there was one.
fn hear<S: Source>(
    alloc: Global,
    reader: &mut LineReader,
    source: &mut S,
    line: &mut Vec<u8>,
    lines: &mut u64,
) -> Result<bool, ReadAll>
    requires count { S.faults source.old < 2 ^ 64 - 1 }
    requires known { IsTrue reader.old.ended → IsAtEnd (S.left source.old) }
    ensures hears { HearsLine reader.old reader.new (S.left source.old) (S.left source.new) lines.old lines.new line.new.items result }
    ensures known { IsTrue reader.new.ended → IsAtEnd (S.left source.new) }
    ensures cause { ReadAllCause (S.faults source.old) (S.faults source.new) result }
{
    line.clear();
    match reader.next_line(alloc, source, &mut *line, LIMIT) {
        Ok(true) => {}
        Ok(false) => return Ok(false),
        Err(error) => return Err(error),
    }
    match lines.checked_add(1) {
        Some(count) => {
            *lines = count;
            let _ = line.pop();
            Ok(true)
        }
        None => Err(ReadAll::NoMemory),
    }
}

// The answer that is unit, if the line is one.
fn unit_of(line: &[u8]) -> Option<Lit>
    ensures { option_map literal_of result ≡ plain.unit_of line.now }
{
    if line == b"ok".as_slice() {
        Some(Lit::Unit)
    } else {
        None
    }
}

// The answer that is a number, if the line is one.
fn number_of(line: &[u8]) -> Option<Lit>
    ensures { option_map literal_of result ≡ plain.number_of line.now }
{
    match signed_of(line) {
        Some(number) => Some(Lit::Int(number)),
        None => None,
    }
}

// The answer to the operation that a line of the host is, if it is one.
fn answer_of(operation: Op, line: &[u8]) -> Option<Lit>
    ensures { option_map literal_of result ≡ plain.answer_of operation line.now }
{
    match operation {
        Op::Print => unit_of(line),
        Op::Say => unit_of(line),
        Op::Read => number_of(line),
        Op::Write => unit_of(line),
        Op::Tick => number_of(line),
    }
}

// Goes on with what a line of the host says to the question.
fn go_on_with(
    alloc: Global,
    machine: &mut Machine,
    wanted: Wanted,
    steps: u32,
    line: &[u8],
    waiting: &mut String,
) -> Result<Said, AllocError>
    requires { Some (question_of wanted) ≡ question_in (table.step (held_by machine.old)) }
    ensures says { IfOk result (λ said. (names : List (List ℕ)) → SaysOf names steps (held_by machine.old) (question_of wanted.entry) line.now (held_by machine.new) (string_bytes waiting.old) (string_bytes waiting.new) said) }
    ensures cells { IfOk result (λ said. count_cells machine.new ≤ count_cells machine.old + 1) }
{
    if line == b"stop".as_slice() {
        put_stopped_line(alloc, waiting, steps)?;
        return Ok(Said::Stop);
    }
    match answer_of(wanted.operation, line) {
        Some(answer) => {
            machine.answer(answer)?;
            Ok(Said::Answer)
        }
        None => Ok(Said::Other),
    }
}

// One step that asks a device of the host: the question is told, and the next line is taken for what it says. It tells
// whether the run goes on.
fn ask<S: Source, K: Sink>(
    alloc: Global,
    machine: &mut Machine,
    wanted: Wanted,
    names: &Names,
    steps: u32,
    waiting: &mut String,
    line: &mut Vec<u8>,
    reader: &mut LineReader,
    source: &mut S,
    lines: &mut u64,
    sink: &mut K,
) -> Result<bool, LiveError>
    requires asked { Some (question_of wanted) ≡ question_in (table.step (held_by machine.old)) }
    requires reads { S.faults source.old < 2 ^ 64 - 1 }
    requires writes { K.faults sink.old < 2 ^ 64 - 1 }
    requires known { IsTrue reader.old.ended → IsAtEnd (S.left source.old) }
    ensures takes { TakesTurn (turn_of names.now.names.items steps (held_by machine.old)) (held_by machine.new) reader.old reader.new (S.left source.old) (S.left source.new) lines.old lines.new (K.written sink.old) (K.written sink.new) (string_bytes waiting.old) (string_bytes waiting.new) result }
    ensures cells { IfOk result (λ on. count_cells machine.new ≤ count_cells machine.old + 1) }
    ensures known { IsTrue reader.new.ended → IsAtEnd (S.left source.new) }
    ensures reads { ReadsBy (S.faults source.old) (S.faults source.new) result }
    ensures writes { WritesBy (K.faults sink.old) (K.faults sink.new) result }
{
    match tell_question(alloc, sink, waiting, names, wanted) {
        Ok(()) => {}
        Err(WriteAll::WriteFault) => return Err(LiveError::WriteFault),
        Err(WriteAll::NoMemory) => return Err(LiveError::NoMemory),
    }
    match hear(alloc, reader, source, &mut *line, lines) {
        Ok(true) => {}
        Ok(false) => return Err(LiveError::Ended),
        Err(ReadAll::ReadFault) => return Err(LiveError::ReadFault),
        Err(ReadAll::TooLong) => return Err(LiveError::TooLong),
        Err(ReadAll::NoMemory) => return Err(LiveError::NoMemory),
    }
    match go_on_with(alloc, machine, wanted, steps, line.as_slice(), waiting) {
        Ok(Said::Answer) => Ok(true),
        Ok(Said::Stop) => Ok(false),
        Ok(Said::Other) => Err(LiveError::BadLine),
        Err(AllocError) => Err(LiveError::NoMemory),
    }
}

// One step that asks no device.
fn advance<K: Sink>(
    alloc: Global,
    machine: &mut Machine,
    names: &Names,
    waiting: &mut String,
    sink: &mut K,
) -> Result<(), WriteAll>
    requires positions { count_cells machine.old < 4294967295 }
    requires unasked { question_in (table.step (held_by machine.old)) ≡ None }
    requires running { table.step (held_by machine.old) ≢ table.Final }
    requires writes { K.faults sink.old < 2 ^ 64 - 1 }
    ensures advances { AdvancesTo names.now.names.items (held_by machine.old) (held_by machine.new) (K.written sink.old) (K.written sink.new) (string_bytes waiting.old) (string_bytes waiting.new) result }
    ensures cells { IfOk result (λ u. count_cells machine.new ≤ count_cells machine.old + 1) }
    ensures cause { WriteAllCause (K.faults sink.old) (K.faults sink.new) result }
{
    match machine.advance() {
        Ok(Some(event)) => tell_event(alloc, sink, waiting, names, &event),
        Ok(None) => Ok(()),
        Err(AllocError) => Err(WriteAll::NoMemory),
    }
}

// One step, with what is heard and told at it. It tells whether the run goes on.
fn follow<S: Source, K: Sink>(
    alloc: Global,
    machine: &mut Machine,
    names: &Names,
    steps: u32,
    waiting: &mut String,
    line: &mut Vec<u8>,
    reader: &mut LineReader,
    source: &mut S,
    lines: &mut u64,
    sink: &mut K,
) -> Result<bool, LiveError>
    requires positions { count_cells machine.old < 4294967295 }
    requires running { table.step (held_by machine.old) ≢ table.Final }
    requires reads { S.faults source.old < 2 ^ 64 - 1 }
    requires writes { K.faults sink.old < 2 ^ 64 - 1 }
    requires known { IsTrue reader.old.ended → IsAtEnd (S.left source.old) }
    ensures takes { TakesTurn (turn_of names.now.names.items steps (held_by machine.old)) (held_by machine.new) reader.old reader.new (S.left source.old) (S.left source.new) lines.old lines.new (K.written sink.old) (K.written sink.new) (string_bytes waiting.old) (string_bytes waiting.new) result }
    ensures cells { IfOk result (λ on. count_cells machine.new ≤ count_cells machine.old + 1) }
    ensures known { IsTrue reader.new.ended → IsAtEnd (S.left source.new) }
    ensures reads { ReadsBy (S.faults source.old) (S.faults source.new) result }
    ensures writes { WritesBy (K.faults sink.old) (K.faults sink.new) result }
{
    if let Some(wanted) = machine.wanted() {
        return ask(
            alloc, machine, wanted, names, steps, waiting, line, reader, source, lines, sink,
        );
    }
    match advance(alloc, machine, names, waiting, sink) {
        Ok(()) => Ok(true),
        Err(WriteAll::WriteFault) => Err(LiveError::WriteFault),
        Err(WriteAll::NoMemory) => Err(LiveError::NoMemory),
    }
}

// Whether a run that has taken so many steps takes another.
fn goes_on(machine: &Machine, steps: u32, fuel: u32) -> bool
    ensures { MatchBool result ((steps < fuel) × (table.step (held_by machine.now) ≢ table.Final)) (table.step (held_by machine.now) ≢ table.Final → fuel ≤ steps) }
{
    steps < fuel && !machine.is_final()
}

// Whether a run that ends so did not come to its end.
fn is_cut_short(end: End) -> bool
    ensures { result ≡ plain.is_cut_short (Ends (end_of end.entry)) }
{
    match end {
        End::Done(_) => false,
        End::OutOfFuel => true,
    }
}

// Tells the end of a run that takes no further step, and all that waits. It tells whether the run was cut short.
fn finish<K: Sink>(
    alloc: Global,
    machine: &Machine,
    names: &Names,
    steps: u32,
    waiting: &mut String,
    sink: &mut K,
) -> Result<bool, WriteAll>
    requires { K.faults sink.old < 2 ^ 64 - 1 }
    ensures streams { Streams (K.written sink.old) (K.written sink.new) (string_bytes waiting.old) [] result (end_line names.now.names.items steps (held_by machine.now)) }
    ensures refused { IfOk result (λ refused. refused ≡ plain.is_cut_short (ending_in (held_by machine.now) (table.step (held_by machine.now)))) }
    ensures cause { WriteAllCause (K.faults sink.old) (K.faults sink.new) result }
{
    let end = machine.end();
    match tell_end(alloc, sink, waiting, names, end, steps) {
        Ok(()) => Ok(is_cut_short(end)),
        Err(error) => Err(error),
    }
}

// Writes all that waits, where the host stopped the run.
fn stop<K: Sink>(sink: &mut K, waiting: &mut String) -> Result<bool, LiveError>
    requires { K.faults sink.old < 2 ^ 64 - 1 }
    ensures stops { StopsSo (K.written sink.old) (K.written sink.new) (string_bytes waiting.old) result }
    ensures writes { WritesBy (K.faults sink.old) (K.faults sink.new) result }
{
    match write_all(sink, waiting.as_bytes()) {
        Ok(()) => Ok(true),
        Err(WriteAll::WriteFault) => Err(LiveError::WriteFault),
        Err(WriteAll::NoMemory) => Err(LiveError::NoMemory),
    }
}

// Runs the machine on the devices of the host until it takes no further step, or so many steps were taken. It tells whether
// the run was cut short.
fn run_machine<S: Source, K: Sink>(
    alloc: Global,
    names: &Names,
    machine: &mut Machine,
    fuel: u32,
    reader: &mut LineReader,
    source: &mut S,
    lines: &mut u64,
    sink: &mut K,
) -> Result<bool, LiveError>
    requires positions { count_cells machine.old + fuel < 4294967296 }
    requires reads { S.faults source.old < 2 ^ 64 - 1 }
    requires writes { K.faults sink.old < 2 ^ 64 - 1 }
    requires known { IsTrue reader.old.ended → IsAtEnd (S.left source.old) }
    ensures runs { RunsLive (plain.live names.now.names.items fuel (held_by machine.old)) reader.old reader.new (S.left source.old) (S.left source.new) lines.old lines.new (K.written sink.old) (K.written sink.new) result }
    ensures known { IsTrue reader.new.ended → IsAtEnd (S.left source.new) }
    ensures reads { ReadsBy (S.faults source.old) (S.faults source.new) result }
    ensures writes { WritesBy (K.faults sink.old) (K.faults sink.new) result }
{
    let mut waiting = String::new(alloc);
    let mut line = Vec::new(alloc);
    let mut steps: u32 = 0;
    while goes_on(&*machine, steps, fuel) {
        match follow(
            alloc,
            &mut *machine,
            names,
            steps,
            &mut waiting,
            &mut line,
            &mut *reader,
            &mut *source,
            &mut *lines,
            &mut *sink,
        ) {
            Ok(true) => {}
            Ok(false) => return stop(sink, &mut waiting),
            Err(error) => return Err(error),
        }
        steps += 1;
    }
    match finish(alloc, &*machine, names, steps, &mut waiting, sink) {
        Ok(refused) => Ok(refused),
        Err(WriteAll::WriteFault) => Err(LiveError::WriteFault),
        Err(WriteAll::NoMemory) => Err(LiveError::NoMemory),
    }
}

/// Runs the program from its start, with so much fuel, on the devices of a host, where these have names. Each operation is
/// told in a line of the sink before the next line of the source is waited for, which is the answer: `ok`, or the number for
/// a reading or a tick. Each line is counted. It tells whether the run was cut short: stopped by the host, or out of fuel.
///
/// `ReadFault`: a read failed, and the count of its faults rose. `TooLong`: a line has more bytes than 4,194,304 with its line
/// feed. `NoMemory`: memory lacked, or lines are too many to be counted. `WriteFault`: a write failed, and the count of its
/// faults rose. `Ended`: nothing is left where an answer is waited for. `BadLine`: the last line is no answer.
pub fn run_live<S: Source, K: Sink>(
    alloc: Global,
    names: &Names,
    program: &Program,
    fuel: u32,
    reader: &mut LineReader,
    source: &mut S,
    lines: &mut u64,
    sink: &mut K,
) -> Result<bool, LiveError>
    requires positions { length (start_of program.now).store + fuel < 4294967296 }
    requires reads { S.faults source.old < 2 ^ 64 - 1 }
    requires writes { K.faults sink.old < 2 ^ 64 - 1 }
    requires known { IsTrue reader.old.ended → IsAtEnd (S.left source.old) }
    ensures runs { RunsLive (plain.live names.now.names.items fuel (start_of program.now)) reader.old reader.new (S.left source.old) (S.left source.new) lines.old lines.new (K.written sink.old) (K.written sink.new) result }
    ensures known { IsTrue reader.new.ended → IsAtEnd (S.left source.new) }
    ensures reads { ReadsBy (S.faults source.old) (S.faults source.new) result }
    ensures writes { WritesBy (K.faults sink.old) (K.faults sink.new) result }
{
    program.starts_soundly();
    match Machine::load(alloc, program) {
        Ok(mut machine) => {
            run_machine(
                alloc,
                names,
                &mut machine,
                fuel,
                reader,
                source,
                lines,
                sink,
            )
        }
        Err(AllocError) => Err(LiveError::NoMemory),
    }
}
