//! A conversation from its first line to its end.

ghost use Rattle.std.specs.Prelude.{◌≡◌, ◌-◌, ◌^◌, ◌<◌, ◌||◌, ℕ, Bool, false, [], List, Option, IsTrue, IfOk};
ghost use Rattle.std.specs.Io.KnownBytes.{IsAtEnd};
ghost use Rattle.cc_item_reading.specs.ItemReading.{AreDeclared, ReadItemCause};
ghost use Rattle.cc_line_reading.specs.LineReading.{Held};
ghost use Rattle.cc_conversation.specs.Conversations.{Moment};
ghost use Rattle.cc_conversation.specs.Conversed.{Conversed, ends};
ghost use Rattle.cc_conversation.specs.Turns.{HearsFirst, Talks, HearsOrder, Awaits, Waits, CarriesOn, ComesToEnd, IsUnderWay, moment_of, opening, behind_order, AreAlike, StopCause, ending_of};

use crate::saying::Conversation;
use cc_base::device::DeviceDecl;
use cc_base::steps::Steps;
use cc_io::{ReadAll, Sink, Source, WriteAll};
use cc_item_reading::asides::Aside;
use cc_item_reading::reading::{Heard, NotHeard, hear};
use cc_job::job::Command;
use cc_line_reading::lines::LineReader;
use cc_live::running::LiveError;
use std::alloc::{AllocError, Global};
use std::mem::forget;
use std::sync::ledger::Ledger;

/// The greatest number of bytes of the first line, with its line feed.
const LINE_LIMIT: usize = 4_194_304;

/// How a conversation ended.
#[derive(Clone, Copy, Debug, PartialEq, Eq)]
pub enum Ended {
    /// Nothing is left, and no reply was a refusal.
    Clean,
    /// Nothing is left, and a reply was a refusal.
    Refusals,
    /// No conversation goes on with the line of this number.
    BadLine(u64),
    /// A line, or an item, has more bytes than it may.
    TooLong,
    /// A read failed.
    ReadFault,
    /// A write failed.
    WriteFault,
    /// There is no memory.
    NoMemory,
}

/// What is to be answered next.
#[derive(Drop)]
pub enum Order {
    /// A command.
    Command(Command),
    /// Something that a job cannot say.
    Aside(Aside),
}

/// Why a conversation stopped before its end.
#[derive(Clone, Copy, Debug, PartialEq, Eq)]
pub enum Stopped {
    /// Nothing more was heard.
    Hearing(NotHeard),
    /// An answer was not written whole.
    Writing(WriteAll),
    /// What a job cannot say came to no end, or was not answered whole.
    Aside(LiveError),
}

// Reads the first line, which is that of each conversation, and counts it.
fn hear_first<S: Source>(
    alloc: Global,
    reader: &mut LineReader,
    source: &mut S,
    lines: &mut u64,
) -> Result<(), NotHeard>
    requires count { S.faults source.old < 2 ^ 64 - 1 }
    requires known { IsTrue reader.old.ended → IsAtEnd (S.left source.old) }
    requires none { lines.old ≡ 0 }
    ensures heard { HearsFirst reader.old reader.new (S.left source.old) (S.left source.new) lines.new result }
    ensures known { IsTrue reader.new.ended → IsAtEnd (S.left source.new) }
    ensures cause { ReadItemCause (S.faults source.old) (S.faults source.new) result }
{
    let mut line = Vec::new(alloc);
    match reader.next_line(alloc, source, &mut line, LINE_LIMIT) {
        Ok(true) => {
            *lines = 1;
            if line.as_slice() == b"capc 1\n".as_slice() {
                Ok(())
            } else {
                Err(NotHeard::BadLine)
            }
        }
        Ok(false) => Err(NotHeard::CutShort),
        Err(ReadAll::ReadFault) => Err(NotHeard::ReadFault),
        Err(ReadAll::TooLong) => Err(NotHeard::TooLong),
        Err(ReadAll::NoMemory) => Err(NotHeard::NoMemory),
    }
}

// Hears what is said next before the first order: a device is put behind these. It tells what is waited for, where it came.
fn hear_next<S: Source>(
    alloc: Global,
    reader: &mut LineReader,
    source: &mut S,
    devices: &mut Vec<DeviceDecl>,
    lines: &mut u64,
) -> Result<Option<Option<Order>>, NotHeard>
    requires count { S.faults source.old < 2 ^ 64 - 1 }
    requires known { IsTrue reader.old.ended → IsAtEnd (S.left source.old) }
    requires declared { AreDeclared devices.old.items }
    ensures turns { (start : Held) (left before written : Option (List ℕ))
        → Talks start reader.old left (S.left source.old) before written lines.old false (opening devices.old.items)
        → Waits start reader.new left (S.left source.new) before written lines.new (opening devices.new.items) result }
    ensures declared { IfOk result (λ _. AreDeclared devices.new.items) }
    ensures known { IsTrue reader.new.ended → IsAtEnd (S.left source.new) }
    ensures cause { ReadItemCause (S.faults source.old) (S.faults source.new) result }
{
    match hear(alloc, devices.as_slice(), false, reader, source, lines) {
        Ok(Heard::End) => Ok(Some(None)),
        Ok(Heard::Empty) => Ok(None),
        Ok(Heard::Device(device)) => {
            if let Err(_) = devices.push(device) {
                return Err(NotHeard::NoMemory);
            }
            Ok(None)
        }
        Ok(Heard::Command(command)) => Ok(Some(Some(Order::Command(command)))),
        Ok(Heard::Aside(aside)) => Ok(Some(Some(Order::Aside(aside)))),
        Err(error) => Err(error),
    }
}

// Hears devices, which are put behind these, up to the first order. 2^64 - 1 turns count as want of memory.
fn hear_devices<S: Source>(
    alloc: Global,
    reader: &mut LineReader,
    source: &mut S,
    devices: &mut Vec<DeviceDecl>,
    lines: &mut u64,
) -> Result<Option<Order>, NotHeard>
    requires count { S.faults source.old < 2 ^ 64 - 1 }
    requires known { IsTrue reader.old.ended → IsAtEnd (S.left source.old) }
    requires declared { AreDeclared devices.old.items }
    ensures awaits { (start : Held) (left before written : Option (List ℕ))
        → Talks start reader.old left (S.left source.old) before written lines.old false (opening devices.old.items)
        → Awaits start reader.new left (S.left source.new) before written lines.new false (opening devices.new.items) result }
    ensures declared { IfOk result (λ _. AreDeclared devices.new.items) }
    ensures known { IsTrue reader.new.ended → IsAtEnd (S.left source.new) }
    ensures cause { ReadItemCause (S.faults source.old) (S.faults source.new) result }
{
    for _ in 0..u64::MAX {
        match hear_next(
            alloc,
            &mut *reader,
            &mut *source,
            &mut *devices,
            &mut *lines,
        ) {
            Ok(None) => {}
            Ok(Some(told)) => return Ok(told),
            Err(error) => return Err(error),
        }
    }
    Err(NotHeard::NoMemory)
}

// Hears the next order behind another. 2^64 - 1 turns count as want of memory.
fn hear_order<S: Source>(
    alloc: Global,
    devices: &[DeviceDecl],
    reader: &mut LineReader,
    source: &mut S,
    lines: &mut u64,
) -> Result<Option<Order>, NotHeard>
    requires count { S.faults source.old < 2 ^ 64 - 1 }
    requires known { IsTrue reader.old.ended → IsAtEnd (S.left source.old) }
    requires declared { AreDeclared devices.now }
    ensures awaits { (start : Held) (left before written : Option (List ℕ)) (refused : Bool) (moment : Moment)
        → moment.devices ≡ devices.now → IsTrue moment.begun
        → Talks start reader.old left (S.left source.old) before written lines.old refused moment
        → Awaits start reader.new left (S.left source.new) before written lines.new refused moment result }
    ensures known { IsTrue reader.new.ended → IsAtEnd (S.left source.new) }
    ensures cause { ReadItemCause (S.faults source.old) (S.faults source.new) result }
{
    for _ in 0..u64::MAX {
        match hear(
            alloc,
            devices,
            true,
            &mut *reader,
            &mut *source,
            &mut *lines,
        ) {
            Ok(Heard::End) => return Ok(None),
            Ok(Heard::Empty) => {}
            Ok(Heard::Device(_)) => unreachable!(),
            Ok(Heard::Command(command)) => return Ok(Some(Order::Command(command))),
            Ok(Heard::Aside(aside)) => return Ok(Some(Order::Aside(aside))),
            Err(error) => return Err(error),
        }
    }
    Err(NotHeard::NoMemory)
}

// Carries out an order, and tells whether the answer is a refusal.
fn carry_out<S: Source, K: Sink, L: Ledger>(
    alloc: Global,
    conversation: &mut Conversation,
    order: Order,
    reader: &mut LineReader,
    source: &mut S,
    sink: &mut K,
    steps: &mut Steps<L>,
    lines: &mut u64,
) -> Result<bool, Stopped>
    requires source { S.faults source.old < 2 ^ 64 - 1 }
    requires sink { K.faults sink.old < 2 ^ 64 - 1 }
    requires known { IsTrue reader.old.ended → IsAtEnd (S.left source.old) }
    requires under_way { IsUnderWay conversation.old }
    ensures carries { (start : Held) (left before : Option (List ℕ)) (refused : Bool) (moment : Moment) → AreAlike moment (moment_of conversation.old)
        → HearsOrder start reader.old left (S.left source.old) before (K.written sink.old) lines.old refused moment order
        → CarriesOn start reader.new left (S.left source.new) before (K.written sink.new) lines.new refused moment order result }
    ensures under_way { IfOk result (λ _. IsUnderWay conversation.new) }
    ensures moment { IfOk result (λ _. moment_of conversation.new ≡ behind_order (moment_of conversation.old) order) }
    ensures known { IsTrue reader.new.ended → IsAtEnd (S.left source.new) }
    ensures cause { StopCause (S.faults source.old) (S.faults source.new) (K.faults sink.old) (K.faults sink.new) result }
{
    match order {
        Order::Command(command) => match conversation.say(alloc, command, sink, steps) {
            Ok(refused) => Ok(refused),
            Err(error) => Err(Stopped::Writing(error)),
        },
        Order::Aside(aside) => {
            match conversation.tell(alloc, aside, reader, source, lines, sink, steps) {
                Ok(refused) => Ok(refused),
                Err(error) => Err(Stopped::Aside(error)),
            }
        }
    }
}

// Whether one of both is so.
fn either(first: bool, second: bool) -> bool
    ensures { result ≡ (first || second) }
{
    first || second
}

// Carries out the order, and each that is heard behind it, and tells whether an answer is a refusal. 2^64 - 1 orders count
// as want of memory.
fn go_on<S: Source, K: Sink, L: Ledger>(
    alloc: Global,
    conversation: &mut Conversation,
    first: Order,
    reader: &mut LineReader,
    source: &mut S,
    sink: &mut K,
    steps: &mut Steps<L>,
    lines: &mut u64,
) -> Result<bool, Stopped>
    requires source { S.faults source.old < 2 ^ 64 - 1 }
    requires sink { K.faults sink.old < 2 ^ 64 - 1 }
    requires known { IsTrue reader.old.ended → IsAtEnd (S.left source.old) }
    requires under_way { IsUnderWay conversation.old }
    ensures ends { (start : Held) (left before : Option (List ℕ)) (moment : Moment) → AreAlike moment (moment_of conversation.old)
        → HearsOrder start reader.old left (S.left source.old) before (K.written sink.old) lines.old false moment first
        → ComesToEnd start reader.new left (S.left source.new) before (K.written sink.new) lines.new result }
    ensures cause { StopCause (S.faults source.old) (S.faults source.new) (K.faults sink.old) (K.faults sink.new) result }
{
    let mut order = first;
    let mut refused = false;
    for _ in 0..u64::MAX {
        match carry_out(
            alloc,
            &mut *conversation,
            order,
            &mut *reader,
            &mut *source,
            &mut *sink,
            &mut *steps,
            &mut *lines,
        ) {
            Ok(later) => refused = either(refused, later),
            Err(error) => return Err(error),
        }
        let devices = conversation.session.devices();
        match hear_order(alloc, devices, &mut *reader, &mut *source, &mut *lines) {
            Ok(Some(next)) => order = next,
            Ok(None) => return Ok(refused),
            Err(error) => return Err(Stopped::Hearing(error)),
        }
    }
    Err(Stopped::Hearing(NotHeard::NoMemory))
}

// Goes on behind the first line, to the end.
fn go_on_behind_first<S: Source, K: Sink, L: Ledger>(
    alloc: Global,
    reader: &mut LineReader,
    source: &mut S,
    sink: &mut K,
    steps: &mut Steps<L>,
    lines: &mut u64,
) -> Result<bool, Stopped>
    requires source { S.faults source.old < 2 ^ 64 - 1 }
    requires sink { K.faults sink.old < 2 ^ 64 - 1 }
    requires known { IsTrue reader.old.ended → IsAtEnd (S.left source.old) }
    ensures ends { (start : Held) (left before : Option (List ℕ))
        → Talks start reader.old left (S.left source.old) before (K.written sink.old) lines.old false (opening [])
        → ComesToEnd start reader.new left (S.left source.new) before (K.written sink.new) lines.new result }
    ensures cause { StopCause (S.faults source.old) (S.faults source.new) (K.faults sink.old) (K.faults sink.new) result }
{
    let mut devices = Vec::new(alloc);
    match hear_devices(alloc, &mut *reader, &mut *source, &mut devices, &mut *lines) {
        Ok(Some(first)) => match Conversation::new(alloc, devices) {
            Ok(mut conversation) => {
                let told = go_on(
                    alloc,
                    &mut conversation,
                    first,
                    reader,
                    source,
                    sink,
                    steps,
                    lines,
                );
                forget(conversation);
                told
            }
            Err(AllocError) => Err(Stopped::Hearing(NotHeard::NoMemory)),
        },
        Ok(None) => Ok(false),
        Err(error) => Err(Stopped::Hearing(error)),
    }
}

// How a conversation ended that came to this end behind so many lines.
fn ending_of(told: Result<bool, Stopped>, lines: u64) -> Ended
    ensures { result ≡ ending_of told lines }
{
    match told {
        Ok(false) => Ended::Clean,
        Ok(true) => Ended::Refusals,
        Err(Stopped::Hearing(NotHeard::BadLine)) => Ended::BadLine(lines),
        Err(Stopped::Hearing(NotHeard::CutShort)) => match lines.checked_add(1) {
            Some(number) => Ended::BadLine(number),
            None => Ended::NoMemory,
        },
        Err(Stopped::Hearing(NotHeard::TooLong)) => Ended::TooLong,
        Err(Stopped::Hearing(NotHeard::ReadFault)) => Ended::ReadFault,
        Err(Stopped::Hearing(NotHeard::NoMemory)) => Ended::NoMemory,
        Err(Stopped::Writing(WriteAll::WriteFault)) => Ended::WriteFault,
        Err(Stopped::Writing(WriteAll::NoMemory)) => Ended::NoMemory,
        Err(Stopped::Aside(LiveError::ReadFault)) => Ended::ReadFault,
        Err(Stopped::Aside(LiveError::TooLong)) => Ended::TooLong,
        Err(Stopped::Aside(LiveError::NoMemory)) => Ended::NoMemory,
        Err(Stopped::Aside(LiveError::WriteFault)) => Ended::WriteFault,
        Err(Stopped::Aside(LiveError::Ended)) => match lines.checked_add(1) {
            Some(number) => Ended::BadLine(number),
            None => Ended::NoMemory,
        },
        Err(Stopped::Aside(LiveError::BadLine)) => Ended::BadLine(lines),
    }
}

/// Answers what the source says, item by item: the reply to each command is written before more is read, with an empty line
/// behind it; so is each line of a live run before its answer is read. It tells how the conversation ended.
///
/// The memory of the modules goes back to the system with the program, which has nothing more to do then.
pub fn converse<S: Source, K: Sink, L: Ledger>(
    alloc: Global,
    source: &mut S,
    sink: &mut K,
    steps: &mut Steps<L>,
) -> Ended
    requires source { S.faults source.old < 2 ^ 64 - 1 }
    requires sink { K.faults sink.old < 2 ^ 64 - 1 }
    ensures { Conversed (ends (S.left source.old) (S.faults source.old) (K.written sink.old) (K.faults sink.old))
        (ends (S.left source.new) (S.faults source.new) (K.written sink.new) (K.faults sink.new)) result }
{
    let mut reader = LineReader::new(alloc);
    let mut lines: u64 = 0;
    match hear_first(alloc, &mut reader, &mut *source, &mut lines) {
        Ok(()) => {
            let told = go_on_behind_first(alloc, &mut reader, source, sink, steps, &mut lines);
            ending_of(told, lines)
        }
        Err(error) => ending_of(Err(Stopped::Hearing(error)), lines),
    }
}
