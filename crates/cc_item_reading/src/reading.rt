//! Reading the next item.

ghost use Rattle.std.specs.Prelude.{◌≡◌, ◌-◌, ◌^◌, ◌<◌, ◌≤◌, [], length, take, IsTrue};
ghost use Rattle.std.specs.List.{IsDistinct};
ghost use Rattle.std.specs.Str.{bytes_eq};
ghost use Rattle.std.specs.Io.KnownBytes.{IsAtEnd};
ghost use Rattle.cc_job.specs.Reading.{head_of, may_stand, text_size, rule_count};
ghost use Rattle.cc_item_reading.specs.Sayings.{item_limit};
ghost use Rattle.cc_item_reading.specs.ItemReading.{HearsNextItem, HearsLine, HearsText, HearsRules, PutsRule, HearsBehind, ReadItemCause, IsItemHeard, IsAsideHeard, item_with, AreDeclared};

use crate::asides::{Aside, aside_of};
use cc_base::device::DeviceDecl;
use cc_base::text::Text;
use cc_io::{ReadAll, Source};
use cc_job::head::{Head, head_of};
use cc_job::job::Command;
use cc_job::read::{may_stand, rule_count, text_size};
use cc_job::rules::rule_of;
use cc_line_reading::lines::LineReader;
use cc_policy::policy::{Policy, Rule};
use std::alloc::{AllocError, Global};

/// The greatest number of bytes of the lines of an item.
const ITEM_LIMIT: usize = 4_194_304;

/// What was heard next.
#[derive(Drop)]
pub enum Heard {
    /// Nothing: nothing is left.
    End,
    /// An empty line.
    Empty,
    /// A device is declared.
    Device(DeviceDecl),
    /// A command is given.
    Command(Command),
    /// Something is said that a job cannot say.
    Aside(Aside),
}

/// Why nothing was heard next.
#[derive(Clone, Copy, Debug, PartialEq, Eq)]
pub enum NotHeard {
    /// No item goes on with the line that was read last.
    BadLine,
    /// The end came where lines of an item are missing.
    CutShort,
    /// With the line that was begun an item has more bytes than it may.
    TooLong,
    /// A read failed.
    ReadFault,
    /// There is no memory. A line of a number from 2^64 on counts as that.
    NoMemory,
}

/// Puts the next line behind the bytes, with its line feed, and counts it. It tells whether there was one.
pub fn hear_line<S: Source>(
    alloc: Global,
    reader: &mut LineReader,
    source: &mut S,
    bytes: &mut Vec<u8>,
    room: usize,
    lines: &mut u64,
) -> Result<bool, NotHeard>
    requires count { S.faults source.old < 2 ^ 64 - 1 }
    requires short { length bytes.old.items ≤ room }
    requires known { IsTrue reader.old.ended → IsAtEnd (S.left source.old) }
    ensures heard { HearsLine reader.old reader.new (S.left source.old) (S.left source.new) room lines.old lines.new
        bytes.old.items bytes.new.items result }
    ensures known { IsTrue reader.new.ended → IsAtEnd (S.left source.new) }
    ensures cause { ReadItemCause (S.faults source.old) (S.faults source.new) result }
{
    let Some(number) = lines.checked_add(1) else {
        return Err(NotHeard::NoMemory);
    };
    match reader.next_line(alloc, source, bytes, room) {
        Ok(true) => {
            *lines = number;
            Ok(true)
        }
        Ok(false) => Ok(false),
        Err(ReadAll::ReadFault) => Err(NotHeard::ReadFault),
        Err(ReadAll::TooLong) => Err(NotHeard::TooLong),
        Err(ReadAll::NoMemory) => Err(NotHeard::NoMemory),
    }
}

/// A line without its line feed.
pub fn without_feed(line: &[u8]) -> &[u8]
    requires { 0 < length line.now }
    ensures { result.now ≡ take (length line.now - 1) line.now }
{
    &line[..line.len() - 1]
}

/// Reads so many lines of a text, within so many bytes.
pub fn hear_text<S: Source>(
    alloc: Global,
    count: u32,
    room: usize,
    reader: &mut LineReader,
    source: &mut S,
    text: &mut Vec<u8>,
    lines: &mut u64,
) -> Result<(), NotHeard>
    requires count { S.faults source.old < 2 ^ 64 - 1 }
    requires empty { text.old.items ≡ [] }
    requires known { IsTrue reader.old.ended → IsAtEnd (S.left source.old) }
    ensures heard { HearsText reader.old reader.new (S.left source.old) (S.left source.new) count room lines.old lines.new
        text.new.items result }
    ensures known { IsTrue reader.new.ended → IsAtEnd (S.left source.new) }
    ensures cause { ReadItemCause (S.faults source.old) (S.faults source.new) result }
{
    for _ in 0..count {
        match hear_line(
            alloc,
            &mut *reader,
            &mut *source,
            &mut *text,
            room,
            &mut *lines,
        ) {
            Ok(true) => {}
            Ok(false) => return Err(NotHeard::CutShort),
            Err(error) => return Err(error),
        }
    }
    Ok(())
}

// Puts the rule that the line is behind the rules, if it is one.
fn hear_rule(alloc: Global, line: &[u8], rules: &mut Vec<Rule>) -> Result<(), NotHeard>
    ensures { PutsRule line.now rules.old.items rules.new.items result }
{
    match rule_of(alloc, line) {
        Ok(Some(rule)) => match rules.push(rule) {
            Ok(()) => Ok(()),
            Err(_) => Err(NotHeard::NoMemory),
        },
        Ok(None) => Err(NotHeard::BadLine),
        Err(AllocError) => Err(NotHeard::NoMemory),
    }
}

// Reads so many lines of rules, within so many bytes.
fn hear_rules<S: Source>(
    alloc: Global,
    count: u32,
    room: usize,
    reader: &mut LineReader,
    source: &mut S,
    rules: &mut Vec<Rule>,
    lines: &mut u64,
) -> Result<(), NotHeard>
    requires count { S.faults source.old < 2 ^ 64 - 1 }
    requires empty { rules.old.items ≡ [] }
    requires known { IsTrue reader.old.ended → IsAtEnd (S.left source.old) }
    ensures heard { HearsRules reader.old reader.new (S.left source.old) (S.left source.new) count room lines.old lines.new
        rules.new.items result }
    ensures known { IsTrue reader.new.ended → IsAtEnd (S.left source.new) }
    ensures cause { ReadItemCause (S.faults source.old) (S.faults source.new) result }
{
    let mut bytes = Vec::new(alloc);
    for _ in 0..count {
        let from = bytes.len();
        match hear_line(
            alloc,
            &mut *reader,
            &mut *source,
            &mut bytes,
            room,
            &mut *lines,
        ) {
            Ok(true) => {}
            Ok(false) => return Err(NotHeard::CutShort),
            Err(error) => return Err(error),
        }
        if let Err(error) = hear_rule(alloc, without_feed(&bytes[from..]), &mut *rules) {
            return Err(error);
        }
    }
    Ok(())
}

// What was heard of the line with the text and the rules behind it.
fn heard_with(head: Head, text: Vec<u8>, rules: Vec<Rule>) -> Heard
    requires { length rules.items < 4294967296 }
    ensures { IsItemHeard result (item_with head text.items rules.items) }
{
    match head {
        Head::Device(device) => Heard::Device(device),
        Head::Put(name, _) => Heard::Command(Command::Put(name, Text::new(text))),
        Head::Verify(_) => Heard::Command(Command::Verify(Text::new(text))),
        Head::Policy(_) => Heard::Command(Command::Policy(Policy::new(rules))),
        Head::Replay(module, def, fuel, _) => {
            Heard::Command(Command::Replay(module, def, fuel, Text::new(text)))
        }
        Head::Command(command) => Heard::Command(command),
    }
}

// Reads the text and the rules behind a line, within so many bytes.
fn hear_behind<S: Source>(
    alloc: Global,
    head: Head,
    room: usize,
    reader: &mut LineReader,
    source: &mut S,
    lines: &mut u64,
) -> Result<Heard, NotHeard>
    requires count { S.faults source.old < 2 ^ 64 - 1 }
    requires known { IsTrue reader.old.ended → IsAtEnd (S.left source.old) }
    ensures heard { HearsBehind head room reader.old reader.new (S.left source.old) (S.left source.new) lines.old lines.new result }
    ensures known { IsTrue reader.new.ended → IsAtEnd (S.left source.new) }
    ensures cause { ReadItemCause (S.faults source.old) (S.faults source.new) result }
{
    let mut text = Vec::new(alloc);
    let size = text_size(&head);
    match hear_text(
        alloc,
        size,
        room,
        &mut *reader,
        &mut *source,
        &mut text,
        &mut *lines,
    ) {
        Ok(()) => {}
        Err(error) => return Err(error),
    }
    let mut rules = Vec::new(alloc);
    let count = rule_count(&head);
    match hear_rules(alloc, count, room, reader, source, &mut rules, lines) {
        Ok(()) => Ok(heard_with(head, text, rules)),
        Err(error) => Err(error),
    }
}

// What a line that is no item's says, if a conversation may say it.
fn hear_aside(alloc: Global, line: &[u8]) -> Result<Heard, NotHeard>
    ensures { IsAsideHeard line.now result }
{
    match aside_of(alloc, line) {
        Ok(Some(aside)) => Ok(Heard::Aside(aside)),
        Ok(None) => Err(NotHeard::BadLine),
        Err(AllocError) => Err(NotHeard::NoMemory),
    }
}

/// Hears the next item, behind these devices, where a command was given or none.
///
/// What a job cannot say is heard as an item is: that a definition is run on the devices of the host, and the question why a
/// module is refused.
///
/// `BadLine`: no item goes on with the last line that was taken. `CutShort`: the end came where lines of an item are missing.
/// `TooLong`: the lines of the item have more than 4,194,304 bytes. `ReadFault`: a read failed, and the count of faults rose.
/// `NoMemory`: there is no memory.
pub fn hear<S: Source>(
    alloc: Global,
    devices: &[DeviceDecl],
    begun: bool,
    reader: &mut LineReader,
    source: &mut S,
    lines: &mut u64,
) -> Result<Heard, NotHeard>
    requires count { S.faults source.old < 2 ^ 64 - 1 }
    requires declared { AreDeclared devices.now }
    requires known { IsTrue reader.old.ended → IsAtEnd (S.left source.old) }
    ensures heard { HearsNextItem devices.now begun reader.old reader.new (S.left source.old) (S.left source.new)
        lines.old lines.new result }
    ensures known { IsTrue reader.new.ended → IsAtEnd (S.left source.new) }
    ensures cause { ReadItemCause (S.faults source.old) (S.faults source.new) result }
{
    let mut bytes = Vec::new(alloc);
    match hear_line(
        alloc,
        &mut *reader,
        &mut *source,
        &mut bytes,
        ITEM_LIMIT,
        &mut *lines,
    ) {
        Ok(true) => {}
        Ok(false) => return Ok(Heard::End),
        Err(error) => return Err(error),
    }
    let line = without_feed(&bytes);
    if line.is_empty() {
        return Ok(Heard::Empty);
    }
    match head_of(alloc, line) {
        Ok(Some(head)) => {
            if !may_stand(devices, begun, &head) {
                return Err(NotHeard::BadLine);
            }
            hear_behind(alloc, head, ITEM_LIMIT - bytes.len(), reader, source, lines)
        }
        Ok(None) => hear_aside(alloc, line),
        Err(AllocError) => Err(NotHeard::NoMemory),
    }
}
