//! Reading a job.

ghost use Rattle.std.specs.Prelude.{◌≡◌, ◌+◌, ◌-◌, ◌^◌, ◌<◌, length, OnOk, IfOk};
ghost use Rattle.cc_words.specs.Lines.{text_cut};
ghost use Rattle.cc_job.specs.Jobs.{ReadsJob};
ghost use Rattle.cc_job.specs.Reading.{text_size, rule_count, lines_behind, has_device, admits, is_admitted, may_stand, devices_with, commands_with, rules_in, next_rules, next_text, next_item, IsStep};

use crate::head::{Head, head_of};
use crate::job::{Command, CommandList, DeviceList, Job, JobError};
use crate::rules::{RuleLines, rules_cut};
use cc_base::device::DeviceDecl;
use cc_base::text::Text;
use cc_policy::policy::Policy;
use cc_words::lines::{line_count, next_line, text_cut};
use std::alloc::{AllocError, Global};

/// How many lines of text stand behind the line.
pub fn text_size(head: &Head) -> u32
    ensures { result ≡ text_size head.now }
{
    match head {
        Head::Device(_) => 0,
        Head::Put(_, count) => *count,
        Head::Verify(count) => *count,
        Head::Policy(_) => 0,
        Head::Replay(_, _, _, count) => *count,
        Head::Command(_) => 0,
    }
}

/// How many lines of rules.
pub fn rule_count(head: &Head) -> u32
    ensures { result ≡ rule_count head.now }
{
    match head {
        Head::Device(_) => 0,
        Head::Put(_, _) => 0,
        Head::Verify(_) => 0,
        Head::Policy(count) => *count,
        Head::Replay(_, _, _, _) => 0,
        Head::Command(_) => 0,
    }
}

// How many lines.
fn lines_behind(head: &Head) -> u32
    ensures { result ≡ lines_behind head.now }
{
    match head {
        Head::Device(_) => 0,
        Head::Put(_, count) => *count,
        Head::Verify(count) => *count,
        Head::Policy(count) => *count,
        Head::Replay(_, _, _, count) => *count,
        Head::Command(_) => 0,
    }
}

// Whether a device has the name.
fn has_device(devices: &[DeviceDecl], device: &DeviceDecl) -> bool
    ensures { result ≡ has_device devices.now device.now }
{
    devices.iter().any(|other| device.name == other.name)
}

// Whether the device may be declared: there is no command yet, there are less than 16 devices, and none has its name.
#[tactic(auto, unfolding(crate::specs::Reading::admits))]
fn admits(devices: &[DeviceDecl], commands: &[Command], device: &DeviceDecl) -> bool
    ensures { result ≡ admits devices.now commands.now device.now }
{
    commands.len() == 0 && devices.len() < 16 && !has_device(devices, device)
}

fn is_admitted(devices: &[DeviceDecl], commands: &[Command], head: &Head) -> bool
    ensures { result ≡ is_admitted devices.now commands.now head.now }
{
    match head {
        Head::Device(device) => admits(devices, commands, device),
        Head::Put(_, _) => true,
        Head::Verify(_) => true,
        Head::Policy(_) => true,
        Head::Replay(_, _, _, _) => true,
        Head::Command(_) => true,
    }
}

/// Whether what the line says may be said behind these devices: where it declares one, there is no command yet, there are
/// less than 16 devices, and none has its name.
pub fn may_stand(devices: &[DeviceDecl], begun: bool, head: &Head) -> bool
    ensures { result ≡ may_stand devices.now begun head.now }
{
    match head {
        Head::Device(device) => !begun && devices.len() < 16 && !has_device(devices, device),
        Head::Put(_, _) => true,
        Head::Verify(_) => true,
        Head::Policy(_) => true,
        Head::Replay(_, _, _, _) => true,
        Head::Command(_) => true,
    }
}

// Adds what a line and the text and the rules behind it say.
fn add(
    alloc: Global,
    devices: &mut Vec<DeviceDecl>,
    commands: &mut Vec<Command>,
    head: Head,
    text: &[u8],
    policy: Policy,
) -> Result<(), AllocError>
    ensures devices { OnOk result (devices.new.items ≡ devices_with devices.old.items head) }
    ensures commands { OnOk result (commands.new.items ≡ commands_with commands.old.items head text.now policy) }
{
    match head {
        Head::Device(device) => devices.push(device)?,
        Head::Put(name, _) => {
            let text = Text::new(Vec::from_slice(alloc, text)?);
            commands.push(Command::Put(name, text))?;
        }
        Head::Verify(_) => {
            let text = Text::new(Vec::from_slice(alloc, text)?);
            commands.push(Command::Verify(text))?;
        }
        Head::Policy(_) => commands.push(Command::Policy(policy))?,
        Head::Replay(module, definition, fuel, _) => {
            let text = Text::new(Vec::from_slice(alloc, text)?);
            commands.push(Command::Replay(module, definition, fuel, text))?;
        }
        Head::Command(command) => commands.push(command)?,
    }
    Ok(())
}

// What was read at the front of a text.
enum Step<'a> {
    // A line and so many behind it, with this behind them.
    Read(u32, &'a [u8]),
    // The line so many places behind the first begins no job.
    BadLine(u32),
    // The lines behind the first are cut short.
    CutShort,
}

// Adds what a line and the text behind it say with what the lines of rules are.
fn next_rules<'a>(
    alloc: Global,
    devices: &mut Vec<DeviceDecl>,
    commands: &mut Vec<Command>,
    head: Head,
    text: &[u8],
    lines: RuleLines<'a>,
) -> Result<Step<'a>, AllocError>
    ensures { IfOk result (λ step. IsStep step devices.new.items commands.new.items (next_rules devices.old.items commands.old.items head text.now (rules_in lines.entry))) }
{
    match lines {
        RuleLines::Read(policy, behind) => {
            let count = lines_behind(&head);
            add(alloc, devices, commands, head, text, policy)?;
            Ok(Step::Read(count, behind))
        }
        RuleLines::BadLine(place) => Ok(Step::BadLine(place)),
        RuleLines::CutShort => Ok(Step::CutShort),
    }
}

// Reads the text and the rules behind a line, and adds what they say with it.
fn next_text<'a>(
    alloc: Global,
    bytes: &'a [u8],
    devices: &mut Vec<DeviceDecl>,
    commands: &mut Vec<Command>,
    head: Head,
) -> Result<Step<'a>, AllocError>
    ensures { IfOk result (λ step. IsStep step devices.new.items commands.new.items (next_text devices.old.items commands.old.items head (text_cut (text_size head) bytes.now))) }
{
    let Some((text, behind)) = text_cut(bytes, text_size(&head)) else {
        return Ok(Step::CutShort);
    };
    let lines = rules_cut(alloc, behind, rule_count(&head))?;
    next_rules(alloc, devices, commands, head, text, lines)
}

// Reads an item, or an empty line.
#[tactic(auto, unfolding(crate::specs::Reading::next_item))]
fn next_item<'a>(
    alloc: Global,
    bytes: &'a [u8],
    devices: &mut Vec<DeviceDecl>,
    commands: &mut Vec<Command>,
) -> Result<Step<'a>, AllocError>
    ensures { IfOk result (λ step. IsStep step devices.new.items commands.new.items (next_item bytes.now devices.old.items commands.old.items)) }
{
    let (line, behind) = next_line(bytes);
    if line.is_empty() {
        return Ok(Step::Read(0, behind));
    }
    let Some(head) = head_of(alloc, line)? else {
        return Ok(Step::BadLine(0));
    };
    if !is_admitted(devices.as_slice(), commands.as_slice(), &head) {
        return Ok(Step::BadLine(0));
    }
    next_text(alloc, behind, devices, commands, head)
}

/// The job whose text the bytes are.
///
/// Fails with `BadJob` exactly where they are the text of none, and for want of memory.
pub fn read_job(alloc: Global, bytes: &[u8]) -> Result<Job, JobError>
    requires { length bytes.now < 4294967295 }
    ensures { ReadsJob bytes.now result }
{
    let (first, behind) = next_line(bytes);
    if first != b"capc 1".as_slice() {
        return Err(JobError::BadJob { line: 1 });
    }
    let mut devices = Vec::new(alloc);
    let mut commands = Vec::new(alloc);
    let mut rest = behind;
    let mut number: u32 = 1;
    while !rest.is_empty() {
        match next_item(alloc, rest, &mut devices, &mut commands) {
            Ok(Step::Read(count, behind)) => {
                number += count + 1;
                rest = behind;
            }
            Ok(Step::BadLine(place)) => {
                return Err(JobError::BadJob {
                    line: number + 1 + place,
                });
            }
            Ok(Step::CutShort) => {
                return Err(JobError::BadJob {
                    line: line_count(bytes) + 1,
                });
            }
            Err(AllocError) => return Err(JobError::NoMemory),
        }
    }
    Ok(Job {
        devices: DeviceList::new(devices),
        commands: CommandList::new(commands),
    })
}
