//! Replays.

ghost use Rattle.std.specs.Prelude.{◌≡◌, ◌≢◌, ◌+◌, ◌<◌, ◌≤◌, ℕ, Some, None, IfOk, length, option_map};
ghost use Rattle.std.specs.Bool.{MatchBool};
ghost use Rattle.cc_base.specs.Literals.{NumberLiteral, literal_of};
ghost use Rattle.cc_device.specs.DeviceViews.{event_of, end_of};
ghost use Rattle.cc_machine.specs.Machines.{count_cells, held_by};
ghost use Rattle.cc_runs.specs.Machine as table;
ghost use Rattle.cc_runs.specs.Machine.{Configuration};
ghost use Rattle.cc_machine.specs.Programs.{start_of};
ghost use Rattle.cc_replay.specs.Comparing.{behind_lines, decided_after, decided_by};
ghost use Rattle.cc_replay.specs.ReplayLaws.{IsSafelyTraced};
ghost use Rattle.cc_replay.specs.Replays as plain;
ghost use Rattle.cc_replay.specs.Replays.{Comparison};
ghost use Rattle.cc_replay.specs.RunTexts.{event_text};
ghost use Rattle.cc_machine.specs.Asking.{question_in, question_of};
ghost use Rattle.cc_words.specs.Lines.{lines_of};

use crate::run_texts::{put_end, put_event, put_operation};
use cc_base::literal::{Lit, Op};
use cc_device::Event;
use cc_machine::{Machine, Program, Wanted};
use cc_print::Names;
use cc_words::lines::next_line;
use cc_words::words::{behind, signed_of};
use std::alloc::{AllocError, Global};

/// What comes of a replay: the lines are those of a trace, or they first differ from one at this line, from 1 on.
#[derive(Debug, Clone, Copy, PartialEq, Eq)]
pub enum Replayed {
    Agrees,
    Differs { line: u32 },
}

// What a step tells: nothing, the line before what is left, or another than the one that is next.
enum Told<'a> {
    Nothing,
    Line(&'a [u8]),
    Another,
}

// What stands behind the next line, if that is the text.
fn behind_text<'a>(lines: &'a [u8], text: &str) -> Option<&'a [u8]>
    ensures { (rest : Comparison) → plain.text_next text.now rest (lines_of lines.now) ≡ decided_by rest (option_map (λ others. others.now) result) }
{
    if lines.is_empty() {
        return None;
    }
    let (line, others) = next_line(lines);
    if line == text.as_bytes() {
        Some(others)
    } else {
        None
    }
}

// What the event tells, whose text must be the next line.
fn event_told<'a>(
    alloc: Global,
    names: &Names,
    text: &mut String,
    event: &Event,
    lines: &'a [u8],
) -> Result<Told<'a>, AllocError>
    ensures { IfOk result (λ it. (rest : Comparison) → plain.text_next (event_text names.now.names.items (event_of event.now)) rest (lines_of lines.now) ≡ decided_after rest lines.now it) }
{
    text.clear();
    put_event(alloc, text, names, event)?;
    match behind_text(lines, text.as_str()) {
        Some(others) => Ok(Told::Line(others)),
        None => Ok(Told::Another),
    }
}

// The number of 64 bits behind the text of the operation in the line, if there is one.
fn number_in(
    alloc: Global,
    names: &Names,
    text: &mut String,
    device: u32,
    operation: Op,
    line: &[u8],
) -> Result<Option<i64>, AllocError>
    ensures { IfOk result (λ number. number ≡ plain.number_in names.now.names.items device operation line.now) }
{
    text.clear();
    put_operation(alloc, text, names, device, operation)?;
    match behind(line, text.as_str()) {
        Some(digits) => Ok(signed_of(digits)),
        None => Ok(None),
    }
}

// The number in the line as an answer, if there is one.
fn number_answer(
    alloc: Global,
    names: &Names,
    text: &mut String,
    device: u32,
    operation: Op,
    line: &[u8],
) -> Result<Option<Lit>, AllocError>
    ensures { IfOk result (λ answer. option_map literal_of answer ≡ option_map (λ number. NumberLiteral number) (plain.number_in names.now.names.items device operation line.now)) }
{
    match number_in(alloc, names, text, device, operation, line)? {
        Some(number) => Ok(Some(Lit::Int(number))),
        None => Ok(None),
    }
}

// The answer to the operation that the line tells of, if it tells of one.
fn answer_in(
    alloc: Global,
    names: &Names,
    text: &mut String,
    device: u32,
    operation: Op,
    line: &[u8],
) -> Result<Option<Lit>, AllocError>
    ensures { IfOk result (λ answer. option_map literal_of answer ≡ plain.answer_in names.now.names.items device operation line.now) }
{
    match operation {
        Op::Print => Ok(Some(Lit::Unit)),
        Op::Say => Ok(Some(Lit::Unit)),
        Op::Read => number_answer(alloc, names, text, device, Op::Read, line),
        Op::Write => Ok(Some(Lit::Unit)),
        Op::Tick => number_answer(alloc, names, text, device, Op::Tick, line),
    }
}

// One step that asks a device, with the answer that the next line tells of.
fn answer_from<'a>(
    alloc: Global,
    machine: &mut Machine,
    wanted: Wanted,
    names: &Names,
    text: &mut String,
    lines: &'a [u8],
) -> Result<Told<'a>, AllocError>
    requires { Some (question_of wanted) ≡ question_in (table.step (held_by machine.old)) }
    ensures told { IfOk result (λ it. (steps : ℕ) (rest : Configuration → Comparison) → plain.replay_on names.now.names.items steps rest (held_by machine.old) (table.step (held_by machine.old)) (lines_of lines.now) ≡ decided_after (rest (held_by machine.new)) lines.now it) }
    ensures cells { IfOk result (λ _. count_cells machine.new ≤ count_cells machine.old + 1) }
{
    if lines.is_empty() {
        return Ok(Told::Another);
    }
    let (line, _) = next_line(lines);
    match answer_in(alloc, names, text, wanted.device, wanted.operation, line)? {
        Some(answer) => {
            let event = machine.answer(answer)?;
            event_told(alloc, names, text, &event, lines)
        }
        None => Ok(Told::Another),
    }
}

// One step that asks no device.
fn advance<'a>(
    alloc: Global,
    machine: &mut Machine,
    names: &Names,
    text: &mut String,
    lines: &'a [u8],
) -> Result<Told<'a>, AllocError>
    requires positions { count_cells machine.old < 4294967295 }
    requires unasked { question_in (table.step (held_by machine.old)) ≡ None }
    requires running { table.step (held_by machine.old) ≢ table.Final }
    ensures told { IfOk result (λ it. (steps : ℕ) (rest : Configuration → Comparison) → plain.replay_on names.now.names.items steps rest (held_by machine.old) (table.step (held_by machine.old)) (lines_of lines.now) ≡ decided_after (rest (held_by machine.new)) lines.now it) }
    ensures cells { IfOk result (λ _. count_cells machine.new ≤ count_cells machine.old + 1) }
{
    match machine.advance()? {
        Some(event) => event_told(alloc, names, text, &event, lines),
        None => Ok(Told::Nothing),
    }
}

// One step, with what it tells.
fn follow<'a>(
    alloc: Global,
    machine: &mut Machine,
    names: &Names,
    text: &mut String,
    lines: &'a [u8],
) -> Result<Told<'a>, AllocError>
    requires positions { count_cells machine.old < 4294967295 }
    requires running { table.step (held_by machine.old) ≢ table.Final }
    ensures told { IfOk result (λ it. (steps : ℕ) (rest : Configuration → Comparison) → plain.replay_on names.now.names.items steps rest (held_by machine.old) (table.step (held_by machine.old)) (lines_of lines.now) ≡ decided_after (rest (held_by machine.new)) lines.now it) }
    ensures cells { IfOk result (λ _. count_cells machine.new ≤ count_cells machine.old + 1) }
{
    match machine.wanted() {
        Some(wanted) => answer_from(alloc, machine, wanted, names, text, lines),
        None => advance(alloc, machine, names, text, lines),
    }
}

// Whether a replay that has taken so many steps takes another.
fn goes_on(machine: &Machine, steps: u32, fuel: u32) -> bool
    ensures { MatchBool result ((steps < fuel) × (table.step (held_by machine.now) ≢ table.Final)) (table.step (held_by machine.now) ≢ table.Final → fuel ≤ steps) }
{
    steps < fuel && !machine.is_final()
}

// What comes of the replay at its end, after so many steps and so many lines.
fn end_told(
    alloc: Global,
    machine: &Machine,
    names: &Names,
    text: &mut String,
    steps: u32,
    met: u32,
    lines: &[u8],
) -> Result<Replayed, AllocError>
    requires { met < 4294967295 }
    ensures { IfOk result (λ it. it ≡ behind_lines met (plain.end_next names.now.names.items steps (held_by machine.now) (table.step (held_by machine.now)) (lines_of lines.now))) }
{
    text.clear();
    put_end(alloc, text, names, machine.end(), steps)?;
    let line = met + 1;
    match behind_text(lines, text.as_str()) {
        Some(others) => {
            if others.is_empty() {
                return Ok(Replayed::Agrees);
            }
            match line.checked_add(1) {
                Some(line) => Ok(Replayed::Differs { line }),
                None => Err(AllocError),
            }
        }
        None => Ok(Replayed::Differs { line }),
    }
}

/// The replay of the program from its start, with so much fuel, by the lines of a trace, where the devices have these
/// names. No device is operated: a reading and a tick are answered with the number in the line that is next. Where it
/// agrees, the lines are the trace of a run that operates only devices that the program reaches, and is stuck nowhere.
///
/// Fails only for want of memory; a line with a number from 2^32 on counts as that.
pub fn replay(
    alloc: Global,
    program: &Program,
    names: &Names,
    fuel: u32,
    lines: &[u8],
) -> Result<Replayed, AllocError>
    requires { length (start_of program.now).store + fuel < 4294967296 }
    ensures exact { IfOk result (λ it. it ≡ plain.replay names.now.names.items fuel (start_of program.now) (lines_of lines.now)) }
    ensures safe { IfOk result (λ it. it ≡ Replayed.Agrees → IsSafelyTraced names.now.names.items fuel (start_of program.now) (lines_of lines.now)) }
{
    program.starts_soundly();
    let mut machine = Machine::load(alloc, program)?;
    let mut text = String::new(alloc);
    let mut rest = lines;
    let mut met: u32 = 0;
    let mut steps: u32 = 0;
    while goes_on(&machine, steps, fuel) {
        match follow(alloc, &mut machine, names, &mut text, rest)? {
            Told::Nothing => {}
            Told::Line(others) => {
                rest = others;
                met += 1;
            }
            Told::Another => return Ok(Replayed::Differs { line: met + 1 }),
        }
        steps += 1;
    }
    end_told(alloc, &machine, names, &mut text, steps, met, rest)
}
