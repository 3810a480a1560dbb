//! What a line says, without the lines behind it.

ghost use Rattle.std.specs.Prelude.{◌≡◌, ◌<◌, map, IfOk};
ghost use Rattle.std.specs.Option.{option_map};
ghost use Rattle.cc_words.specs.Words.{number_of};
ghost use Rattle.cc_job.specs.Reading.{covers, is_schedule, schedule_of, file_of, kind_of, kind_with, device_of, put_of, verify_of, policy_of, drop_of, check_of, sig_of, derive_of, run_of, turns_of, tasks_of, audit_of, guard_of, replay_of, explain_of, command_with, head_with, head_of};

use crate::job::{Command, EntryList, Schedule};
use cc_base::device::{DeviceDecl, Kind, Numbers};
use cc_base::name::Name;
use cc_words::words::{
    first_and_rest, name_of, number_of, numbers_of, one_of, pair_of, pairs_of, signed_numbers_of,
    split_at, two_of,
};
use std::alloc::{AllocError, Global};

/// What a line says: a text or rules may stand behind it.
#[derive(Drop)]
pub enum Head {
    /// A device is declared.
    Device(DeviceDecl),
    /// The module gets the text, which is so many lines.
    Put(Name, u32),
    /// The text, which is so many lines, is judged as a certificate.
    Verify(u32),
    /// The rules, which are so many, are in force.
    Policy(u32),
    /// The text, which is as many lines as the last number says, is judged as the trace of a run of a module's
    /// definition, for at most so many steps as the first.
    Replay(Name, Name, u32, u32),
    /// The command is given.
    Command(Command),
}

// Whether each task stands in the schedule.
fn covers(tasks: u32, schedule: &[u32]) -> bool
    ensures { result ≡ covers tasks schedule.now }
{
    for task in 0..tasks {
        if !schedule.contains(&task) {
            return false;
        }
    }
    true
}

// Whether the schedule is neither empty nor too long, and each task stands in it.
#[tactic(auto, unfolding(crate::specs::Reading::is_schedule))]
fn is_schedule(tasks: u32, schedule: &[u32]) -> bool
    ensures { result ≡ is_schedule tasks schedule.now }
{
    schedule.len() >= 1 && schedule.len() <= 64 && covers(tasks, schedule)
}

// The schedule of so many tasks that a word is, if it is one.
#[tactic(auto, unfolding(crate::specs::Reading::schedule_of))]
fn schedule_of(alloc: Global, tasks: u32, word: &[u8]) -> Result<Option<Schedule>, AllocError>
    requires { 0 < tasks }
    ensures { IfOk result (λ schedule. schedule ≡ schedule_of tasks word.now) }
{
    let parts = split_at(alloc, word, b',')?;
    let Some(numbers) = numbers_of(alloc, parts.as_slice(), tasks - 1)? else {
        return Ok(None);
    };
    if !is_schedule(tasks, numbers.as_slice()) {
        return Ok(None);
    }
    Ok(Some(Schedule::new(numbers)))
}

// What these tasks say with this fuel and this schedule, if they are neither none nor too many.
#[tactic(auto, unfolding(crate::specs::Reading::turns_of))]
fn turns_of(
    alloc: Global,
    fuel: u32,
    numbers: &[u8],
    words: &[&[u8]],
) -> Result<Option<Command>, AllocError>
    ensures { IfOk result (λ command. command ≡ turns_of fuel numbers.now (map (λ word. word.now) words.now)) }
{
    if words.len() < 1 || words.len() > 8 {
        return Ok(None);
    }
    let Some(entries) = pairs_of(alloc, words)? else {
        return Ok(None);
    };
    let Some(schedule) = schedule_of(alloc, words.len() as u32, numbers)? else {
        return Ok(None);
    };
    Ok(Some(Command::Tasks(fuel, schedule, EntryList::new(entries))))
}

// A file that begins with the numbers that the words are.
#[tactic(auto, unfolding(crate::specs::Reading::file_of))]
fn file_of(alloc: Global, words: &[&[u8]]) -> Result<Option<Kind>, AllocError>
    ensures { IfOk result (λ kind. kind ≡ file_of (map (λ word. word.now) words.now)) }
{
    match signed_numbers_of(alloc, words)? {
        Some(numbers) => Ok(Some(Kind::File(Numbers::new(numbers)))),
        None => Ok(None),
    }
}

// The kind of device that a word and those behind it say.
#[tactic(auto, unfolding(crate::specs::Reading::kind_with))]
fn kind_with(alloc: Global, word: &[u8], rest: &[&[u8]]) -> Result<Option<Kind>, AllocError>
    ensures { IfOk result (λ kind. kind ≡ kind_with word.now (map (λ it. it.now) rest.now)) }
{
    if word == b"file".as_slice() {
        return file_of(alloc, rest);
    }
    if !rest.is_empty() {
        return Ok(None);
    }
    if word == b"console".as_slice() {
        return Ok(Some(Kind::Console));
    }
    if word == b"counter".as_slice() {
        return Ok(Some(Kind::Counter));
    }
    Ok(None)
}

#[tactic(auto, unfolding(crate::specs::Reading::kind_of))]
fn kind_of(alloc: Global, words: &[&[u8]]) -> Result<Option<Kind>, AllocError>
    ensures { IfOk result (λ kind. kind ≡ kind_of (map (λ it. it.now) words.now)) }
{
    let Some((word, rest)) = first_and_rest(words) else {
        return Ok(None);
    };
    kind_with(alloc, word, rest)
}

#[tactic(auto, unfolding(crate::specs::Reading::device_of))]
fn device_of(alloc: Global, words: &[&[u8]]) -> Result<Option<Head>, AllocError>
    ensures { IfOk result (λ head. head ≡ device_of (map (λ it. it.now) words.now)) }
{
    let Some((word, rest)) = first_and_rest(words) else {
        return Ok(None);
    };
    let Some(name) = name_of(alloc, word)? else {
        return Ok(None);
    };
    let Some(kind) = kind_of(alloc, rest)? else {
        return Ok(None);
    };
    Ok(Some(Head::Device(DeviceDecl { name, kind })))
}

// The number of lines that a text may have which a word writes, if it writes one.
fn text_lines_of(word: &[u8]) -> Option<u32>
    ensures { result ≡ number_of 4194304 word.now }
{
    let Some(count) = number_of(word, 4_194_304) else {
        return None;
    };
    Some(count as u32)
}

// The fuel that a word writes, if it writes one.
fn fuel_of(word: &[u8]) -> Option<u32>
    ensures { result ≡ number_of 1000000 word.now }
{
    let Some(fuel) = number_of(word, 1_000_000) else {
        return None;
    };
    Some(fuel as u32)
}

#[tactic(auto, unfolding(crate::specs::Reading::put_of))]
fn put_of(alloc: Global, words: &[&[u8]]) -> Result<Option<Head>, AllocError>
    ensures { IfOk result (λ head. head ≡ put_of (map (λ it. it.now) words.now)) }
{
    let Some((word, digits)) = two_of(words) else {
        return Ok(None);
    };
    let Some(name) = name_of(alloc, word)? else {
        return Ok(None);
    };
    let Some(count) = text_lines_of(digits) else {
        return Ok(None);
    };
    Ok(Some(Head::Put(name, count)))
}

#[tactic(auto, unfolding(crate::specs::Reading::verify_of))]
fn verify_of(words: &[&[u8]]) -> Option<Head>
    ensures { result ≡ verify_of (map (λ it. it.now) words.now) }
{
    let Some(digits) = one_of(words) else {
        return None;
    };
    let Some(count) = text_lines_of(digits) else {
        return None;
    };
    Some(Head::Verify(count))
}

#[tactic(auto, unfolding(crate::specs::Reading::policy_of))]
fn policy_of(words: &[&[u8]]) -> Option<Head>
    ensures { result ≡ policy_of (map (λ it. it.now) words.now) }
{
    let Some(digits) = one_of(words) else {
        return None;
    };
    let Some(count) = number_of(digits, 256) else {
        return None;
    };
    Some(Head::Policy(count as u32))
}

#[tactic(auto, unfolding(crate::specs::Reading::replay_of))]
fn replay_of(alloc: Global, words: &[&[u8]]) -> Result<Option<Head>, AllocError>
    ensures { IfOk result (λ head. head ≡ replay_of (map (λ it. it.now) words.now)) }
{
    let Some((word, rest)) = first_and_rest(words) else {
        return Ok(None);
    };
    let Some((module, definition)) = pair_of(alloc, word)? else {
        return Ok(None);
    };
    let Some((steps, lines)) = two_of(rest) else {
        return Ok(None);
    };
    let Some(fuel) = fuel_of(steps) else {
        return Ok(None);
    };
    let Some(count) = text_lines_of(lines) else {
        return Ok(None);
    };
    Ok(Some(Head::Replay(module, definition, fuel, count)))
}

#[tactic(auto, unfolding(crate::specs::Reading::drop_of))]
fn drop_of(alloc: Global, words: &[&[u8]]) -> Result<Option<Command>, AllocError>
    ensures { IfOk result (λ command. command ≡ drop_of (map (λ it. it.now) words.now)) }
{
    let Some(word) = one_of(words) else {
        return Ok(None);
    };
    let Some(name) = name_of(alloc, word)? else {
        return Ok(None);
    };
    Ok(Some(Command::Drop(name)))
}

#[tactic(auto, unfolding(crate::specs::Reading::check_of))]
fn check_of(words: &[&[u8]]) -> Option<Command>
    ensures { result ≡ check_of (map (λ it. it.now) words.now) }
{
    if words.is_empty() {
        return Some(Command::Check);
    }
    None
}

#[tactic(auto, unfolding(crate::specs::Reading::sig_of))]
fn sig_of(alloc: Global, words: &[&[u8]]) -> Result<Option<Command>, AllocError>
    ensures { IfOk result (λ command. command ≡ sig_of (map (λ it. it.now) words.now)) }
{
    let Some(word) = one_of(words) else {
        return Ok(None);
    };
    let Some(name) = name_of(alloc, word)? else {
        return Ok(None);
    };
    Ok(Some(Command::Sig(name)))
}

#[tactic(auto, unfolding(crate::specs::Reading::derive_of))]
fn derive_of(alloc: Global, words: &[&[u8]]) -> Result<Option<Command>, AllocError>
    ensures { IfOk result (λ command. command ≡ derive_of (map (λ it. it.now) words.now)) }
{
    let Some(word) = one_of(words) else {
        return Ok(None);
    };
    let Some((module, definition)) = pair_of(alloc, word)? else {
        return Ok(None);
    };
    Ok(Some(Command::Derive(module, definition)))
}

#[tactic(auto, unfolding(crate::specs::Reading::run_of))]
fn run_of(alloc: Global, words: &[&[u8]]) -> Result<Option<Command>, AllocError>
    ensures { IfOk result (λ command. command ≡ run_of (map (λ it. it.now) words.now)) }
{
    let Some((word, digits)) = two_of(words) else {
        return Ok(None);
    };
    let Some((module, definition)) = pair_of(alloc, word)? else {
        return Ok(None);
    };
    let Some(fuel) = fuel_of(digits) else {
        return Ok(None);
    };
    Ok(Some(Command::Run(module, definition, fuel)))
}

#[tactic(auto, unfolding(crate::specs::Reading::tasks_of))]
fn tasks_of(alloc: Global, words: &[&[u8]]) -> Result<Option<Command>, AllocError>
    ensures { IfOk result (λ command. command ≡ tasks_of (map (λ it. it.now) words.now)) }
{
    let Some((digits, words)) = first_and_rest(words) else {
        return Ok(None);
    };
    let Some(fuel) = fuel_of(digits) else {
        return Ok(None);
    };
    let Some((numbers, words)) = first_and_rest(words) else {
        return Ok(None);
    };
    turns_of(alloc, fuel, numbers, words)
}

#[tactic(auto, unfolding(crate::specs::Reading::audit_of))]
fn audit_of(alloc: Global, words: &[&[u8]]) -> Result<Option<Command>, AllocError>
    ensures { IfOk result (λ command. command ≡ audit_of (map (λ it. it.now) words.now)) }
{
    let Some(word) = one_of(words) else {
        return Ok(None);
    };
    let Some((module, definition)) = pair_of(alloc, word)? else {
        return Ok(None);
    };
    Ok(Some(Command::Audit(module, definition)))
}

#[tactic(auto, unfolding(crate::specs::Reading::guard_of))]
fn guard_of(alloc: Global, words: &[&[u8]]) -> Result<Option<Command>, AllocError>
    ensures { IfOk result (λ command. command ≡ guard_of (map (λ it. it.now) words.now)) }
{
    let Some((word, digits)) = two_of(words) else {
        return Ok(None);
    };
    let Some((module, definition)) = pair_of(alloc, word)? else {
        return Ok(None);
    };
    let Some(fuel) = fuel_of(digits) else {
        return Ok(None);
    };
    Ok(Some(Command::Guard(module, definition, fuel)))
}

#[tactic(auto, unfolding(crate::specs::Reading::explain_of))]
fn explain_of(alloc: Global, words: &[&[u8]]) -> Result<Option<Command>, AllocError>
    ensures { IfOk result (λ command. command ≡ explain_of (map (λ it. it.now) words.now)) }
{
    let Some(word) = one_of(words) else {
        return Ok(None);
    };
    let Some((module, definition)) = pair_of(alloc, word)? else {
        return Ok(None);
    };
    Ok(Some(Command::Explain(module, definition)))
}

// The command that a word and those behind it say, where no line stands behind it.
#[tactic(auto, unfolding(crate::specs::Reading::command_with))]
fn command_with(alloc: Global, word: &[u8], rest: &[&[u8]]) -> Result<Option<Command>, AllocError>
    ensures { IfOk result (λ command. command ≡ command_with word.now (map (λ it. it.now) rest.now)) }
{
    if word == b"drop".as_slice() {
        return drop_of(alloc, rest);
    }
    if word == b"check".as_slice() {
        return Ok(check_of(rest));
    }
    if word == b"sig".as_slice() {
        return sig_of(alloc, rest);
    }
    if word == b"derive".as_slice() {
        return derive_of(alloc, rest);
    }
    if word == b"run".as_slice() {
        return run_of(alloc, rest);
    }
    if word == b"tasks".as_slice() {
        return tasks_of(alloc, rest);
    }
    if word == b"audit".as_slice() {
        return audit_of(alloc, rest);
    }
    if word == b"guard".as_slice() {
        return guard_of(alloc, rest);
    }
    if word == b"explain".as_slice() {
        return explain_of(alloc, rest);
    }
    Ok(None)
}

// What a word and those behind it say.
#[tactic(auto, unfolding(crate::specs::Reading::head_with))]
fn head_with(alloc: Global, word: &[u8], rest: &[&[u8]]) -> Result<Option<Head>, AllocError>
    ensures { IfOk result (λ head. head ≡ head_with word.now (map (λ it. it.now) rest.now)) }
{
    if word == b"device".as_slice() {
        return device_of(alloc, rest);
    }
    if word == b"put".as_slice() {
        return put_of(alloc, rest);
    }
    if word == b"verify".as_slice() {
        return Ok(verify_of(rest));
    }
    if word == b"policy".as_slice() {
        return Ok(policy_of(rest));
    }
    if word == b"replay".as_slice() {
        return replay_of(alloc, rest);
    }
    match command_with(alloc, word, rest)? {
        Some(command) => Ok(Some(Head::Command(command))),
        None => Ok(None),
    }
}

/// What a line says, if it says something.
#[tactic(auto, unfolding(crate::specs::Reading::head_of))]
pub fn head_of(alloc: Global, line: &[u8]) -> Result<Option<Head>, AllocError>
    ensures { IfOk result (λ head. head ≡ head_of line.now) }
{
    let words = split_at(alloc, line, b' ')?;
    let Some((word, rest)) = first_and_rest(words.as_slice()) else {
        return Ok(None);
    };
    head_with(alloc, word, rest)
}
