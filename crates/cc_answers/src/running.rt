//! Running the programs of entries on the declared devices.

ghost use Rattle.std.specs.Prelude.{◌≡◌, ◌+◌, ◌-◌, ◌^◌, ◌<◌, ℕ, List, [], map, length, IsTrue, IfOk};
ghost use Rattle.std.specs.List.{AllByRecursion};
ghost use Rattle.std.specs.String.{string_bytes};
ghost use Rattle.cc_device.specs.Declarations.{declared_bases, declared_devices};
ghost use Rattle.cc_device.specs.Devices.{Devices as DevicesHeld};
ghost use Rattle.cc_device.specs.DeviceViews.{end_of};
ghost use Rattle.cc_io.specs.Wholes.{WritesWhole, WriteAllCause};
ghost use Rattle.cc_session.specs.Entries.{entry_of};
ghost use Rattle.cc_entry_laws.specs.PresentEntries.{program_entry};
ghost use Rattle.cc_verdicts.specs.ModuleVerdicts.{ModuleVerdict};
ghost use Rattle.cc_verdicts.specs.PresentTexts.{AreVerdicts};
ghost use Rattle.cc_runs.specs.Interleavings.{interleave, report_of, state_of};
ghost use Rattle.cc_runs.specs.Links.{program_start};
ghost use Rattle.cc_runs.specs.Runs.{Ends, run};
ghost use Rattle.cc_runs.specs.SafeRuns.{HaveShapes};
ghost use Rattle.cc_runs.specs.SoundRuns.{HasShapesOfCells};
ghost use Rattle.cc_machine.specs.Programs.{shapes_of, start_of};
ghost use Rattle.cc_machine.specs.Reports.{events_of};
ghost use Rattle.cc_mnf.specs.ElaboratedModules.{device_names};
ghost use Rattle.cc_replies.specs.PolicyReplies.{decisions, guard_told};
ghost use Rattle.cc_replies.specs.ReplayReplies.{replay_told};
ghost use Rattle.cc_replies.specs.ReplyTexts.{Audited, reply_text, is_refusal, is_unfinished};
ghost use Rattle.cc_replies.specs.RunReplies.{declared_run, tasks_told};
ghost use Rattle.cc_tasks.specs.Reports.{told_by, world_in};
ghost use Rattle.cc_answers.specs.KeptEntries.{IsKeptFor};
ghost use Rattle.cc_answers.specs.LinkedPrograms.{IsProgramOf};
ghost use Rattle.cc_answers.specs.Running.{AreStarted, HavePrograms, entry_text};

use crate::kept::{Kept, linked_entry};
use crate::linked::LinkedEntry;
use crate::replies::{told, write_reply};
use cc_base::code::Code;
use cc_base::device::DeviceDecl;
use cc_base::name::Name;
use cc_device::Devices;
use cc_io::{Sink, WriteAll};
use cc_machine::{Machine, Program, RunReport};
use cc_policy::policy::Policy;
use cc_print::Names;
use cc_replay::replay;
use cc_replies::policies::{are_allowed, audit_reply, guard_refusal};
use cc_replies::replays::{is_different, replay_reply};
use cc_replies::runs::{is_cut_short, write_run};
use cc_replies::tasks::{tasks_cut_short, write_tasks};
use cc_session::Entry;
use cc_session::present_entries::EntryError;
use cc_session::session::Session;
use cc_tasks::{TaskReport, run_tasks};
use std::alloc::{AllocError, Global};
use std::rc::Rc;

// The report of the run of a program on the declared devices. Fails only for want of memory, as which 2^32 cells count.
fn run_program<'a>(
    alloc: Global,
    declared: &[DeviceDecl],
    fuel: u32,
    program: &'a Program,
) -> Result<RunReport<'a>, AllocError>
    requires { shapes_of program.now ≡ declared_bases declared.now }
    ensures events { IfOk result (λ report. events_of report ≡ (run fuel (state_of (declared_devices declared.now) (start_of program.now))).events) }
    ensures ending { IfOk result (λ report. Ends (end_of report.end) ≡ (run fuel (state_of (declared_devices declared.now) (start_of program.now))).ending) }
    ensures steps { IfOk result (λ report. report.steps ≡ (run fuel (state_of (declared_devices declared.now) (start_of program.now))).steps) }
{
    if !program.has_positions(fuel) {
        return Err(AllocError);
    }
    program.starts_soundly();
    let mut devices = Devices::new(alloc, declared)?;
    let mut machine = Machine::load(alloc, program)?;
    machine.run(alloc, &mut devices, fuel)
}

/// Writes the reply of this word to a run of the definition, which has this entry, on the declared devices, and tells
/// whether that is a refusal.
///
/// 2^32 cells count as want of memory, for which nothing is written.
pub fn tell_run<K: Sink>(
    alloc: Global,
    word: &str,
    names: &Names,
    declared: &[DeviceDecl],
    module: &Name,
    def: &Name,
    fuel: u32,
    linked: &LinkedEntry,
    sink: &mut K,
) -> Result<bool, WriteAll>
    requires count { K.faults sink.old < 2 ^ 64 - 1 }
    requires devices { linked.now.entry.devices.items ≡ declared_bases declared.now }
    requires program { IsProgramOf linked.now.program linked.now.entry }
    ensures written { WritesWhole (K.written sink.old) (K.written sink.new) result
        (entry_text word.now names.now.names.items «module».now def.now declared.now fuel (entry_of linked.now.entry)) }
    ensures refused { IfOk result (λ refused. refused ≡ is_unfinished (declared_run declared.now fuel (entry_of linked.now.entry)).ending) }
    ensures cause { WriteAllCause (K.faults sink.old) (K.faults sink.new) result }
{
    match run_program(alloc, declared, fuel, &linked.program) {
        Ok(report) => {
            let refused = is_cut_short(report.end);
            told(
                write_run(
                    alloc,
                    sink,
                    word,
                    module,
                    def,
                    &linked.entry.authority,
                    &report,
                    names,
                ),
                refused,
            )
        }
        Err(AllocError) => Err(WriteAll::NoMemory),
    }
}

/// Writes the reply to a guarded run of the definition, which has this entry, on the declared devices, which have the
/// names, and tells whether that is a refusal: it runs if the policy permits it.
///
/// 2^32 cells count as want of memory, for which nothing is written.
pub fn tell_guarded<K: Sink>(
    alloc: Global,
    names: &Names,
    declared: &[DeviceDecl],
    policy: &Policy,
    module: &Name,
    def: &Name,
    fuel: u32,
    linked: &LinkedEntry,
    sink: &mut K,
) -> Result<bool, WriteAll>
    requires count { K.faults sink.old < 2 ^ 64 - 1 }
    requires devices { linked.now.entry.devices.items ≡ declared_bases declared.now }
    requires program { IsProgramOf linked.now.program linked.now.entry }
    requires names { names.now.names.items ≡ device_names declared.now }
    ensures written { WritesWhole (K.written sink.old) (K.written sink.new) result
        (reply_text names.now.names.items (guard_told declared.now policy.now «module».now def.now fuel (entry_of linked.now.entry))) }
    ensures refused { IfOk result (λ refused. refused ≡ is_refusal (guard_told declared.now policy.now «module».now def.now fuel (entry_of linked.now.entry))) }
    ensures cause { WriteAllCause (K.faults sink.old) (K.faults sink.new) result }
{
    if are_allowed(policy, &linked.entry.module, names, &linked.entry.authority) {
        tell_run(
            alloc, "guard", names, declared, module, def, fuel, linked, sink,
        )
    } else {
        write_reply(sink, guard_refusal(alloc, module, def, Code::E37), true)
    }
}

/// The reply to an audit of the definition, which has this entry: what the policy decides for each device that it may
/// operate. Fails only for want of memory.
pub fn audited_reply(
    alloc: Global,
    names: &Names,
    policy: &Policy,
    module: &Name,
    def: &Name,
    linked: &LinkedEntry,
) -> Result<String, AllocError>
    ensures { IfOk result (λ text. string_bytes text ≡ reply_text names.now.names.items
        (Audited «module».now def.now (decisions names.now.names.items policy.now linked.now.entry.module linked.now.entry.authority.items))) }
{
    let entry = &linked.entry;
    audit_reply(
        alloc,
        module,
        def,
        &entry.module,
        entry.authority.as_slice(),
        policy,
        names,
    )
}

/// The reply to a replay of the lines of a text with the definition, which has this entry, where the devices have the names,
/// and whether that is a refusal. No device is operated.
///
/// Fails only for want of memory, as which 2^32 cells count.
pub fn replayed_reply(
    alloc: Global,
    names: &Names,
    module: &Name,
    def: &Name,
    fuel: u32,
    text: &[u8],
    linked: &LinkedEntry,
) -> Result<(String, bool), AllocError>
    requires { IsProgramOf linked.now.program linked.now.entry }
    ensures text { IfOk result (λ it. string_bytes it.0 ≡ reply_text []
        (replay_told names.now.names.items «module».now def.now fuel text.now (entry_of linked.now.entry))) }
    ensures refused { IfOk result (λ it. it.1 ≡ is_refusal (replay_told names.now.names.items «module».now def.now fuel text.now (entry_of linked.now.entry))) }
{
    if !linked.program.has_positions(fuel) {
        return Err(AllocError);
    }
    let outcome = replay(alloc, &linked.program, names, fuel, text)?;
    let reply = replay_reply(alloc, module, def, outcome)?;
    Ok((reply, is_different(outcome)))
}

/// What comes of several definitions that are to be run together.
#[derive(Drop)]
pub enum Started {
    /// Each has its entry, with its program.
    All(Vec<Rc<LinkedEntry>>),
    /// The first that has none, by its number, and why.
    Refused { code: Code, task: usize },
}

/// The entries of the definitions of present modules with their programs, or the first that has none. Fails only for want
/// of memory, as which too many cells count.
pub fn start_all(
    alloc: Global,
    session: &Session,
    kept: &mut Kept,
    tasks: &[(Name, Name)],
) -> Result<Started, AllocError>
    requires checked { IsTrue session.now.checked }
    requires kept { IsKeptFor session.now.devices session.now.present kept.old }
    ensures started { IfOk result (λ started. (verdicts : List ℕ → ModuleVerdict)
        → AreVerdicts session.now.devices session.now.present verdicts
        → AreStarted session.now.devices session.now.present verdicts tasks.now started) }
    ensures programs { IfOk result HavePrograms }
    ensures kept { IsKeptFor session.now.devices session.now.present kept.new }
{
    let mut entries = Vec::new(alloc);
    for task in 0..tasks.len() {
        let (module, def) = &tasks[task];
        match linked_entry(alloc, session, kept, module, def) {
            Ok(linked) => entries.push(linked)?,
            Err(EntryError::Refused(refused)) => {
                return Ok(Started::Refused {
                    code: refused.code,
                    task,
                });
            }
            Err(EntryError::NoMemory) => return Err(AllocError),
        }
    }
    Ok(Started::All(entries))
}

// The programs, in order.
fn programs_of<'a>(
    alloc: Global,
    linked: &'a [Rc<LinkedEntry>],
) -> Result<Vec<&'a Program>, AllocError>
    ensures { IfOk result (λ programs. map (λ program. program.now) programs.items ≡ map (λ it. it.value.program) linked.now) }
{
    let mut programs = Vec::with_capacity(alloc, linked.len())?;
    for it in linked {
        programs.push(&it.program)?;
    }
    Ok(programs)
}

// The entries, in order.
fn entries_of<'a>(
    alloc: Global,
    linked: &'a [Rc<LinkedEntry>],
) -> Result<Vec<&'a Entry>, AllocError>
    ensures { IfOk result (λ entries. map (λ entry. entry.now) entries.items ≡ map (λ it. it.value.entry) linked.now) }
{
    let mut entries = Vec::with_capacity(alloc, linked.len())?;
    for it in linked {
        entries.push(&it.entry)?;
    }
    Ok(entries)
}

// Whether each program has less than 2^32 cells when so many are added.
fn have_positions(programs: &[&Program], fuel: u32) -> bool
    ensures { IsTrue result → AllByRecursion (λ program. length (start_of program.now).store + fuel < 4294967296) programs.now }
{
    for program in programs {
        if !program.has_positions(fuel) {
            return false;
        }
    }
    true
}

// The devices fit all programs where these have their shapes. The function does nothing.
fn fit_all(programs: &[&Program], devices: &Devices)
    requires { AllByRecursion (λ program. HaveShapes devices.now (shapes_of program.now)) programs.now }
    ensures { AllByRecursion (λ program. HasShapesOfCells (start_of program.now).store devices.now) programs.now }
{
    for program in programs {
        program.starts_soundly();
    }
}

// The report of the interleaved run of programs on the declared devices.
fn run_programs<'a>(
    alloc: Global,
    declared: &[DeviceDecl],
    fuel: u32,
    schedule: &[u32],
    programs: &[&'a Program],
) -> Result<TaskReport<'a>, AllocError>
    requires { (devices : DevicesHeld) → HaveShapes devices (declared_bases declared.now) → AllByRecursion (λ program. HaveShapes devices (shapes_of program.now)) programs.now }
    ensures { IfOk result (λ report. told_by report ≡ report_of (interleave fuel schedule.now (world_in (map (λ program. program.now) programs.now) (declared_devices declared.now)))) }
{
    if !have_positions(programs, fuel) {
        return Err(AllocError);
    }
    let mut devices = Devices::new(alloc, declared)?;
    fit_all(programs, &devices);
    run_tasks(alloc, programs, &mut devices, schedule, fuel)
}

/// Writes the reply to an interleaved run of the definitions that have these entries, on the declared devices, and tells
/// whether that is a refusal.
///
/// 2^32 cells count as want of memory, for which nothing is written.
pub fn tell_tasks<K: Sink>(
    alloc: Global,
    names: &Names,
    declared: &[DeviceDecl],
    fuel: u32,
    schedule: &[u32],
    linked: &[Rc<LinkedEntry>],
    sink: &mut K,
) -> Result<bool, WriteAll>
    requires count { K.faults sink.old < 2 ^ 64 - 1 }
    requires devices { AllByRecursion (λ it. it.value.entry.devices.items ≡ declared_bases declared.now) linked.now }
    requires programs { AllByRecursion (λ it. IsProgramOf it.value.program it.value.entry) linked.now }
    ensures written { WritesWhole (K.written sink.old) (K.written sink.new) result
        (reply_text names.now.names.items (tasks_told declared.now fuel schedule.now (map (λ it. entry_of it.value.entry) linked.now))) }
    ensures refused { IfOk result (λ refused. refused ≡ is_refusal (tasks_told declared.now fuel schedule.now (map (λ it. entry_of it.value.entry) linked.now))) }
    ensures cause { WriteAllCause (K.faults sink.old) (K.faults sink.new) result }
{
    let programs = match programs_of(alloc, linked) {
        Ok(programs) => programs,
        Err(AllocError) => return Err(WriteAll::NoMemory),
    };
    let entries = match entries_of(alloc, linked) {
        Ok(entries) => entries,
        Err(AllocError) => return Err(WriteAll::NoMemory),
    };
    match run_programs(alloc, declared, fuel, schedule, &programs) {
        Ok(report) => {
            let refused = tasks_cut_short(&report);
            told(write_tasks(alloc, sink, &entries, &report, names), refused)
        }
        Err(AllocError) => Err(WriteAll::NoMemory),
    }
}
