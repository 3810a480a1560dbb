//! Interleaved runs.
ghost use Rattle.std.specs.Prelude.{◌≡◌, ◌↔◌, ◌<◌, ◌+◌, ◌++◌, [], IfOk, IsTrue, MatchOption, OnOk, length, map, option_map, slice_get};
ghost use Rattle.std.specs.List.{AllByRecursion, AllZip};
ghost use Rattle.cc_device.specs.DeviceViews.{event_of};
ghost use Rattle.cc_machine.specs.Standing.{KeepsShapes};
ghost use Rattle.cc_runs.specs.Interleavings.{interleave, numbered, report_of};
ghost use Rattle.cc_runs.specs.SoundRuns.{HasShapesOfCells};
ghost use Rattle.cc_machine.specs.Programs.{start_of};
ghost use Rattle.cc_tasks.specs.Reports.{RunsEntries, told_by, told_event, world_in};
ghost use Rattle.cc_tasks.specs.SoundTasks.{RunsSoundly};
ghost use Rattle.cc_tasks.specs.Tasks.{CanGoOn, HaveEnded, HasEnded, IsEndOf, IsNext, TakesTurn, begins, holds};

use crate::task::Task;
use cc_device::{Devices, End, Event};
use cc_machine::{Machine, Program};
use std::alloc::{AllocError, Global};
use std::collections::VecDeque;

/// What is known of an interleaved run: its events in order, each with the number of its task, and of each task its end
/// and how many steps it took.
#[derive(Drop)]
pub struct TaskReport<'a> {
    pub trace: Vec<(u32, Event)>,
    pub ends: Vec<(End<'a>, u32)>,
}

// The tasks of the programs at their starts.
fn load<'a>(alloc: Global, programs: &[&'a Program]) -> Result<Vec<Task<'a>>, AllocError>
    ensures { IfOk result (λ tasks. map holds tasks.items ≡ map begins (map (λ program. program.now) programs.now)) }
{
    let mut tasks = Vec::new(alloc);
    for program in programs {
        let machine = Machine::load(alloc, program)?;
        tasks.push(Task { machine, steps: 0 })?;
    }
    Ok(tasks)
}

// Whether the task of the number has come to its end, or there is none.
fn has_ended(tasks: &[Task], number: u32) -> bool
    ensures { IsTrue result ↔ HasEnded (slice_get tasks.now number) }
{
    let place = number as usize;
    if place < tasks.len() {
        return tasks[place].machine.is_final();
    }
    true
}

// The place in the order of the first number whose task has not come to its end, while turns are left.
fn next_place(tasks: &[Task], order: &VecDeque<u32>, left: u32) -> Option<usize>
    ensures { MatchOption result (0 < left → HaveEnded tasks.now order.now.items) (λ place. (0 < left) × IsNext tasks.now order.now.items place) }
{
    if left == 0 {
        return None;
    }
    for place in 0..order.len() {
        if !has_ended(tasks, order[place]) {
            return Some(place);
        }
    }
    None
}

// The task of the number takes one step on the devices.
fn take_turn(
    tasks: &mut Vec<Task>,
    number: u32,
    devices: &mut Devices,
) -> Result<Option<Event>, AllocError>
    requires ready { AllByRecursion (CanGoOn devices.old 1) tasks.old.items }
    requires running { HasEnded (slice_get tasks.old.items number) → ⊥ }
    ensures turn { IfOk result (λ event. TakesTurn tasks.old.items number devices.old (option_map event_of event) tasks.new.items devices.new) }
    ensures shapes { KeepsShapes devices.old devices.new }
{
    tasks[number as usize].step(devices)
}

// The event of the task of the number, if there is one, stands at the end of the trace.
fn tell(trace: &mut Vec<(u32, Event)>, number: u32, event: Option<Event>) -> Result<(), AllocError>
    ensures { OnOk result (map told_event trace.new.items ≡ map told_event trace.old.items ++ numbered number (option_map event_of event) []) }
{
    match event {
        Some(event) => Ok(trace.push((number, event))?),
        None => Ok(()),
    }
}

// Of each task its end and how many steps it took.
fn ends_of<'a>(alloc: Global, tasks: &[Task<'a>]) -> Result<Vec<(End<'a>, u32)>, AllocError>
    ensures { IfOk result (λ ends. AllZip IsEndOf tasks.now ends.items) }
{
    let mut ends = Vec::new(alloc);
    for task in tasks {
        ends.push((task.machine.end(), task.steps))?;
    }
    Ok(ends)
}

/// Runs the programs as tasks on the devices, interleaved by the schedule: each turn is one step of one task, tasks that
/// have come to their end are passed over at no cost, and the run ends where all tasks of the schedule have come to
/// their end, or so many turns were taken. Numbers of the schedule that name no task are passed over.
///
/// Fails only for want of memory.
pub fn run_tasks<'a>(
    alloc: Global,
    programs: &[&'a Program],
    devices: &mut Devices,
    schedule: &[u32],
    fuel: u32,
) -> Result<TaskReport<'a>, AllocError>
    requires positions { AllByRecursion (λ program. length (start_of program).store + fuel < 4294967296) (map (λ program. program.now) programs.now) }
    requires fits { AllByRecursion (λ program. HasShapesOfCells (start_of program).store devices.old) (map (λ program. program.now) programs.now) }
    ensures report { IfOk result (λ report. told_by report ≡ report_of (interleave fuel schedule.now (world_in (map (λ program. program.now) programs.now) devices.old))) }
    ensures last { IfOk result (λ _. devices.new ≡ (interleave fuel schedule.now (world_in (map (λ program. program.now) programs.now) devices.old)).last.devices) }
    ensures shapes { KeepsShapes devices.old devices.new }
    ensures promises { IfOk result (λ report. RunsEntries (map (λ program. program.now) programs.now) devices.old schedule.now fuel (told_by report)) }
    ensures soundly { OnOk result (∥ RunsSoundly fuel schedule.now (world_in (map (λ program. program.now) programs.now) devices.old) ∥₁) }
{
    let mut tasks = load(alloc, programs)?;
    let mut numbers = Vec::new(alloc);
    numbers.extend_from_slice(schedule)?;
    let mut order = VecDeque::from_vec(numbers);
    let mut trace = Vec::new(alloc);
    let mut left = fuel;
    while let Some(place) = next_place(&tasks, &order, left) {
        let number = order[place];
        order.rotate_left(place + 1);
        let event = take_turn(&mut tasks, number, devices)?;
        tell(&mut trace, number, event)?;
        left -= 1;
    }
    let ends = ends_of(alloc, &tasks)?;
    Ok(TaskReport { trace, ends })
}
