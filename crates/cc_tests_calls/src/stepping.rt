// A machine that takes memory first, and then goes step by step.
ghost use Rattle.std.specs.Prelude.{◌+◌, ◌<◌, ◌≤◌};
ghost use Rattle.cc_machine.specs.Machines.{count_cells, held_by};
ghost use Rattle.cc_runs.specs.SafeRuns.{HaveShapes};
ghost use Rattle.cc_runs.specs.SoundRuns.{HasShapesOfCells};
ghost use Rattle.cc_machine.specs.Programs.{shapes_of};

use crate::fixture::devices;
use crate::programs::program_of;
use crate::texts::{put_event, put_shown};
use cc_device::{Devices, Event};
use cc_machine::{Machine, Program};
use std::alloc::{AllocError, Global};

// What a step is answered by, where the machine is not at its end.
fn tried(machine: &mut Machine, devices: &mut Devices) -> Result<Option<Event>, AllocError>
    requires positions { count_cells machine.old < 4294967295 }
    requires fits { HasShapesOfCells (held_by machine.old).store devices.old }
    ensures cells { count_cells machine.new ≤ count_cells machine.old + 1 }
    ensures fits { HasShapesOfCells (held_by machine.new).store devices.new }
{
    if machine.is_final() {
        return Ok(None);
    }
    machine.step(devices)
}

/// What is seen of so many calls of `step`, after memory was taken for as many: the last call that was answered by want
/// of memory, counted from 1, the events, and what is shown at the end.
fn stepped(alloc: Global, program: &Program, devices: &mut Devices, calls: u32) -> Option<String>
    requires { HaveShapes devices.old (shapes_of program.now) }
{
    if !program.has_positions(calls.saturating_add(1)) {
        return None;
    }
    program.starts_soundly();
    let mut events = Vec::<Event>::with_capacity(alloc, calls as usize).ok()?;
    let mut wanting = 0;
    let mut machine = Machine::load(alloc, program).ok()?;
    machine.reserve(calls).ok()?;
    for call in 0..calls {
        match tried(&mut machine, devices) {
            Ok(Some(event)) => events.push(event).ok()?,
            Ok(None) => {}
            Err(_) => wanting = call + 1,
        }
    }
    let mut shown = String::new(alloc);
    if wanting > 0 {
        shown
            .push_str(&format!(in alloc; "no memory at call {wanting}; ").ok()?)
            .ok()?;
    }
    for event in &events {
        put_event(alloc, event, &mut shown).ok()?;
    }
    if machine.is_final() {
        put_shown(alloc, machine.value(), &mut shown).ok()?;
    }
    Some(shown)
}

fn stepped_text(alloc: Global, text: &str, calls: u32) -> Option<String> {
    let Ok(Some(decls)) = devices(alloc) else {
        return None;
    };
    let program = program_of(alloc, &decls, text)?;
    let mut devices = Devices::new(alloc, &decls).ok()?;
    stepped(alloc, &program, &mut devices, calls)
}

const TEXT: &str = "def id = fun [X <: Any] => fun (x: X) => x
def f: ((x: Int) -> Int)^{out} = fun (x: Int) => val w = out.print(x); x
def main = fun (u: Unit) => val g = id[Box[((x: Int) -> Int)^{out}]]; (unbox {out} (g(box f)))(3)";

#[test]
fn memory_taken_before_the_steps(rt: HostRuntime) -> Result<(), AllocError> {
    for (calls, want) in [(16, "0 print 3; 3"), (15, "0 print 3; ")] {
        let shown = match stepped_text(rt.alloc(), TEXT, calls) {
            Some(shown) => shown,
            None => return Err(AllocError),
        };
        assert_eq!(rt; shown.as_str(), want);
    }
    Ok(())
}

const WRITES: &str =
    "def main = fun (u: Unit) => val a = out.say(\"hi\"); val b = log.write(8); out.print(3)";

#[test]
fn memory_taken_before_what_is_said_and_written(rt: HostRuntime) -> Result<(), AllocError> {
    for (calls, want) in [
        (11, "0 say hi; 2 write 8; 0 print 3; unit"),
        (10, "0 say hi; 2 write 8; "),
    ] {
        let shown = match stepped_text(rt.alloc(), WRITES, calls) {
            Some(shown) => shown,
            None => return Err(AllocError),
        };
        assert_eq!(rt; shown.as_str(), want);
    }
    Ok(())
}
