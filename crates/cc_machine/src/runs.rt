//! Runs of a machine.
ghost use Rattle.std.specs.Prelude.{◌≢◌, ◌<◌, ◌≤◌, ◌+◌, IfOk};
ghost use Rattle.std.specs.Bool.{MatchBool};
ghost use Rattle.cc_device.specs.DeviceViews.{end_of};
ghost use Rattle.cc_machine.specs.Machines.{count_cells, held_by};
ghost use Rattle.cc_machine.specs.Reports.{HasEnd, ReportsRuns, TellsFuel, OperatesWhatIsReached, IsWellScopedFrom, events_of};
ghost use Rattle.cc_machine.specs.Standing.{KeepsShapes};
ghost use Rattle.cc_runs.specs.Machine as table;
ghost use Rattle.cc_runs.specs.SoundRuns.{HasShapesOfCells};

use crate::machine::Machine;
use cc_device::{Devices, End, Event};
use std::alloc::{AllocError, Global};

/// What is known of a run: its events in order, its end, and the number of its steps.
#[derive(Drop)]
pub struct RunReport<'a> {
    pub trace: Vec<Event>,
    pub end: End<'a>,
    pub steps: u32,
}

impl<'a> Machine<'a> {
    // Whether a run that has taken so many steps takes another.
    fn goes_on(&self, steps: u32, fuel: u32) -> bool
        ensures { MatchBool result ((steps < fuel) × (table.step (held_by self.now) ≢ table.Final)) (table.step (held_by self.now) ≢ table.Final → fuel ≤ steps) }
    {
        steps < fuel && !self.is_final()
    }

    /// How a run ends that takes no further step.
    pub fn end(&self) -> End<'a>
        ensures { HasEnd (held_by self.now) (end_of result) }
    {
        if self.is_final() {
            End::Done(self.value())
        } else {
            End::OutOfFuel
        }
    }

    /// Takes steps on the devices until the machine is at its end, or so many steps were taken. Fails only for want of
    /// memory.
    pub fn run(
        &mut self,
        alloc: Global,
        devices: &mut Devices,
        fuel: u32,
    ) -> Result<RunReport<'a>, AllocError>
        requires positions { count_cells self.old + fuel < 4294967296 }
        requires fits { HasShapesOfCells (held_by self.old).store devices.old }
        ensures runs { IfOk result (λ report. ReportsRuns (held_by self.old) devices.old fuel report (held_by self.new) devices.new) }
        ensures fuel { IfOk result (λ report. TellsFuel (held_by self.old) devices.old fuel (end_of report.end)) }
        ensures reached { IfOk result (λ report. OperatesWhatIsReached (held_by self.old) (events_of report)) }
        ensures scoped { IfOk result (λ report. IsWellScopedFrom (held_by self.old) (events_of report)) }
        ensures fits { HasShapesOfCells (held_by self.new).store devices.new }
        ensures shapes { KeepsShapes devices.old devices.new }
    {
        let mut trace = Vec::new(alloc);
        let mut steps = 0;
        while self.goes_on(steps, fuel) {
            self.make_room((fuel - steps).min(1024))?;
            match self.step(devices)? {
                Some(event) => trace.push(event)?,
                None => {}
            }
            steps += 1;
        }
        Ok(RunReport {
            trace,
            end: self.end(),
            steps,
        })
    }
}
