//! The machine.
ghost use Rattle.cc_machine.specs.Standing.{StandsSoundly};
ghost use Rattle.cc_machine.specs.Parts.{configuration_of, IsLinked, HasRoom};

use crate::{Focus, Parts, Program, Wanted};
use cc_base::literal::Lit;
use cc_device::{Devices, Event, Shown};
use std::alloc::{AllocError, Global};

/// A machine that runs a program. Each variable is looked up in an environment, and no step copies a term.
///
/// It stands for each configuration that is one with what it holds but for types and shapes that are written; one of
/// them is sound.
#[derive(Drop)]
pub struct Machine<'a> {
    parts: Parts<'a>,
    spare: u32,
    pub ghost linked: { IsLinked parts },
    pub ghost room: { HasRoom parts spare },
    pub ghost sound: { ∥ StandsSoundly (configuration_of parts) ∥₁ },
}

impl<'a> Machine<'a> {
    ghost use Rattle.std.specs.Prelude.{◌≡◌, ◌≢◌, ◌<◌, ◌≤◌, ◌+◌, ◌↔◌, max, Some, None, IfOk, IsOk, IsTrue, OnErr, OnOk, option_map};
    ghost use Rattle.cc_base.specs.Literals.{literal_of};
    ghost use Rattle.cc_device.specs.DeviceViews.{event_of, shown_of};
    ghost use Rattle.cc_machine.specs.Answering.{AdvancesAlike, AnswersAlike, GoesOnWith};
    ghost use Rattle.cc_machine.specs.Machines.{count_cells, held_by, spare_of};
    ghost use Rattle.cc_machine.specs.Standing.{KeepsShapes, StandsFor, StepsAlike, with_devices};
    ghost use Rattle.cc_runs.specs.Alike.{erased_configuration};
    ghost use Rattle.cc_runs.specs.Answers.{shown};
    ghost use Rattle.cc_runs.specs.Machine as table;
    ghost use Rattle.cc_runs.specs.Machine.{Configuration};
    ghost use Rattle.cc_runs.specs.Runs.{Moves, move};
    ghost use Rattle.cc_runs.specs.SoundRuns.{HasShapesOfCells};
    ghost use Rattle.cc_machine.specs.Programs.{start_of};
    ghost use Rattle.cc_machine.specs.Asking.{IsAnswerTo, asked_text, question_in, question_of};
    ghost use Rattle.cc_machine.specs.Lines.{IsWriting};

    /// The machine at the start of the program, whose cells it shares. Fails only for want of memory.
    pub fn load(alloc: Global, program: &'a Program) -> Result<Machine<'a>, AllocError>
        ensures start { IfOk result (λ machine. held_by machine ≡ erased_configuration (start_of program.now)) }
        ensures spare { IfOk result (λ machine. spare_of machine ≡ 0) }
    {
        program.starts_soundly();
        let parts = Parts {
            program,
            links: Vec::new(alloc),
            cells: Vec::new(alloc),
            frames: Vec::new(alloc),
            labels: 0,
            focus: Focus::Code(program.term(), 0),
        };
        Ok(Machine { parts, spare: 0 })
    }

    /// Takes memory for so many steps. Fails only for want of memory. Nothing else changes.
    pub fn reserve(&mut self, steps: u32) -> Result<(), AllocError>
        requires { count_cells self.old + steps < 4294967295 }
        ensures held { held_by self.new ≡ held_by self.old }
        ensures spare { OnOk result (spare_of self.new ≡ max (spare_of self.old) steps) }
        ensures kept { OnErr result (spare_of self.new ≡ spare_of self.old) }
    {
        self.parts.reserve(steps as usize)?;
        if self.spare < steps {
            self.spare = steps;
        }
        Ok(())
    }

    /// Where there is memory for no step, takes it for so many, or for as many of them as there are positions for. Fails
    /// only for want of memory. Nothing else changes.
    pub fn make_room(&mut self, steps: u32) -> Result<(), AllocError>
        requires { count_cells self.old < 4294967295 }
        ensures held { held_by self.new ≡ held_by self.old }
        ensures some { OnOk result (0 < spare_of self.new) }
        ensures spare { spare_of self.old ≤ spare_of self.new }
        ensures no_memory { 0 < spare_of self.old → IsOk result }
    {
        if self.spare == 0 {
            let taken = self.parts.fitting(steps);
            self.parts.reserve(taken as usize)?;
            self.spare = taken;
        }
        Ok(())
    }

    /// Whether the machine is at its end.
    pub fn is_final(&self) -> bool
        ensures { IsTrue result ↔ (table.step (held_by self.now) ≡ table.Final) }
    {
        self.parts.is_final()
    }

    /// What is shown of the answer at the end.
    pub fn value(&self) -> Shown<'a>
        requires { table.step (held_by self.now) ≡ table.Final }
        ensures { shown (held_by self.now) ≡ Some (shown_of result) }
    {
        match self.parts.shown() {
            Some(shown) => shown,
            None => unreachable!(),
        }
    }

    /// Takes one step on the devices. Fails only for want of memory, and then machine and devices are as before.
    pub fn step(&mut self, devices: &mut Devices) -> Result<Option<Event>, AllocError>
        requires positions { count_cells self.old < 4294967295 }
        requires fits { HasShapesOfCells (held_by self.old).store devices.old }
        requires running { table.step (held_by self.old) ≢ table.Final }
        ensures moves { IfOk result (λ event. move (with_devices (held_by self.old) devices.old) ≡ Moves (option_map event_of event) (with_devices (held_by self.new) devices.new)) }
        ensures steps { IfOk result (λ event. StepsAlike (held_by self.old) devices.old (option_map event_of event) (held_by self.new) devices.new) }
        ensures kept { OnErr result ((held_by self.new ≡ held_by self.old) × (devices.new ≡ devices.old)) }
        ensures fits { HasShapesOfCells (held_by self.new).store devices.new }
        ensures shapes { KeepsShapes devices.old devices.new }
        ensures cells { count_cells self.new ≤ count_cells self.old + 1 }
        ensures spare { OnOk result (spare_of self.old ≤ spare_of self.new + 1) }
        ensures no_memory { 0 < spare_of self.old → (IsWriting (held_by self.old).term → ⊥) → IsOk result }
    {
        self.make_room(1)?;
        let event = self.parts.step(devices)?;
        self.spare -= 1;
        Ok(event)
    }

    /// What a device is asked next, if one is: exactly where the step of the definitions asks.
    pub fn wanted(&self) -> Option<Wanted<'a>>
        ensures held { option_map question_of result ≡ question_in (table.step (held_by self.now)) }
        ensures alike { (configuration : Configuration) → StandsFor (held_by self.now) configuration → option_map question_of result ≡ question_in (table.step configuration) }
    {
        self.parts.wanted()
    }

    /// Takes one step where no device is asked. Fails only for want of memory, and then the machine is as before.
    pub fn advance(&mut self) -> Result<Option<Event>, AllocError>
        requires positions { count_cells self.old < 4294967295 }
        requires unasked { question_in (table.step (held_by self.old)) ≡ None }
        requires running { table.step (held_by self.old) ≢ table.Final }
        ensures next { IfOk result (λ event. table.step (held_by self.old) ≡ table.Next (option_map event_of event) (held_by self.new)) }
        ensures steps { IfOk result (λ event. AdvancesAlike (held_by self.old) (option_map event_of event) (held_by self.new)) }
        ensures kept { OnErr result (held_by self.new ≡ held_by self.old) }
        ensures cells { count_cells self.new ≤ count_cells self.old + 1 }
        ensures spare { OnOk result (spare_of self.old ≤ spare_of self.new + 1) }
        ensures no_memory { 0 < spare_of self.old → IsOk result }
    {
        self.make_room(1)?;
        let event = self.parts.advance();
        self.spare -= 1;
        Ok(event)
    }

    /// Takes one step with the answer to what is asked, which is of the operation's kind, in the place of a device's.
    /// Fails only for want of memory, which a text that is the argument alone takes, and then the machine is as before.
    pub fn answer(&mut self, answer: Lit) -> Result<Event, AllocError>
        requires { IsAnswerTo (question_in (table.step (held_by self.old))) (literal_of answer) }
        ensures next { IfOk result (λ event. GoesOnWith (literal_of answer) (held_by self.old) (event_of event) (held_by self.new)) }
        ensures steps { IfOk result (λ event. AnswersAlike (held_by self.old) (literal_of answer) (event_of event) (held_by self.new)) }
        ensures kept { OnErr result (held_by self.new ≡ held_by self.old) }
        ensures cells { count_cells self.new ≡ count_cells self.old }
        ensures spare { spare_of self.new ≡ spare_of self.old }
        ensures no_memory { asked_text (question_in (table.step (held_by self.old))) ≡ None → IsOk result }
    {
        match self.parts.wanted() {
            Some(wanted) => {
                let argument = wanted.own_argument()?;
                self.parts.resume(&answer);
                Ok(wanted.event(argument, answer))
            }
            None => unreachable!(),
        }
    }
}
