//! Small changes of the parts, for which there is room.
ghost use Rattle.std.specs.Prelude.{◌≡◌, ◌<◌, ◌≤◌, ◌+◌, ◌^◌, IsOk, OnOk, length, vec_len, vec_capacity, MatchOption};
ghost use Rattle.cc_machine.specs.Growing.{Enters, Adds, Waits, Pops, HasNoFrame};
ghost use Rattle.cc_machine.specs.Parts.{HasRoom, loaded_cells};
ghost use Rattle.cc_machine.specs.Reserving.{HoldsTheSame};

use crate::links::Link;
use crate::parts::{Cell, Focus, Frame, Parts};
use cc_core::Node;
use std::alloc::AllocError;

impl<'a> Parts<'a> {
    /// Makes room for so many steps. Fails only for want of memory, and keeps what the parts hold, and their room.
    pub fn reserve(&mut self, steps: usize) -> Result<(), AllocError>
        requires { length (loaded_cells self.old) + length self.old.cells.items + steps < 4294967296 }
        ensures succeeds { HasRoom self.old steps → IsOk result }
        ensures room { OnOk result (HasRoom self.new steps) }
        ensures same { HoldsTheSame self.old self.new }
    {
        self.links.reserve(steps)?;
        self.cells.reserve(steps)?;
        self.frames.reserve(steps)
    }

    /// How many of so many steps there are positions for, and at least one.
    pub fn fitting(&self, steps: u32) -> u32
        requires { length (loaded_cells self.now) + length self.now.cells.items < 4294967295 }
        ensures positions { length (loaded_cells self.now) + length self.now.cells.items + result < 4294967296 }
        ensures some { 0 < result }
    {
        let held = self.program.count() + self.cells.len() as u32;
        steps.min(4294967295 - held).max(1)
    }

    /// Runs the body of a binder next. The binder stands for the position, or for none.
    pub fn enter(&mut self, body: &'a Node, environment: usize, position: Option<u32>)
        requires { vec_len self.old.links < vec_capacity self.old.links }
        ensures { Enters body.entry environment position self.old self.new }
    {
        let count = self.links.len();
        self.links.push_reserved(Link {
            position,
            before: environment,
        });
        self.focus = Focus::Code(body, count + 1);
    }

    /// Adds a cell, and answers its position.
    pub fn add(&mut self, cell: Cell<'a>) -> u32
        requires room { vec_len self.old.cells < vec_capacity self.old.cells }
        requires positions { length (loaded_cells self.old) + length self.old.cells.items < 4294967296 }
        ensures { Adds cell.entry result self.old self.new }
    {
        let position = self.program.count() + self.cells.len() as u32;
        self.cells.push_reserved(cell);
        position
    }

    /// Puts a frame on the stack.
    pub fn wait(&mut self, frame: Frame<'a>)
        requires { vec_len self.old.frames < vec_capacity self.old.frames }
        ensures { Waits frame.entry self.old self.new }
    {
        self.frames.push_reserved(frame);
    }

    /// Takes the top frame from the stack, if there is one.
    pub fn pop(&mut self) -> Option<Frame<'a>>
        ensures { MatchOption result (HasNoFrame self.old self.new) (λ frame. Pops frame self.old self.new) }
    {
        self.frames.pop()
    }
}
