//! Boundaries and exits.
ghost use Rattle.std.specs.Prelude.{◌≤◌, length, option_map};
ghost use Rattle.cc_capture.specs.declared.var.Var.TheVariants.{Free};
ghost use Rattle.cc_core.specs.Stores as stores;
ghost use Rattle.cc_core.specs.Stores.{LabelCell};
ghost use Rattle.cc_device.specs.DeviceViews.{event_of};
ghost use Rattle.cc_runs.specs.Machine as table;
ghost use Rattle.cc_machine.specs.Lines.{Goes, on};
ghost use Rattle.cc_machine.specs.Operands.{IsFree};
ghost use Rattle.cc_machine.specs.Parts as views;
ghost use Rattle.cc_machine.specs.Parts.{IsLinked, HasRoom};
ghost use Rattle.cc_machine.specs.Placing.{body_in, variable_in};
ghost use Rattle.cc_machine.specs.Unwinding.{Unwinds};

use crate::links::operand;
use crate::parts::{Cell, Focus, Frame, Parts};
use cc_capture::Var;
use cc_core::Node;
use cc_device::Event;

impl<'a> Parts<'a> {
    /// A boundary is entered, with a new label.
    pub fn begin(&mut self, body: &'a Node, environment: usize) -> Option<Event>
        requires linked { IsLinked self.old }
        requires room { HasRoom self.old 1 }
        requires within { environment ≤ length self.old.links.items }
        ensures { Goes (on self.old (λ store stack made. table.boundary_step store stack made (body_in self.old environment body.now))) self.old (option_map event_of result) self.new }
    {
        let label = self.labels;
        let position = self.add(Cell::Label(label));
        self.wait(Frame::Scope(label));
        self.labels = label + 1;
        self.enter(body, environment, Some(position));
        Some(Event::Enter(label))
    }

    // Takes frames from the stack, down to the topmost scope of the label and with it, and answers whether it stood
    // there.
    fn unwind(&mut self, label: u32) -> bool
        requires { IsLinked self.old }
        ensures { Unwinds label self.old self.new result }
    {
        while let Some(frame) = self.pop() {
            match frame {
                Frame::Scope(other) => {
                    if other == label {
                        return true;
                    }
                }
                Frame::Body(_, _) => {}
                Frame::Repeat(_, _, _) => {}
            }
        }
        false
    }

    // The boundary of the label is left with the value.
    fn leave_label(&mut self, label: u32, value: u32) -> Option<Event>
        requires { IsLinked self.old }
        ensures { Goes (on self.old (λ store stack made. table.exit_step store stack made (Free value) (Some (LabelCell label)))) self.old (option_map event_of result) self.new }
    {
        if self.unwind(label) {
            self.focus = Focus::Position(value);
            Some(Event::Exited(label))
        } else {
            None
        }
    }

    // The boundary of the label in the cell is left.
    fn leave_cell(&mut self, cell: Cell<'a>, value: u32) -> Option<Event>
        requires { IsLinked self.old }
        ensures { Goes (on self.old (λ store stack made. table.exit_step store stack made (Free value) (Some (views.cell_in self.old.links.items cell.entry)))) self.old (option_map event_of result) self.new }
    {
        match cell {
            Cell::Label(label) => self.leave_label(label, value),
            Cell::Code(_, _) => None,
            Cell::Small(_) => None,
            Cell::Device(_, _) => None,
        }
    }

    /// A boundary is left by an exit with a value.
    pub fn leave(&mut self, environment: usize, exit: Var, value: Var) -> Option<Event>
        requires linked { IsLinked self.old }
        requires operands { IsFree (variable_in self.old environment value) }
        ensures { Goes (on self.old (λ store stack made. table.exit_step store stack made (variable_in self.old environment value) (stores.cell_at store (variable_in self.old environment exit)))) self.old (option_map event_of result) self.new }
    {
        let value = operand(&self.links, environment, value);
        match self.cell_of(environment, exit) {
            Some(cell) => self.leave_cell(cell, value),
            None => None,
        }
    }
}
