//! One step of the machine.
ghost use Rattle.std.specs.Prelude.{◌≡◌, ◌≤◌, ℕ, None, IfOk, IsOk, OnErr, length, option_map};
ghost use Rattle.cc_core.specs.Contexts.{lookup};
ghost use Rattle.cc_device.specs.DeviceViews.{event_of};
ghost use Rattle.cc_runs.specs.Machine as table;
ghost use Rattle.cc_runs.specs.Runs.{move};
ghost use Rattle.cc_machine.specs.declared.parts.Focus.TheVariants as focuses;
ghost use Rattle.cc_machine.specs.Asking.{question_in};
ghost use Rattle.cc_machine.specs.Lines.{Goes, GoesWith, IsWriting, on, state_in};
ghost use Rattle.cc_machine.specs.Operands.{HasFreeOperands, HoldsFreeContent};
ghost use Rattle.cc_machine.specs.Parts as views;
ghost use Rattle.cc_machine.specs.Parts.{IsLinked, HasRoom};
ghost use Rattle.cc_machine.specs.Placing.{term_in};

use crate::parts::{Focus, Parts};
use cc_core::{Form, Node};
use cc_device::{Devices, Event};
use std::alloc::AllocError;

impl<'a> Parts<'a> {
    // One step where a term of the program runs and asks nothing.
    fn advance_code(&mut self, node: &'a Node, environment: usize) -> Option<Event>
        requires linked { IsLinked self.old }
        requires room { HasRoom self.old 1 }
        requires focus { self.old.focus ≡ focuses.Code node environment }
        requires operands { HasFreeOperands (term_in self.old environment node.now) }
        requires contents { (position : ℕ) → HoldsFreeContent (lookup (views.configuration_of self.old).store position) }
        requires unasked { question_in (on self.old (λ store stack made. table.term_step store stack made (term_in self.old environment node.now))) ≡ None }
        ensures { Goes (on self.old (λ store stack made. table.term_step store stack made (term_in self.old environment node.now))) self.old (option_map event_of result) self.new }
    {
        match &node.form {
            Form::Var(_) => self.answered(),
            Form::Lit(_) => self.answered(),
            Form::Fun(_, _) => self.answered(),
            Form::TFun(_, _) => self.answered(),
            Form::Boxed(_) => self.answered(),
            Form::App(function, argument) => {
                self.apply(environment, *function, *argument);
                None
            }
            Form::TApp(function, _) => {
                self.instantiate(environment, *function);
                None
            }
            Form::Unbox(_, held) => {
                self.open(environment, *held);
                None
            }
            Form::Let(_, right, body) => {
                self.bind(right, body, environment);
                None
            }
            Form::Prim(operator, left, right) => {
                self.compute(environment, *operator, *left, *right);
                None
            }
            Form::If(_, test, positive, negative) => {
                self.choose(environment, *test, positive, negative);
                None
            }
            Form::Repeat(count, function) => {
                self.repeat(environment, *count, *function);
                None
            }
            // An operation that asks nothing is stuck.
            Form::Operate(_, _, _) => None,
            Form::Boundary(_, body) => self.begin(body, environment),
            Form::Leave(_, exit, value) => self.leave(environment, *exit, *value),
        }
    }

    /// One step where no device is asked.
    pub fn advance(&mut self) -> Option<Event>
        requires linked { IsLinked self.old }
        requires room { HasRoom self.old 1 }
        requires operands { HasFreeOperands (views.configuration_of self.old).term }
        requires contents { (position : ℕ) → HoldsFreeContent (lookup (views.configuration_of self.old).store position) }
        requires unasked { question_in (table.step (views.configuration_of self.old)) ≡ None }
        ensures { Goes (table.step (views.configuration_of self.old)) self.old (option_map event_of result) self.new }
    {
        match self.focus {
            Focus::Code(node, environment) => self.advance_code(node, environment),
            Focus::Position(_) => self.answered(),
            Focus::Small(_) => self.answered(),
            Focus::Apply(function, argument) => {
                self.apply_at(function, argument);
                None
            }
        }
    }

    // One step on the devices where a term of the program runs.
    fn step_code(
        &mut self,
        devices: &mut Devices,
        node: &'a Node,
        environment: usize,
    ) -> Result<Option<Event>, AllocError>
        requires linked { IsLinked self.old }
        requires room { HasRoom self.old 1 }
        requires focus { self.old.focus ≡ focuses.Code node environment }
        requires operands { HasFreeOperands (term_in self.old environment node.now) }
        requires contents { (position : ℕ) → HoldsFreeContent (lookup (views.configuration_of self.old).store position) }
        ensures moves { IfOk result (λ event. GoesWith (move (state_in self.old devices.old)) self.old (option_map event_of event) self.new devices.new) }
        ensures kept { OnErr result (self.new ≡ self.old) }
        ensures devices { OnErr result (devices.new ≡ devices.old) }
        ensures no_memory { (IsWriting (term_in self.old environment node.now) → ⊥) → IsOk result }
    {
        match &node.form {
            Form::Operate(operation, receiver, argument) => {
                match self.asked(environment, *operation, *receiver, *argument) {
                    Some(wanted) => self.operate(devices, wanted),
                    // An operation that asks nothing is stuck.
                    None => Ok(None),
                }
            }
            _ => Ok(self.advance_code(node, environment)),
        }
    }

    /// One step on the devices. Fails only for want of memory, and then the parts are as before.
    pub fn step(&mut self, devices: &mut Devices) -> Result<Option<Event>, AllocError>
        requires linked { IsLinked self.old }
        requires room { HasRoom self.old 1 }
        requires operands { HasFreeOperands (views.configuration_of self.old).term }
        requires contents { (position : ℕ) → HoldsFreeContent (lookup (views.configuration_of self.old).store position) }
        ensures moves { IfOk result (λ event. GoesWith (move (state_in self.old devices.old)) self.old (option_map event_of event) self.new devices.new) }
        ensures kept { OnErr result (self.new ≡ self.old) }
        ensures devices { OnErr result (devices.new ≡ devices.old) }
        ensures no_memory { (IsWriting (views.configuration_of self.old).term → ⊥) → IsOk result }
    {
        match self.focus {
            Focus::Code(node, environment) => self.step_code(devices, node, environment),
            Focus::Position(_) => Ok(self.answered()),
            Focus::Small(_) => Ok(self.answered()),
            Focus::Apply(function, argument) => {
                self.apply_at(function, argument);
                Ok(None)
            }
        }
    }
}
