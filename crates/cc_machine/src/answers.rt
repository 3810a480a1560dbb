//! Answers: they get a name in the body of a let, end a boundary, or go on with a repetition.
ghost use Rattle.std.specs.Prelude.{◌≡◌, ◌<◌, ◌≤◌, ◌^◌, ◌∷◌, ℕ, IsTrue, length, option_map};
ghost use Rattle.cc_capture.specs.declared.var.Var.TheVariants.{Free};
ghost use Rattle.cc_core.specs.TermViews.{term_of};
ghost use Rattle.cc_device.specs.DeviceViews.{event_of};
ghost use Rattle.cc_runs.specs.Answers as answers;
ghost use Rattle.cc_runs.specs.Machine as table;
ghost use Rattle.cc_machine.specs.Lines.{Goes, on};
ghost use Rattle.cc_machine.specs.Naming.{Names};
ghost use Rattle.cc_machine.specs.Operands.{HasFreeOperands};
ghost use Rattle.cc_machine.specs.Parts as views;
ghost use Rattle.cc_machine.specs.Parts.{IsLinked, HasRoom};
ghost use Rattle.cc_machine.specs.Placing.{term_in, body_in};

use crate::links::operand;
use crate::parts::{Cell, Focus, Frame, Parts, Small};
use crate::reading::is_answer;
use cc_core::{Form, Node};
use cc_device::Event;

impl<'a> Parts<'a> {
    /// The position of an answer of the program: of a variable its own, and of a value that of a new cell.
    pub fn name_code(&mut self, node: &'a Node, environment: usize) -> u32
        requires linked { IsLinked self.old }
        requires room { HasRoom self.old 1 }
        requires within { environment ≤ length self.old.links.items }
        requires answer { IsTrue (answers.is_answer (term_of node.now)) }
        requires operands { HasFreeOperands (term_in self.old environment node.now) }
        ensures { Names (term_in self.old environment node.now) self.old self.new result }
    {
        match &node.form {
            Form::Var(variable) => operand(&self.links, environment, *variable),
            _ => self.add(Cell::Code(node, environment)),
        }
    }

    // The position of the answer that runs.
    fn name_focus(&mut self) -> u32
        requires linked { IsLinked self.old }
        requires room { HasRoom self.old 1 }
        requires answer { IsTrue (answers.is_answer (views.configuration_of self.old).term) }
        requires operands { HasFreeOperands (views.configuration_of self.old).term }
        ensures { Names (views.configuration_of self.old).term self.old self.new result }
    {
        match self.focus {
            Focus::Code(node, environment) => self.name_code(node, environment),
            Focus::Position(position) => position,
            Focus::Small(small) => self.add(Cell::Small(small)),
            Focus::Apply(_, _) => 0,
        }
    }

    // What an answer does to the frame that was the top one.
    fn answer(&mut self, frame: Frame<'a>) -> Option<Event>
        requires linked { IsLinked self.old }
        requires room { HasRoom self.old 1 }
        requires within { views.frame_environment (Some frame) ≤ length self.old.links.items }
        requires begun { views.frame_begun (Some frame) ≤ views.frame_wanted (Some frame) }
        requires wanted { views.frame_wanted (Some frame) < 2 ^ 63 }
        requires answer { IsTrue (answers.is_answer (views.configuration_of self.old).term) }
        requires operands { HasFreeOperands (views.configuration_of self.old).term }
        ensures { Goes (on self.old (λ store stack made. table.term_step store (views.frame_in self.old.links.items frame.entry ∷ stack) made (views.configuration_of self.old).term)) self.old (option_map event_of result) self.new }
    {
        match frame {
            Frame::Body(body, environment) => {
                let position = self.name_focus();
                self.enter(body, environment, Some(position));
                None
            }
            Frame::Scope(label) => Some(Event::Ended(label)),
            Frame::Repeat(function, begun, wanted) => {
                self.again(function, begun, wanted);
                None
            }
        }
    }

    /// What an answer does to the top frame. Without a frame nothing is done.
    pub fn answered(&mut self) -> Option<Event>
        requires linked { IsLinked self.old }
        requires room { HasRoom self.old 1 }
        requires answer { IsTrue (answers.is_answer (views.configuration_of self.old).term) }
        requires operands { HasFreeOperands (views.configuration_of self.old).term }
        ensures { Goes (table.step (views.configuration_of self.old)) self.old (option_map event_of result) self.new }
    {
        match self.pop() {
            Some(frame) => self.answer(frame),
            None => None,
        }
    }

    // After a call of a repetition: the next call, or its end.
    fn again(&mut self, function: u32, begun: u64, wanted: u64)
        requires linked { IsLinked self.old }
        requires room { HasRoom self.old 1 }
        requires begun { begun ≤ wanted }
        requires wanted { wanted < 2 ^ 63 }
        ensures { Goes (on self.old (λ store stack made. table.repeat_step store stack made (Free function) begun wanted)) self.old None self.new }
    {
        if begun == wanted {
            self.focus = Focus::Small(Small::Unit);
        } else {
            self.call(function, begun + 1, wanted, begun);
        }
    }

    /// Calls the function of a repetition with the number.
    pub fn call(&mut self, function: u32, begun: u64, wanted: u64, number: u64)
        requires linked { IsLinked self.old }
        requires room { HasRoom self.old 1 }
        requires begun { begun ≤ wanted }
        requires wanted { wanted < 2 ^ 63 }
        requires number { number < 2 ^ 63 }
        ensures { Goes (on self.old (λ store stack made. table.call_with_number store stack made (Free function) begun wanted number)) self.old None self.new }
    {
        let position = self.add(Cell::Small(Small::Number(number as i64)));
        self.wait(Frame::Repeat(function, begun, wanted));
        self.focus = Focus::Apply(function, position);
    }

    /// A let: of an answer its body goes on, and of any other right side it waits.
    pub fn bind(&mut self, right: &'a Node, body: &'a Node, environment: usize)
        requires linked { IsLinked self.old }
        requires room { HasRoom self.old 1 }
        requires within { environment ≤ length self.old.links.items }
        requires operands { HasFreeOperands (term_in self.old environment right.now) }
        ensures { Goes (on self.old (λ store stack made. table.let_step store stack made (term_in self.old environment right.now) (body_in self.old environment body.now))) self.old None self.new }
    {
        if is_answer(right) {
            let position = self.name_code(right, environment);
            self.enter(body, environment, Some(position));
        } else {
            self.wait(Frame::Body(body, environment));
            self.focus = Focus::Code(right, environment);
        }
    }
}
