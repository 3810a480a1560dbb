//! Operations of devices.
ghost use Rattle.std.specs.Prelude.{◌≡◌, ◌&&◌, None, Some, IfOk, IsOk, OnErr, option_map};
ghost use Rattle.cc_base.specs.Literals.{literal_of};
ghost use Rattle.cc_device.specs.Calls.{TakesNoMemory};
ghost use Rattle.cc_device.specs.Events.{Operated, literal_shown};
ghost use Rattle.cc_device.specs.DeviceViews.{event_of, shown_literal};
ghost use Rattle.cc_runs.specs.Machine as table;
ghost use Rattle.cc_runs.specs.Runs.{move};
ghost use Rattle.cc_machine.specs.Asking.{IsAnswerTo, Resumes, question_in, question_of};
ghost use Rattle.cc_machine.specs.Lines.{GoesWith, state_in, text_in};
ghost use Rattle.cc_machine.specs.Parts as views;
ghost use Rattle.cc_machine.specs.Parts.{IsLinked};

use crate::asking::Wanted;
use crate::parts::{Focus, Parts, Small};
use cc_base::literal::Lit;
use cc_device::table::answer;
use cc_device::{Devices, Event, ShownLit};
use std::alloc::AllocError;

// The literal, with a text of its own. Fails only for want of memory.
fn owned(literal: ShownLit) -> Result<Lit, AllocError>
    ensures literal { IfOk result (λ own. literal_of own ≡ shown_literal literal.entry) }
    ensures no_memory { text_in (Some (shown_literal literal.entry)) ≡ None → IsOk result }
{
    match literal {
        ShownLit::Unit => Ok(Lit::Unit),
        ShownLit::Bool(truth) => Ok(Lit::Bool(truth)),
        ShownLit::Int(number) => Ok(Lit::Int(number)),
        ShownLit::Str(text) => {
            let own = text.clone()?;
            Ok(Lit::Str(own))
        }
    }
}

impl<'a> Wanted<'a> {
    /// The argument, if there is one, with a text of its own. Fails only for want of memory, which a text alone takes.
    pub fn own_argument(&self) -> Result<Option<Lit>, AllocError>
        ensures argument { IfOk result (λ own. option_map literal_of own ≡ (question_of self.now).argument) }
        ensures no_memory { text_in (question_of self.now).argument ≡ None → IsOk result }
    {
        match self.argument {
            Some(literal) => {
                let own = owned(literal)?;
                Ok(Some(own))
            }
            None => Ok(None),
        }
    }

    /// The event of the operation, which has its argument or else the answer.
    pub fn event(&self, argument: Option<Lit>, answer: Lit) -> Event
        ensures { event_of result ≡ Operated self.now.device self.now.operation (literal_shown (option_map literal_of argument) (literal_of answer)) }
    {
        match argument {
            Some(literal) => Event::Device {
                device: self.device,
                op: self.operation,
                lit: literal,
            },
            None => Event::Device {
                device: self.device,
                op: self.operation,
                lit: answer,
            },
        }
    }
}

impl<'a> Parts<'a> {
    /// Goes on with an answer to what is wanted.
    pub fn resume(&mut self, answer: &Lit)
        requires linked { IsLinked self.old }
        requires answer { IsAnswerTo (question_in (table.step (views.configuration_of self.old))) (literal_of answer.now) }
        ensures { Resumes (table.step (views.configuration_of self.old)) (literal_of answer.now) self.old self.new }
    {
        match answer {
            Lit::Unit => self.focus = Focus::Small(Small::Unit),
            Lit::Bool(truth) => self.focus = Focus::Small(Small::Truth(*truth)),
            Lit::Int(number) => self.focus = Focus::Small(Small::Number(*number)),
            // No operation is answered by a text.
            Lit::Str(_) => unreachable!(),
        }
    }

    /// One step on the devices where one is asked: it operates, and its answer is gone on with. Fails only for want of
    /// memory, and then all is as before.
    pub fn operate(
        &mut self,
        devices: &mut Devices,
        wanted: Wanted<'a>,
    ) -> Result<Option<Event>, AllocError>
        requires linked { IsLinked self.old }
        requires wanted { Some (question_of wanted) ≡ question_in (table.step (views.configuration_of self.old)) }
        ensures moves { IfOk result (λ event. GoesWith (move (state_in self.old devices.old)) self.old (option_map event_of event) self.new devices.new) }
        ensures kept { OnErr result (self.new ≡ self.old) }
        ensures devices { OnErr result (devices.new ≡ devices.old) }
        ensures no_memory { TakesNoMemory wanted.entry.operation → IsOk result }
    {
        let taken = wanted.own_argument()?;
        let shown = wanted.own_argument()?;
        match answer(devices, wanted.device, wanted.operation, taken)? {
            Some(answer) => {
                self.resume(&answer);
                Ok(Some(wanted.event(shown, answer)))
            }
            None => Ok(None),
        }
    }
}
