//! What a device is asked.
ghost use Rattle.std.specs.Prelude.{◌≡◌, ℕ, Some, None, List, option_map};
ghost use Rattle.cc_base.specs.declared.literal.Base.TheVariants as bases;
ghost use Rattle.cc_core.specs.Stores as stores;
ghost use Rattle.cc_core.specs.Stores.{DeviceCell, Store};
ghost use Rattle.cc_core.specs.Typing as typing;
ghost use Rattle.cc_device.specs.DeviceViews.{shown_literal};
ghost use Rattle.cc_runs.specs.Machine as table;
ghost use Rattle.cc_runs.specs.Machine.{Stack};
ghost use Rattle.cc_machine.specs.Asking.{question_in, question_of};
ghost use Rattle.cc_machine.specs.declared.links.Link.{Link};
ghost use Rattle.cc_machine.specs.Lines.{on};
ghost use Rattle.cc_machine.specs.Parts as views;
ghost use Rattle.cc_machine.specs.Placing.{term_in, variable_in};

use crate::parts::{Cell, Focus, Parts};
use cc_base::literal::{Base, Op};
use cc_capture::Var;
use cc_core::{Form, Node};
use cc_device::ShownLit;

/// What a device is asked: the device of the number, the operation, and its argument if it has one. A text is borrowed
/// from the program.
#[derive(Clone, Copy)]
pub struct Wanted<'a> {
    pub device: u32,
    pub operation: Op,
    pub argument: Option<ShownLit<'a>>,
}

// The base shape of the devices that an operation is for.
fn base_operated(operation: Op) -> Base
    ensures { result ≡ typing.base_operated operation }
{
    match operation {
        Op::Print => Base::Console,
        Op::Say => Base::Console,
        Op::Read => Base::File,
        Op::Write => Base::File,
        Op::Tick => Base::Counter,
    }
}

// Whether two base shapes are one.
fn same_base(left: Base, right: Base) -> bool
    ensures { result ≡ table.same_base left right }
{
    left == right
}

// Whether the literal is what the operation takes.
fn takes(operation: Op, literal: ShownLit) -> bool
    ensures { result ≡ table.is_taken (typing.base_taken operation) (Some (shown_literal literal.entry)) }
{
    match operation {
        Op::Print => is_number(literal),
        Op::Say => is_text(literal),
        Op::Read => false,
        Op::Write => is_number(literal),
        Op::Tick => false,
    }
}

// Whether the literal is a number.
fn is_number(literal: ShownLit) -> bool
    ensures { result ≡ table.same_base bases.Int (typing.base_of (shown_literal literal.entry)) }
{
    match literal {
        ShownLit::Int(_) => true,
        _ => false,
    }
}

// Whether the literal is a text.
fn is_text(literal: ShownLit) -> bool
    ensures { result ≡ table.same_base bases.Str (typing.base_of (shown_literal literal.entry)) }
{
    match literal {
        ShownLit::Str(_) => true,
        _ => false,
    }
}

// Whether the argument is what the operation takes.
fn is_taken(operation: Op, argument: Option<ShownLit>) -> bool
    ensures { result ≡ table.is_taken (typing.base_taken operation) (option_map shown_literal argument.entry) }
{
    match argument {
        Some(literal) => takes(operation, literal),
        None => takes_none(operation),
    }
}

// Whether the operation takes no argument.
fn takes_none(operation: Op) -> bool
    ensures { result ≡ table.is_taken (typing.base_taken operation) None }
{
    match operation {
        Op::Read => true,
        Op::Tick => true,
        _ => false,
    }
}

// The question of the operation to the device of the base shape, if they suit each other and the argument.
fn question<'a>(
    operation: Op,
    device: u32,
    base: Base,
    argument: Option<ShownLit<'a>>,
) -> Option<Wanted<'a>>
    ensures { (store : Store) (stack : Stack) (made : ℕ) → option_map question_of result ≡ question_in (table.operation_step store stack made operation (Some (DeviceCell device base)) (Some (option_map shown_literal argument.entry))) }
{
    if same_base(base, base_operated(operation)) && is_taken(operation, argument) {
        Some(Wanted {
            device,
            operation,
            argument,
        })
    } else {
        None
    }
}

// The question of the operation to what stands in the cell.
fn question_to<'a>(
    operation: Op,
    cell: Cell<'a>,
    argument: Option<ShownLit<'a>>,
) -> Option<Wanted<'a>>
    ensures { (links : List Link) (store : Store) (stack : Stack) (made : ℕ) → option_map question_of result ≡ question_in (table.operation_step store stack made operation (Some (views.cell_in links cell.entry)) (Some (option_map shown_literal argument.entry))) }
{
    match cell {
        Cell::Device(device, base) => question(operation, device, base, argument),
        Cell::Code(_, _) => None,
        Cell::Small(_) => None,
        Cell::Label(_) => None,
    }
}

impl<'a> Parts<'a> {
    // The argument that the variable stands for in the environment, if there is a variable. There is none where the
    // variable stands for no literal.
    fn argument_at(&self, environment: usize, argument: Option<Var>) -> Option<Option<ShownLit<'a>>>
        ensures { option_map (option_map shown_literal) result ≡ table.argument_at (views.configuration_of self.now).store (option_map (variable_in self.now environment) argument) }
    {
        match argument {
            Some(variable) => match self.literal_at(environment, variable) {
                Some(literal) => Some(Some(literal)),
                None => None,
            },
            None => Some(None),
        }
    }

    /// What the operation asks in the environment.
    pub fn asked(
        &self,
        environment: usize,
        operation: Op,
        receiver: Var,
        argument: Option<Var>,
    ) -> Option<Wanted<'a>>
        ensures { option_map question_of result ≡ question_in (on self.now (λ store stack made. table.operation_step store stack made operation (stores.cell_at store (variable_in self.now environment receiver)) (table.argument_at store (option_map (variable_in self.now environment) argument)))) }
    {
        match self.cell_of(environment, receiver) {
            Some(cell) => match self.argument_at(environment, argument) {
                Some(argument) => question_to(operation, cell, argument),
                None => None,
            },
            None => None,
        }
    }

    // What the term of the program asks in the environment.
    fn asked_in(&self, node: &'a Node, environment: usize) -> Option<Wanted<'a>>
        ensures { option_map question_of result ≡ question_in (on self.now (λ store stack made. table.term_step store stack made (term_in self.now environment node.now))) }
    {
        match &node.form {
            Form::Operate(operation, receiver, argument) => {
                self.asked(environment, *operation, *receiver, *argument)
            }
            _ => None,
        }
    }

    /// What is asked of a device next, if anything is: exactly where the step of the definitions asks.
    pub fn wanted(&self) -> Option<Wanted<'a>>
        ensures { option_map question_of result ≡ question_in (table.step (views.configuration_of self.now)) }
    {
        match self.focus {
            Focus::Code(node, environment) => self.asked_in(node, environment),
            Focus::Position(_) => None,
            Focus::Small(_) => None,
            Focus::Apply(_, _) => None,
        }
    }
}
