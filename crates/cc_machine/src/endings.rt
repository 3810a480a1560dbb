//! Ends: whether the parts are at one, and what is shown there.
ghost use Rattle.std.specs.Prelude.{◌≡◌, ◌↔◌, List, Some, IsTrue, option_map};
ghost use Rattle.cc_core.specs.Stores as stores;
ghost use Rattle.cc_core.specs.TermViews.{term_of};
ghost use Rattle.cc_device.specs.DeviceViews.{shown_of};
ghost use Rattle.cc_runs.specs.Answers as answers;
ghost use Rattle.cc_runs.specs.Machine as table;
ghost use Rattle.cc_machine.specs.declared.links.Link.{Link};
ghost use Rattle.cc_machine.specs.Parts as views;
ghost use Rattle.cc_machine.specs.Placing.{term_in, variable_in};

use crate::parts::{Cell, Focus, Parts};
use crate::reading::{is_answer, lent, lent_small};
use cc_capture::Var;
use cc_core::{Form, Node};
use cc_device::Shown;

// What is shown of the value that the node is, if it is one.
fn shown_value(node: &Node) -> Option<Shown<'_>>
    ensures { option_map shown_of result ≡ answers.shown_value (term_of node.now) }
{
    match &node.form {
        Form::Lit(literal) => Some(Shown::Lit(lent(literal))),
        Form::Fun(_, _) => Some(Shown::Function),
        Form::TFun(_, _) => Some(Shown::TypeFunction),
        Form::Boxed(_) => Some(Shown::Box),
        _ => None,
    }
}

// What is shown of the cell.
fn shown_cell<'a>(cell: Cell<'a>) -> Option<Shown<'a>>
    ensures { (links : List Link) → option_map shown_of result ≡ answers.shown_cell (Some (views.cell_in links cell.entry)) }
{
    match cell {
        Cell::Code(node, _) => shown_value(node),
        Cell::Small(small) => Some(Shown::Lit(lent_small(small))),
        Cell::Device(device, _) => Some(Shown::Device(device)),
        Cell::Label(label) => Some(Shown::Label(label)),
    }
}

impl<'a> Parts<'a> {
    // Whether the term that runs is a variable or a value.
    fn holds_answer(&self) -> bool
        ensures { result ≡ answers.is_answer (views.configuration_of self.now).term }
    {
        match self.focus {
            Focus::Code(node, _) => is_answer(node),
            Focus::Position(_) => true,
            Focus::Small(_) => true,
            Focus::Apply(_, _) => false,
        }
    }

    /// Whether no step is left.
    pub fn is_final(&self) -> bool
        ensures { IsTrue result ↔ (table.step (views.configuration_of self.now) ≡ table.Final) }
    {
        self.frames.is_empty() && self.holds_answer()
    }

    // What is shown of the variable, if it has a cell.
    fn shown_at(&self, environment: usize, variable: Var) -> Option<Shown<'a>>
        ensures { option_map shown_of result ≡ answers.shown_cell (stores.cell_at (views.configuration_of self.now).store (variable_in self.now environment variable)) }
    {
        match self.cell_of(environment, variable) {
            Some(cell) => shown_cell(cell),
            None => None,
        }
    }

    // What is shown of the answer that the node is, if it is one.
    fn shown_node(&self, node: &'a Node, environment: usize) -> Option<Shown<'a>>
        ensures { option_map shown_of result ≡ answers.shown_answer (views.configuration_of self.now).store (term_in self.now environment node.now) }
    {
        match &node.form {
            Form::Var(variable) => self.shown_at(environment, *variable),
            _ => shown_value(node),
        }
    }

    /// What is shown of the answer that runs, if it is one.
    pub fn shown(&self) -> Option<Shown<'a>>
        ensures { option_map shown_of result ≡ answers.shown (views.configuration_of self.now) }
    {
        match self.focus {
            Focus::Code(node, environment) => self.shown_node(node, environment),
            Focus::Position(position) => self.shown_at(0, Var::Free(position)),
            Focus::Small(small) => Some(Shown::Lit(lent_small(small))),
            Focus::Apply(_, _) => None,
        }
    }
}
