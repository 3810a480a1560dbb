//! Calls of functions and type functions, and boxes that are opened.
ghost use Rattle.std.specs.Prelude.{◌≤◌, length};
ghost use Rattle.cc_capture.specs.declared.var.Var.TheVariants.{Free};
ghost use Rattle.cc_core.specs.Shapes.{AnyShape};
ghost use Rattle.cc_core.specs.Stores as stores;
ghost use Rattle.cc_core.specs.Stores.{ValueCell};
ghost use Rattle.cc_runs.specs.Machine as table;
ghost use Rattle.cc_machine.specs.Lines.{Goes, on};
ghost use Rattle.cc_machine.specs.Operands.{IsFree, HoldsFreeContent};
ghost use Rattle.cc_machine.specs.Parts as views;
ghost use Rattle.cc_machine.specs.Parts.{IsLinked, HasRoom};
ghost use Rattle.cc_machine.specs.Placing.{term_in, variable_in};

use crate::links::operand;
use crate::parts::{Cell, Focus, Parts};
use cc_capture::Var;
use cc_core::{Form, Node};

impl<'a> Parts<'a> {
    // The body of the function that the node is, with the argument.
    fn apply_node(&mut self, node: &'a Node, environment: usize, argument: u32)
        requires linked { IsLinked self.old }
        requires room { HasRoom self.old 1 }
        requires within { environment ≤ length self.old.links.items }
        ensures { Goes (on self.old (λ store stack made. table.apply_step store stack made (Free argument) (Some (ValueCell (term_in self.old environment node.now))))) self.old None self.new }
    {
        match &node.form {
            Form::Fun(_, body) => self.enter(body, environment, Some(argument)),
            _ => {}
        }
    }

    // The same of the function in the cell.
    fn apply_cell(&mut self, cell: Cell<'a>, argument: u32)
        requires linked { IsLinked self.old }
        requires room { HasRoom self.old 1 }
        requires within { views.cell_environment (Some cell) ≤ length self.old.links.items }
        ensures { Goes (on self.old (λ store stack made. table.apply_step store stack made (Free argument) (Some (views.cell_in self.old.links.items cell.entry)))) self.old None self.new }
    {
        match cell {
            Cell::Code(node, environment) => self.apply_node(node, environment, argument),
            Cell::Small(_) => {}
            Cell::Device(_, _) => {}
            Cell::Label(_) => {}
        }
    }

    /// The function at the position, applied to the argument.
    pub fn apply_at(&mut self, function: u32, argument: u32)
        requires linked { IsLinked self.old }
        requires room { HasRoom self.old 1 }
        ensures { Goes (on self.old (λ store stack made. table.apply_step store stack made (Free argument) (stores.cell_at store (Free function)))) self.old None self.new }
    {
        match self.cell_of(0, Var::Free(function)) {
            Some(cell) => self.apply_cell(cell, argument),
            None => {}
        }
    }

    /// A function applied to an argument.
    pub fn apply(&mut self, environment: usize, function: Var, argument: Var)
        requires linked { IsLinked self.old }
        requires room { HasRoom self.old 1 }
        requires operands { IsFree (variable_in self.old environment argument) }
        ensures { Goes (on self.old (λ store stack made. table.apply_step store stack made (variable_in self.old environment argument) (stores.cell_at store (variable_in self.old environment function)))) self.old None self.new }
    {
        let argument = operand(&self.links, environment, argument);
        match self.cell_of(environment, function) {
            Some(cell) => self.apply_cell(cell, argument),
            None => {}
        }
    }

    // The body of the type function that the node is.
    fn instantiate_node(&mut self, node: &'a Node, environment: usize)
        requires linked { IsLinked self.old }
        requires room { HasRoom self.old 1 }
        requires within { environment ≤ length self.old.links.items }
        ensures { Goes (on self.old (λ store stack made. table.type_apply_step store stack made AnyShape (Some (ValueCell (term_in self.old environment node.now))))) self.old None self.new }
    {
        match &node.form {
            Form::TFun(_, body) => self.enter(body, environment, None),
            _ => {}
        }
    }

    // The same of the type function in the cell.
    fn instantiate_cell(&mut self, cell: Cell<'a>)
        requires linked { IsLinked self.old }
        requires room { HasRoom self.old 1 }
        requires within { views.cell_environment (Some cell) ≤ length self.old.links.items }
        ensures { Goes (on self.old (λ store stack made. table.type_apply_step store stack made AnyShape (Some (views.cell_in self.old.links.items cell.entry)))) self.old None self.new }
    {
        match cell {
            Cell::Code(node, environment) => self.instantiate_node(node, environment),
            Cell::Small(_) => {}
            Cell::Device(_, _) => {}
            Cell::Label(_) => {}
        }
    }

    /// A type function applied to a shape, which is not kept.
    pub fn instantiate(&mut self, environment: usize, function: Var)
        requires linked { IsLinked self.old }
        requires room { HasRoom self.old 1 }
        ensures { Goes (on self.old (λ store stack made. table.type_apply_step store stack made AnyShape (stores.cell_at store (variable_in self.old environment function)))) self.old None self.new }
    {
        match self.cell_of(environment, function) {
            Some(cell) => self.instantiate_cell(cell),
            None => {}
        }
    }

    // The content of the box that the node is.
    fn open_node(&mut self, node: &'a Node, environment: usize)
        requires linked { IsLinked self.old }
        requires content { HoldsFreeContent (Some (ValueCell (term_in self.old environment node.now))) }
        ensures { Goes (on self.old (λ store stack made. table.unbox_step store stack made (Some (ValueCell (term_in self.old environment node.now))))) self.old None self.new }
    {
        match &node.form {
            Form::Boxed(content) => {
                let position = operand(&self.links, environment, *content);
                self.focus = Focus::Position(position);
            }
            _ => {}
        }
    }

    // The same of the box in the cell.
    fn open_cell(&mut self, cell: Cell<'a>)
        requires linked { IsLinked self.old }
        requires content { HoldsFreeContent (Some (views.cell_in self.old.links.items cell)) }
        ensures { Goes (on self.old (λ store stack made. table.unbox_step store stack made (Some (views.cell_in self.old.links.items cell.entry)))) self.old None self.new }
    {
        match cell {
            Cell::Code(node, environment) => self.open_node(node, environment),
            Cell::Small(_) => {}
            Cell::Device(_, _) => {}
            Cell::Label(_) => {}
        }
    }

    /// A box that is opened.
    pub fn open(&mut self, environment: usize, held: Var)
        requires linked { IsLinked self.old }
        requires content { HoldsFreeContent (stores.cell_at (views.configuration_of self.old).store (variable_in self.old environment held)) }
        ensures { Goes (on self.old (λ store stack made. table.unbox_step store stack made (stores.cell_at store (variable_in self.old environment held)))) self.old None self.new }
    {
        match self.cell_of(environment, held) {
            Some(cell) => self.open_cell(cell),
            None => {}
        }
    }
}
