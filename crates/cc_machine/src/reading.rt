//! What stands in cells, and the literals there.
ghost use Rattle.std.specs.Prelude.{◌≡◌, Some, None, List, slice_get, option_map};
ghost use Rattle.cc_base.specs.Literals.{literal_of};
ghost use Rattle.cc_capture.specs.declared.var.Var.TheVariants.{Free};
ghost use Rattle.cc_core.specs.Stores as stores;
ghost use Rattle.cc_core.specs.TermViews.{term_of};
ghost use Rattle.cc_device.specs.DeviceViews.{shown_literal};
ghost use Rattle.cc_runs.specs.Answers as answers;
ghost use Rattle.cc_runs.specs.Machine.{literal_in};
ghost use Rattle.cc_machine.specs.declared.links.Link.{Link};
ghost use Rattle.cc_machine.specs.Environments.{follow};
ghost use Rattle.cc_machine.specs.Lines.{number_in, truth_in};
ghost use Rattle.cc_machine.specs.Parts.{cell_in, configuration_of, literal_of_term, small_literal};
ghost use Rattle.cc_machine.specs.Finding.{IsCellOf};
ghost use Rattle.cc_machine.specs.Placing.{variable_in};
ghost use Rattle.cc_machine.specs.Putting.{resolved};

use crate::links::resolve;
use crate::parts::{Cell, Parts, Small};
use cc_base::literal::Lit;
use cc_capture::Var;
use cc_core::{Form, Node};
use cc_device::ShownLit;

/// Whether the term is a variable or a value.
pub fn is_answer(node: &Node) -> bool
    ensures { result ≡ answers.is_answer (term_of node.now) }
{
    match &node.form {
        Form::Var(_) => true,
        Form::Lit(_) => true,
        Form::Fun(_, _) => true,
        Form::TFun(_, _) => true,
        Form::Boxed(_) => true,
        Form::App(_, _) => false,
        Form::TApp(_, _) => false,
        Form::Unbox(_, _) => false,
        Form::Let(_, _, _) => false,
        Form::Prim(_, _, _) => false,
        Form::If(_, _, _, _) => false,
        Form::Repeat(_, _) => false,
        Form::Operate(_, _, _) => false,
        Form::Boundary(_, _) => false,
        Form::Leave(_, _, _) => false,
    }
}

/// The literal, whose text is borrowed.
pub fn lent(literal: &Lit) -> ShownLit<'_>
    ensures { shown_literal result ≡ literal_of literal.now }
{
    match literal {
        Lit::Unit => ShownLit::Unit,
        Lit::Bool(truth) => ShownLit::Bool(*truth),
        Lit::Int(number) => ShownLit::Int(*number),
        Lit::Str(text) => ShownLit::Str(text),
    }
}

/// The literal that was computed.
pub fn lent_small<'a>(small: Small) -> ShownLit<'a>
    ensures { shown_literal result ≡ small_literal small }
{
    match small {
        Small::Unit => ShownLit::Unit,
        Small::Truth(truth) => ShownLit::Bool(truth),
        Small::Number(number) => ShownLit::Int(number),
    }
}

// The literal that the term is, if it is one.
fn literal_of_node(node: &Node) -> Option<ShownLit<'_>>
    ensures { option_map shown_literal result ≡ literal_of_term (term_of node.now) }
{
    match &node.form {
        Form::Lit(literal) => Some(lent(literal)),
        _ => None,
    }
}

// The literal in the cell, if there is one.
fn literal_in_cell<'a>(cell: Cell<'a>) -> Option<ShownLit<'a>>
    ensures { (links : List Link) → option_map shown_literal result ≡ literal_in (Some (cell_in links cell.entry)) }
{
    match cell {
        Cell::Code(node, _) => literal_of_node(node),
        Cell::Small(small) => Some(lent_small(small)),
        Cell::Device(_, _) => None,
        Cell::Label(_) => None,
    }
}

// The number that the literal that was computed is, if it is one.
fn number_of_small(small: Small) -> Option<i64>
    ensures { result ≡ number_in (Some (small_literal small)) }
{
    match small {
        Small::Unit => None,
        Small::Truth(_) => None,
        Small::Number(number) => Some(number),
    }
}

// The number that the literal is, if it is one.
fn number_of_literal(literal: &Lit) -> Option<i64>
    ensures { result ≡ number_in (Some (literal_of literal.now)) }
{
    match literal {
        Lit::Unit => None,
        Lit::Bool(_) => None,
        Lit::Int(number) => Some(*number),
        Lit::Str(_) => None,
    }
}

// The number that the term is, if it is one.
fn number_of_node(node: &Node) -> Option<i64>
    ensures { result ≡ number_in (literal_of_term (term_of node.now)) }
{
    match &node.form {
        Form::Lit(literal) => number_of_literal(literal),
        _ => None,
    }
}

// The number in the cell, if there is one.
fn number_in_cell<'a>(cell: Cell<'a>) -> Option<i64>
    ensures { (links : List Link) → result ≡ number_in (literal_in (Some (cell_in links cell.entry))) }
{
    match cell {
        Cell::Small(small) => number_of_small(small),
        Cell::Code(node, _) => number_of_node(node),
        Cell::Device(_, _) => None,
        Cell::Label(_) => None,
    }
}

// The truth value that the literal that was computed is, if it is one.
fn truth_of_small(small: Small) -> Option<bool>
    ensures { result ≡ truth_in (Some (small_literal small)) }
{
    match small {
        Small::Unit => None,
        Small::Truth(truth) => Some(truth),
        Small::Number(_) => None,
    }
}

// The truth value that the literal is, if it is one.
fn truth_of_literal(literal: &Lit) -> Option<bool>
    ensures { result ≡ truth_in (Some (literal_of literal.now)) }
{
    match literal {
        Lit::Unit => None,
        Lit::Bool(truth) => Some(*truth),
        Lit::Int(_) => None,
        Lit::Str(_) => None,
    }
}

// The truth value that the term is, if it is one.
fn truth_of_node(node: &Node) -> Option<bool>
    ensures { result ≡ truth_in (literal_of_term (term_of node.now)) }
{
    match &node.form {
        Form::Lit(literal) => truth_of_literal(literal),
        _ => None,
    }
}

// The truth value in the cell, if there is one.
fn truth_in_cell<'a>(cell: Cell<'a>) -> Option<bool>
    ensures { (links : List Link) → result ≡ truth_in (literal_in (Some (cell_in links cell.entry))) }
{
    match cell {
        Cell::Small(small) => truth_of_small(small),
        Cell::Code(node, _) => truth_of_node(node),
        Cell::Device(_, _) => None,
        Cell::Label(_) => None,
    }
}

// The cell at the index, if there is one.
fn own_cell<'a>(cells: &[Cell<'a>], index: usize) -> Option<Cell<'a>>
    ensures { result ≡ slice_get cells.now index }
{
    match cells.get(index) {
        Some(cell) => Some(*cell),
        None => None,
    }
}

impl<'a> Parts<'a> {
    // The cell at the position, if there is one.
    fn cell_at(&self, position: u32) -> Option<Cell<'a>>
        ensures { IsCellOf self.now (Free position) result }
    {
        let program = self.program;
        let count = program.count();
        if position < count {
            Some(program.cell(position))
        } else {
            own_cell(&self.cells, (position - count) as usize)
        }
    }

    /// The cell that the variable stands for in the environment, if it stands for one.
    pub fn cell_of(&self, environment: usize, variable: Var) -> Option<Cell<'a>>
        ensures { IsCellOf self.now (variable_in self.now environment variable) result }
    {
        match resolve(&self.links, environment, variable) {
            Some(position) => self.cell_at(position),
            None => None,
        }
    }

    /// The literal that the variable stands for in the environment, if it stands for one.
    pub fn literal_at(&self, environment: usize, variable: Var) -> Option<ShownLit<'a>>
        ensures { option_map shown_literal result ≡ literal_in (stores.cell_at (configuration_of self.now).store (resolved (follow self.now.links.items environment) variable)) }
    {
        match self.cell_of(environment, variable) {
            Some(cell) => literal_in_cell(cell),
            None => None,
        }
    }

    /// The number that the variable stands for in the environment, if it stands for one.
    pub fn number_at(&self, environment: usize, variable: Var) -> Option<i64>
        ensures { result ≡ number_in (literal_in (stores.cell_at (configuration_of self.now).store (resolved (follow self.now.links.items environment) variable))) }
    {
        match self.cell_of(environment, variable) {
            Some(cell) => number_in_cell(cell),
            None => None,
        }
    }

    /// The truth value that the variable stands for in the environment, if it stands for one.
    pub fn truth_at(&self, environment: usize, variable: Var) -> Option<bool>
        ensures { result ≡ truth_in (literal_in (stores.cell_at (configuration_of self.now).store (resolved (follow self.now.links.items environment) variable))) }
    {
        match self.cell_of(environment, variable) {
            Some(cell) => truth_in_cell(cell),
            None => None,
        }
    }
}
