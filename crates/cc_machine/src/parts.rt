//! The parts of a machine.
use crate::links::Link;
use crate::program::Program;
use cc_base::literal::Base;
use cc_core::Node;

/// A literal that was computed. Texts are never computed.
#[derive(Clone, Copy)]
pub enum Small {
    Unit,
    Truth(bool),
    Number(i64),
}

/// What stands at a position of the store.
#[derive(Clone, Copy)]
pub enum Cell<'a> {
    /// A value of the program, with its environment.
    Code(&'a Node, usize),
    /// A literal that was computed.
    Small(Small),
    /// The device of the number, and its base shape.
    Device(u32, Base),
    /// The label of a boundary.
    Label(u32),
}

/// What waits for an answer.
#[derive(Clone, Copy)]
pub enum Frame<'a> {
    /// The body of a let, with the environment of the let.
    Body(&'a Node, usize),
    /// The boundary of the label.
    Scope(u32),
    /// A repetition: the position of its function, how many calls have begun, and how many are wanted.
    Repeat(u32, u64, u64),
}

/// The term that runs.
#[derive(Clone, Copy)]
pub enum Focus<'a> {
    /// A term of the program, with its environment.
    Code(&'a Node, usize),
    /// The variable of the position.
    Position(u32),
    /// A literal that was computed.
    Small(Small),
    /// The function at one position, applied to another.
    Apply(u32, u32),
}

/// A store, a stack, the number of labels made, and a term. Nodes of environments are shared by all of them. The oldest
/// cells of the store are those of the program, which stand there alone; the others stand in `cells`.
#[derive(Drop)]
pub struct Parts<'a> {
    pub program: &'a Program,
    pub links: Vec<Link>,
    pub cells: Vec<Cell<'a>>,
    pub frames: Vec<Frame<'a>>,
    pub labels: u32,
    pub focus: Focus<'a>,
}
