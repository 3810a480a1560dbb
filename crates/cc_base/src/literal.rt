use crate::name::Name;
use crate::place::Place;
use std::rc::RcStr;

/// A base shape: the shapes of literals, and those of devices.
#[derive(Clone, Copy, Debug, PartialEq, Eq)]
pub enum Base {
    Unit,
    Bool,
    Int,
    Str,
    Console,
    File,
    Counter,
}

/// A literal. A text is shared, not copied.
#[derive(Drop)]
pub enum Lit {
    Unit,
    Bool(bool),
    Int(i64),
    Str(RcStr),
}

/// An operator on two numbers. The first three wrap, and the last two compare.
#[derive(Clone, Copy, Debug, PartialEq, Eq)]
pub enum Operator {
    Add,
    Sub,
    Mul,
    Less,
    Equal,
}

/// An operation of a device.
#[derive(Clone, Copy, Debug, PartialEq, Eq)]
pub enum Op {
    /// A console writes a number.
    Print,
    /// A console writes a text.
    Say,
    /// A file reads its next number.
    Read,
    /// A file takes a number at its end.
    Write,
    /// A counter counts one.
    Tick,
}

/// An import of a definition, with the places of the module's name and of the definition's.
#[derive(Drop)]
pub struct Import {
    pub module: Name,
    pub def: Name,
    pub at: Place,
    pub def_at: Place,
}
