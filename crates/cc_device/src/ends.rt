//! How a run ends. What is shown borrows the texts of the program that ran.
use std::rc::RcStr;

/// A literal that is shown.
#[derive(Clone, Copy)]
pub enum ShownLit<'a> {
    Unit,
    Bool(bool),
    Int(i64),
    Str(&'a RcStr),
}

/// What is shown of a value.
#[derive(Clone, Copy)]
pub enum Shown<'a> {
    /// A literal as it is.
    Lit(ShownLit<'a>),
    /// A function.
    Function,
    /// A type function.
    TypeFunction,
    /// A box.
    Box,
    /// The device of the number.
    Device(u32),
    /// The exit of the boundary of the label.
    Label(u32),
}

/// How a run ends.
#[derive(Clone, Copy)]
pub enum End<'a> {
    /// With a value.
    Done(Shown<'a>),
    /// No fuel is left.
    OutOfFuel,
}
