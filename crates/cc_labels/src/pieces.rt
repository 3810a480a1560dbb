//! Writing the text of a type with labels, piece by piece: a list has what is left, so a deep type takes no stack, and what
//! is written goes to a sink before all of it is there.

ghost use Rattle.std.specs.Prelude.{◌≡◌, ◌+◌, ◌-◌, ◌^◌, ◌<◌, ◌++◌, ℕ, List, [], ◌∷◌, codes, OnOk, IfOk};
ghost use Rattle.std.specs.String.{string_bytes};
ghost use Rattle.cc_core.specs.TermViews as views;
ghost use Rattle.cc_io.specs.Pieces.{Streams};
ghost use Rattle.cc_io.specs.Wholes.{WriteAllCause};
ghost use Rattle.cc_print.specs.PiecesLeft as plain;
ghost use Rattle.cc_print.specs.PiecesLeft.{TakesTurn};
ghost use Rattle.cc_print.specs.TypeTexts as texts;
ghost use Rattle.cc_labels.specs.LabelTexts.{labels_in};
ghost use Rattle.cc_labels.specs.LabelledPieces.{in_turn, piece_of};

use crate::labels::Labels;
use crate::printing::{base_name, is_arrow, put, put_numbered, put_set, put_variable};
use cc_capture::CapSet;
use cc_core::{Shape, Ty};
use cc_io::{Sink, WriteAll, spill};
use std::alloc::{AllocError, Global};
use std::rc::Rc;

/// What is left to be written.
#[derive(Clone, Copy)]
pub(crate) enum Piece<'a> {
    /// Words.
    Words(&'static str),
    /// The text of a shape under so many binders.
    OfShape(u32, &'a Shape),
    /// That of a type.
    OfType(u32, &'a Ty),
    /// That of a set.
    OfSet(u32, &'a CapSet),
}

// One binder more.
fn deeper(depth: u32) -> Result<u32, AllocError>
    ensures { IfOk result (λ n. n ≡ depth + 1) }
{
    match depth.checked_add(1) {
        Some(deeper) => Ok(deeper),
        None => Err(AllocError),
    }
}

// Adds the front of the text of a function's shape. What it takes and what it gives are left.
fn put_function<'a>(
    alloc: Global,
    out: &mut String,
    left: &mut Vec<Piece<'a>>,
    depth: u32,
    takes: &'a Rc<Ty>,
    gives: &'a Rc<Ty>,
) -> Result<(), AllocError>
    ensures text { OnOk result (string_bytes out.new ≡ string_bytes out.old ++ (texts.numbered (codes "(_") depth ++ codes ": ")) }
    ensures left { OnOk result (in_turn left.new.items ≡ plain.OfType depth (views.shape_of takes.now.value.shape.value) takes.now.value.set ∷ (plain.Words (codes ") -> ") ∷ (plain.OfType (depth + 1) (views.shape_of gives.now.value.shape.value) gives.now.value.set ∷ in_turn left.old.items))) }
{
    left.push(Piece::OfType(deeper(depth)?, gives))?;
    left.push(Piece::Words(") -> "))?;
    left.push(Piece::OfType(depth, takes))?;
    put_numbered(alloc, out, "(_", depth)?;
    put(out, ": ")
}

// Adds the front of the text of a type function's shape. Its bound and what it gives are left.
fn put_type_function<'a>(
    alloc: Global,
    out: &mut String,
    left: &mut Vec<Piece<'a>>,
    depth: u32,
    bound: &'a Rc<Shape>,
    gives: &'a Rc<Ty>,
) -> Result<(), AllocError>
    ensures text { OnOk result (string_bytes out.new ≡ string_bytes out.old ++ (texts.numbered (codes "[_T") depth ++ codes " <: ")) }
    ensures left { OnOk result (in_turn left.new.items ≡ plain.OfShape depth (views.shape_of bound.now.value) ∷ (plain.Words (codes "] -> ") ∷ (plain.OfType (depth + 1) (views.shape_of gives.now.value.shape.value) gives.now.value.set ∷ in_turn left.old.items))) }
{
    left.push(Piece::OfType(deeper(depth)?, gives))?;
    left.push(Piece::Words("] -> "))?;
    left.push(Piece::OfShape(depth, bound))?;
    put_numbered(alloc, out, "[_T", depth)?;
    put(out, " <: ")
}

// Adds the front of the text of a shape. Its parts are left.
fn put_shape<'a>(
    alloc: Global,
    out: &mut String,
    labels: &Labels,
    left: &mut Vec<Piece<'a>>,
    depth: u32,
    shape: &'a Shape,
) -> Result<(), AllocError>
    ensures { OnOk result (TakesTurn (labels_in labels.now) (string_bytes out.old) (plain.OfShape depth (views.shape_of shape.now) ∷ in_turn left.old.items) (string_bytes out.new) (in_turn left.new.items)) }
{
    match shape {
        Shape::Fun(takes, gives) => put_function(alloc, out, left, depth, takes, gives),
        Shape::TFun(bound, gives) => put_type_function(alloc, out, left, depth, bound, gives),
        Shape::Boxed(content) => {
            left.push(Piece::Words("]"))?;
            left.push(Piece::OfType(depth, content))?;
            put(out, "Box[")
        }
        Shape::Exit(gives) => {
            left.push(Piece::Words("]"))?;
            left.push(Piece::OfShape(depth, gives))?;
            put(out, "Exit[")
        }
        Shape::Base(base) => put(out, base_name(*base)),
        Shape::Any => put(out, "Any"),
        Shape::TVar(variable) => put_variable(alloc, out, labels, depth, "_T", *variable),
    }
}

// The text of a type is left: that of its shape, and of its set where it has elements.
fn put_type<'a>(
    out: &mut String,
    left: &mut Vec<Piece<'a>>,
    depth: u32,
    ty: &'a Ty,
) -> Result<(), AllocError>
    ensures { (names : List (List ℕ)) → OnOk result (TakesTurn names (string_bytes out.old) (plain.OfType depth (views.shape_of ty.now.shape.value) ty.now.set ∷ in_turn left.old.items) (string_bytes out.new) (in_turn left.new.items)) }
{
    if ty.set.len() == 0 {
        left.push(Piece::OfShape(depth, &ty.shape))?;
        return Ok(());
    }
    left.push(Piece::OfSet(depth, &ty.set))?;
    if is_arrow(&ty.shape) {
        left.push(Piece::Words(")^"))?;
        left.push(Piece::OfShape(depth, &ty.shape))?;
        return put(out, "(");
    }
    left.push(Piece::Words("^"))?;
    left.push(Piece::OfShape(depth, &ty.shape))?;
    Ok(())
}

// Takes the turn of what is left first.
fn take_turn<'a>(
    alloc: Global,
    out: &mut String,
    labels: &Labels,
    left: &mut Vec<Piece<'a>>,
    next: Piece<'a>,
) -> Result<(), AllocError>
    ensures { OnOk result (TakesTurn (labels_in labels.now) (string_bytes out.old) (piece_of next.entry ∷ in_turn left.old.items) (string_bytes out.new) (in_turn left.new.items)) }
{
    match next {
        Piece::Words(text) => put(out, text),
        Piece::OfShape(depth, shape) => put_shape(alloc, out, labels, left, depth, shape),
        Piece::OfType(depth, ty) => put_type(out, left, depth, ty),
        Piece::OfSet(depth, set) => put_set(alloc, out, labels, depth, set),
    }
}

// What is left at first: the text of the type.
fn first_turn<'a>(alloc: Global, depth: u32, ty: &'a Ty) -> Result<Vec<Piece<'a>>, AllocError>
    ensures { IfOk result (λ left. in_turn left.items ≡ plain.OfType depth (views.shape_of ty.now.shape.value) ty.now.set ∷ []) }
{
    let mut left = Vec::new(alloc);
    left.push(Piece::OfType(depth, ty))?;
    Ok(left)
}

/// Writes the text of a type in pieces: a set of it is held whole, and what is around sets.
///
/// `WriteFault`: a write failed, and the count of faults rose. `NoMemory`: there was no memory, as which the number of a
/// binder past 2^32 - 1 counts, or the sink has none.
pub fn write_type<K: Sink>(
    alloc: Global,
    sink: &mut K,
    waiting: &mut String,
    labels: &Labels,
    ty: &Ty,
) -> Result<(), WriteAll>
    requires { K.faults sink.old < 2 ^ 64 - 1 }
    ensures streams { Streams (K.written sink.old) (K.written sink.new) (string_bytes waiting.old) (string_bytes waiting.new) result
        (texts.type_text (labels_in labels.now) labels.now.locals (views.type_of ty.now)) }
    ensures cause { WriteAllCause (K.faults sink.old) (K.faults sink.new) result }
{
    let mut left = match first_turn(alloc, labels.locals, ty) {
        Ok(left) => left,
        Err(AllocError) => return Err(WriteAll::NoMemory),
    };
    while let Some(next) = left.pop() {
        match take_turn(alloc, waiting, labels, &mut left, next) {
            Ok(()) => {}
            Err(AllocError) => return Err(WriteAll::NoMemory),
        }
        spill(sink, waiting)?;
    }
    Ok(())
}
