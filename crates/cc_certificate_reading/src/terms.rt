//! Terms.

ghost use Rattle.std.specs.Prelude.{◌≡◌, ◌≤◌, length, IfOk, OnOk};
ghost use Rattle.cc_core.specs.Places.{places_of};
ghost use Rattle.cc_core.specs.TermViews.{shape_of, type_of, note_of, term_of};
ghost use Rattle.cc_certificate_text.specs.Reading.{Counted, note_at, shape_at, term_parts, term_at, term_over};
ghost use Rattle.cc_certificate_reading.specs.Agreement.{Agrees};
ghost use Rattle.cc_certificate_reading.specs.FirstPlaces.{AreFirst};
ghost use Rattle.cc_certificate_reading.specs.WaitingTerms.{
  function_start_at,
  type_function_start_at,
  let_start_at,
  choice_start_at,
  boundary_start_at,
  around,
  in_turn,
  IsFit,
  Begins,
  Resumes,
};

use crate::numbers::read_same;
use crate::plain_terms::{node, read_operand, read_plain_term};
use crate::sets::Locals;
use crate::stop::{Reading, Stop};
use crate::types::{read_shape, read_type};
use crate::words::read_exact;
use cc_capture::Var;
use cc_core::{Form, Node, Note, Shape, Ty};
use cc_names::Names;
use cc_words::words::behind;
use std::alloc::Global;
use std::rc::Rc;

// What waits for a term inside it. Where another term is read behind that one, the room for it stands beside, and how many
// binders stand above what waits.
#[derive(Drop)]
enum Waiting {
    // A function, for its body.
    Functions(Rc<Ty>),
    // A type function, for its body.
    TypeFunctions(Rc<Shape>),
    // A let, for its right side.
    Rights(Note, u32, u64),
    // A let, for its body. Its right side was read.
    Bodies(Note, Rc<Node>),
    // A choice, for its first branch.
    Positives(Rc<Ty>, Var, u32, u64),
    // A choice, for its second branch. Its first one was read.
    Negatives(Rc<Ty>, Var, Rc<Node>),
    // A boundary, for its body.
    Boundaries(Rc<Shape>),
}

// What begins at the front.
enum Beginning {
    // All of a term.
    Whole(Node),
    // What waits for the term that comes next, which stands under so many binders.
    Waits(Waiting, u64),
}

// The type that is written behind a colon, if one is.
#[tactic(auto, unfolding(cc_certificate_text::specs::Reading::note_at, cc_certificate_text::specs::Reading::begun))]
fn read_note<'a>(
    alloc: Global,
    names: &Names,
    room: u32,
    depth: u64,
    bytes: &'a [u8],
) -> Reading<'a, Note>
    requires names { length names.now ≤ 4294967296 }
    requires depth { depth ≤ 4294967296 }
    ensures { Agrees note_of result (note_at names.now (shape_at Counted names.now room) depth bytes.now) }
{
    match behind(bytes, ": ") {
        Some(rest) => {
            let (ty, rest) = read_type(alloc, Locals::Counted, names, room, depth, rest)?;
            let ty = Rc::new(alloc, ty)?;
            Ok((Note::Written(ty), rest))
        }
        None => Ok((Note::Absent, bytes)),
    }
}

// A function up to its body, behind `fun (_`.
#[tactic(auto, unfolding(crate::specs::WaitingTerms::function_start_at))]
fn read_function_start<'a>(
    alloc: Global,
    names: &Names,
    room: u32,
    depth: u64,
    bytes: &'a [u8],
) -> Reading<'a, Ty>
    requires names { length names.now ≤ 4294967296 }
    requires depth { depth ≤ 4294967296 }
    ensures read { Agrees type_of result (function_start_at names.now room depth bytes.now) }
    ensures low { OnOk result (depth ≤ 4294967295) }
{
    let (_, rest) = read_same(depth, bytes)?;
    let (_, rest) = read_exact(": ", rest)?;
    let (takes, rest) = read_type(alloc, Locals::Counted, names, room, depth, rest)?;
    let (_, start) = read_exact(") => ", rest)?;
    Ok((takes, start))
}

// A type function up to its body, behind `fun [_T`.
#[tactic(auto, unfolding(crate::specs::WaitingTerms::type_function_start_at))]
fn read_type_function_start<'a>(
    alloc: Global,
    names: &Names,
    room: u32,
    depth: u64,
    bytes: &'a [u8],
) -> Reading<'a, Shape>
    requires names { length names.now ≤ 4294967296 }
    requires depth { depth ≤ 4294967296 }
    ensures read { Agrees shape_of result (type_function_start_at names.now room depth bytes.now) }
    ensures low { OnOk result (depth ≤ 4294967295) }
{
    let (_, rest) = read_same(depth, bytes)?;
    let (_, rest) = read_exact(" <: ", rest)?;
    let (bound, rest) = read_shape(alloc, Locals::Counted, names, room, depth, rest)?;
    let (_, start) = read_exact("] => ", rest)?;
    Ok((bound, start))
}

// A let up to its right side, behind `let _`.
#[tactic(auto, unfolding(crate::specs::WaitingTerms::let_start_at))]
fn read_let_start<'a>(
    alloc: Global,
    names: &Names,
    room: u32,
    depth: u64,
    bytes: &'a [u8],
) -> Reading<'a, Note>
    requires names { length names.now ≤ 4294967296 }
    requires depth { depth ≤ 4294967296 }
    ensures read { Agrees note_of result (let_start_at names.now room depth bytes.now) }
    ensures low { OnOk result (depth ≤ 4294967295) }
{
    let (_, rest) = read_same(depth, bytes)?;
    let (note, rest) = read_note(alloc, names, room, depth, rest)?;
    let (_, start) = read_exact(" = ", rest)?;
    Ok((note, start))
}

// A choice up to its first branch, behind `if [`.
#[tactic(auto, unfolding(crate::specs::WaitingTerms::choice_start_at))]
fn read_choice_start<'a>(
    alloc: Global,
    names: &Names,
    room: u32,
    depth: u64,
    bytes: &'a [u8],
) -> Reading<'a, (Ty, Var)>
    requires names { length names.now ≤ 4294967296 }
    requires depth { depth ≤ 4294967296 }
    ensures { Agrees (λ start. (type_of start.0, start.1)) result (choice_start_at names.now room depth bytes.now) }
{
    let (ty, rest) = read_type(alloc, Locals::Counted, names, room, depth, bytes)?;
    let (_, rest) = read_exact("] ", rest)?;
    let (test, rest) = read_operand(names, room, depth, rest)?;
    let (_, start) = read_exact(" then ", rest)?;
    Ok(((ty, test), start))
}

// A boundary up to its body, behind `boundary [`.
#[tactic(auto, unfolding(crate::specs::WaitingTerms::boundary_start_at))]
fn read_boundary_start<'a>(
    alloc: Global,
    names: &Names,
    room: u32,
    depth: u64,
    bytes: &'a [u8],
) -> Reading<'a, Shape>
    requires names { length names.now ≤ 4294967296 }
    requires depth { depth ≤ 4294967296 }
    ensures read { Agrees shape_of result (boundary_start_at names.now room depth bytes.now) }
    ensures low { OnOk result (depth ≤ 4294967295) }
{
    let (gives, rest) = read_shape(alloc, Locals::Counted, names, room, depth, bytes)?;
    let (_, rest) = read_exact("] _", rest)?;
    let (_, rest) = read_same(depth, rest)?;
    let (_, start) = read_exact(" => ", rest)?;
    Ok((gives, start))
}

// A term whose parts are no higher than the room, up to the first term inside it.
fn begin_term<'a>(
    alloc: Global,
    names: &Names,
    room: u32,
    depth: u64,
    bytes: &'a [u8],
) -> Reading<'a, Beginning>
    requires names { length names.now ≤ 4294967296 }
    requires depth { depth ≤ 4294967296 }
    ensures { Begins names.now room (term_over names.now (term_parts names.now room (shape_at Counted names.now room) (term_at names.now room)) room depth bytes.now) result }
{
    if let Some(rest) = behind(bytes, "fun (_") {
        let (takes, start) = read_function_start(alloc, names, room, depth, rest)?;
        let takes = Rc::new(alloc, takes)?;
        return Ok((
            Beginning::Waits(Waiting::Functions(takes), depth + 1),
            start,
        ));
    }
    if let Some(rest) = behind(bytes, "fun [_T") {
        let (bound, start) = read_type_function_start(alloc, names, room, depth, rest)?;
        let bound = Rc::new(alloc, bound)?;
        return Ok((
            Beginning::Waits(Waiting::TypeFunctions(bound), depth + 1),
            start,
        ));
    }
    if let Some(rest) = behind(bytes, "let _") {
        let (note, start) = read_let_start(alloc, names, room, depth, rest)?;
        return Ok((
            Beginning::Waits(Waiting::Rights(note, room, depth), depth),
            start,
        ));
    }
    if let Some(rest) = behind(bytes, "if [") {
        let ((ty, test), start) = read_choice_start(alloc, names, room, depth, rest)?;
        let ty = Rc::new(alloc, ty)?;
        return Ok((
            Beginning::Waits(Waiting::Positives(ty, test, room, depth), depth),
            start,
        ));
    }
    if let Some(rest) = behind(bytes, "boundary [") {
        let (gives, start) = read_boundary_start(alloc, names, room, depth, rest)?;
        let gives = Rc::new(alloc, gives)?;
        return Ok((
            Beginning::Waits(Waiting::Boundaries(gives), depth + 1),
            start,
        ));
    }
    let (term, rest) = read_plain_term(alloc, names, room, depth, bytes)?;
    Ok((Beginning::Whole(term), rest))
}

// Goes down to the first term in this one that has none inside it, and reads that. What stands round it waits.
fn descend<'a>(
    alloc: Global,
    names: &Names,
    waiting: &mut Vec<Waiting>,
    room: u32,
    depth: u64,
    bytes: &'a [u8],
) -> Reading<'a, Node>
    requires names { length names.now ≤ 4294967296 }
    requires depth { depth ≤ 4294967296 }
    ensures { Resumes names.now (in_turn waiting.old.items) (term_at names.now room depth bytes.now) (in_turn waiting.new.items) result }
{
    let mut room = room;
    let mut depth = depth;
    let mut start = bytes;
    while room > 0 {
        room -= 1;
        let (beginning, rest) = begin_term(alloc, names, room, depth, start)?;
        match beginning {
            Beginning::Whole(term) => return Ok((term, rest)),
            Beginning::Waits(next, under) => {
                waiting.push(next)?;
                depth = under;
                start = rest;
            }
        }
    }
    Err(Stop::Misfit)
}

// Goes on with what waits last, where the term for which it waits was read. Gives the next term that is read to its end.
fn take_turn<'a>(
    alloc: Global,
    names: &Names,
    waiting: &mut Vec<Waiting>,
    next: Waiting,
    term: Node,
    bytes: &'a [u8],
) -> Reading<'a, Node>
    requires names { length names.now ≤ 4294967296 }
    requires fit { IsFit next }
    requires placed { AreFirst (places_of term) }
    ensures { Resumes names.now (in_turn waiting.old.items) (around names.now next (term_of term) bytes.now) (in_turn waiting.new.items) result }
{
    match next {
        Waiting::Functions(takes) => {
            let body = Rc::new(alloc, term)?;
            Ok((node(Form::Fun(takes, body)), bytes))
        }
        Waiting::TypeFunctions(bound) => {
            let body = Rc::new(alloc, term)?;
            Ok((node(Form::TFun(bound, body)), bytes))
        }
        Waiting::Rights(note, room, depth) => {
            let (_, start) = read_exact(" in ", bytes)?;
            let right = Rc::new(alloc, term)?;
            waiting.push(Waiting::Bodies(note, right))?;
            descend(alloc, names, waiting, room, depth + 1, start)
        }
        Waiting::Bodies(note, right) => {
            let body = Rc::new(alloc, term)?;
            Ok((node(Form::Let(note, right, body)), bytes))
        }
        Waiting::Positives(ty, test, room, depth) => {
            let (_, start) = read_exact(" else ", bytes)?;
            let positive = Rc::new(alloc, term)?;
            waiting.push(Waiting::Negatives(ty, test, positive))?;
            descend(alloc, names, waiting, room, depth, start)
        }
        Waiting::Negatives(ty, test, positive) => {
            let negative = Rc::new(alloc, term)?;
            Ok((
                node(Form::If(Note::Written(ty), test, positive, negative)),
                bytes,
            ))
        }
        Waiting::Boundaries(gives) => {
            let body = Rc::new(alloc, term)?;
            Ok((node(Form::Boundary(gives, body)), bytes))
        }
    }
}

/// A term that is no higher than the room, under so many binders. All its places are the first one of a text. What stands
/// round a part waits in a list, so that a high term takes no more of the stack than a flat one.
pub fn read_term<'a>(
    alloc: Global,
    names: &Names,
    room: u32,
    depth: u64,
    bytes: &'a [u8],
) -> Reading<'a, Node>
    requires names { length names.now ≤ 4294967296 }
    requires depth { depth ≤ 4294967296 }
    ensures read { Agrees term_of result (term_at names.now room depth bytes.now) }
    ensures placed { IfOk result (λ read. AreFirst (places_of read.0)) }
{
    let mut waiting = Vec::new(alloc);
    let (mut term, mut rest) = descend(alloc, names, &mut waiting, room, depth, bytes)?;
    for _ in 0..u64::MAX {
        let Some(next) = waiting.pop() else {
            return Ok((term, rest));
        };
        let (read, behind) = take_turn(alloc, names, &mut waiting, next, term, rest)?;
        term = read;
        rest = behind;
    }
    Err(Stop::NoMemory)
}
