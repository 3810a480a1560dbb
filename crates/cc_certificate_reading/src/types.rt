//! Shapes and types.

ghost use Rattle.std.specs.Prelude.{◌≡◌, ◌≤◌, ℕ, List, length, OnOk};
ghost use Rattle.cc_core.specs.TermViews.{shape_of, type_of};
ghost use Rattle.cc_print.specs.TypeTexts as plain;
ghost use Rattle.cc_certificate_text.specs.Reading.{
  Locals as Numbering,
  base_at,
  type_variable_at,
  leaf_at,
  shape_parts,
  shape_at,
  shape_over,
  captured_at,
  type_over,
};
ghost use Rattle.cc_certificate_reading.specs.Agreement.{Agrees};
ghost use Rattle.cc_certificate_reading.specs.Numberings.{locals_of};
ghost use Rattle.cc_certificate_reading.specs.WaitingShapes.{
  type_start,
  type_behind,
  parameter_start_at,
  bound_start_at,
  result_start_at,
  bounded_start_at,
  around,
  in_turn,
  IsLow,
  Begins,
  Resumes,
};
ghost use Rattle.cc_certificate_reading.specs.declared.types.TypeForm.TheVariants as forms;
ghost use Rattle.cc_certificate_reading.specs.declared.types.Waiting.TheVariants as waits;

use crate::numbers::read_same;
use crate::sets::{Locals, local_of, read_some_set};
use crate::stop::{Reading, Stop};
use crate::words::{read_exact, word_at};
use cc_base::literal::Base;
use cc_capture::CapSet;
use cc_core::{Shape, Ty};
use cc_names::Names;
use cc_words::words::behind;
use std::alloc::Global;
use std::rc::Rc;

/// The base shape whose name stands at the front.
#[tactic(auto, unfolding(cc_certificate_text::specs::Reading::base_at, cc_certificate_text::specs::Reading::begun))]
fn read_base(bytes: &[u8]) -> Reading<'_, Shape>
    ensures { Agrees shape_of result (base_at bytes.now) }
{
    if let Some(rest) = behind(bytes, "Unit") {
        return Ok((Shape::Base(Base::Unit), rest));
    }
    if let Some(rest) = behind(bytes, "Bool") {
        return Ok((Shape::Base(Base::Bool), rest));
    }
    if let Some(rest) = behind(bytes, "Int") {
        return Ok((Shape::Base(Base::Int), rest));
    }
    if let Some(rest) = behind(bytes, "Str") {
        return Ok((Shape::Base(Base::Str), rest));
    }
    if let Some(rest) = behind(bytes, "Console") {
        return Ok((Shape::Base(Base::Console), rest));
    }
    if let Some(rest) = behind(bytes, "File") {
        return Ok((Shape::Base(Base::File), rest));
    }
    if let Some(rest) = behind(bytes, "Counter") {
        return Ok((Shape::Base(Base::Counter), rest));
    }
    Err(Stop::Misfit)
}

/// A type variable, behind `_T`.
#[tactic(auto, unfolding(cc_certificate_text::specs::Reading::type_variable_at))]
fn read_type_variable(locals: Locals, depth: u64, bytes: &[u8]) -> Reading<'_, Shape>
    requires { depth ≤ 4294967296 }
    ensures { Agrees shape_of result (type_variable_at (locals_of locals) depth bytes.now) }
{
    let (word, rest) = word_at(bytes);
    match local_of(locals, depth, word) {
        Some(variable) => Ok((Shape::TVar(variable), rest)),
        None => Err(Stop::Misfit),
    }
}

/// A shape with no parts.
#[tactic(auto, unfolding(cc_certificate_text::specs::Reading::leaf_at, cc_certificate_text::specs::Reading::begun))]
fn read_leaf(locals: Locals, depth: u64, bytes: &[u8]) -> Reading<'_, Shape>
    requires { depth ≤ 4294967296 }
    ensures { Agrees shape_of result (leaf_at (locals_of locals) depth bytes.now) }
{
    if let Some(rest) = behind(bytes, "_T") {
        return read_type_variable(locals, depth, rest);
    }
    if let Some(rest) = behind(bytes, "Any") {
        return Ok((Shape::Any, rest));
    }
    read_base(bytes)
}

// Whether the shape is that of functions or of type functions.
fn is_arrow(shape: &Shape) -> bool
    ensures { result ≡ plain.is_arrow (shape_of shape.now) }
{
    match shape {
        Shape::Fun(_, _) => true,
        Shape::TFun(_, _) => true,
        Shape::Base(_) => false,
        Shape::Any => false,
        Shape::TVar(_) => false,
        Shape::Boxed(_) => false,
        Shape::Exit(_) => false,
    }
}

/// The type of the shape, with the set behind `^` if one is there.
#[tactic(auto, unfolding(cc_certificate_text::specs::Reading::captured_at, cc_certificate_text::specs::Reading::begun))]
fn read_captured<'a>(
    alloc: Global,
    locals: Locals,
    names: &Names,
    depth: u64,
    shape: Rc<Shape>,
    bytes: &'a [u8],
) -> Reading<'a, Ty>
    requires names { length names.now ≤ 4294967296 }
    requires depth { depth ≤ 4294967296 }
    ensures { Agrees type_of result (captured_at (locals_of locals) names.now depth (shape_of shape.value) bytes.now) }
{
    match behind(bytes, "^{") {
        Some(rest) => {
            let (set, rest) = read_some_set(alloc, locals, names, depth, rest)?;
            Ok((Ty { shape, set }, rest))
        }
        None => Ok((
            Ty {
                shape,
                set: CapSet::new(alloc),
            },
            bytes,
        )),
    }
}

// How a type is written.
#[derive(Clone, Copy)]
enum TypeForm {
    // An arrow in parentheses, with its set behind them.
    Enclosed,
    // In any other way.
    Plain,
}

// How the type at the front is written, and where its shape begins.
#[tactic(auto, unfolding(crate::specs::WaitingShapes::type_start))]
fn type_start(bytes: &[u8]) -> (TypeForm, &[u8])
    ensures { (result.0, result.1.now) ≡ type_start bytes.now }
{
    if behind(bytes, "((").is_some() {
        return (TypeForm::Enclosed, &bytes[1..]);
    }
    if behind(bytes, "([").is_some() {
        return (TypeForm::Enclosed, &bytes[1..]);
    }
    (TypeForm::Plain, bytes)
}

// The type of the arrow that was read in parentheses.
fn read_enclosed<'a>(
    alloc: Global,
    locals: Locals,
    names: &Names,
    depth: u64,
    shape: Shape,
    bytes: &'a [u8],
) -> Reading<'a, Ty>
    requires names { length names.now ≤ 4294967296 }
    requires depth { depth ≤ 4294967296 }
    ensures { Agrees type_of result (type_behind (locals_of locals) names.now forms.Enclosed depth (shape_of shape) bytes.now) }
{
    if !is_arrow(&shape) {
        return Err(Stop::Misfit);
    }
    let (_, rest) = read_exact(")^{", bytes)?;
    let (set, rest) = read_some_set(alloc, locals, names, depth, rest)?;
    let shape = Rc::new(alloc, shape)?;
    Ok((Ty { shape, set }, rest))
}

// The type of the shape that was read in no parentheses of its own.
fn read_plain<'a>(
    alloc: Global,
    locals: Locals,
    names: &Names,
    depth: u64,
    shape: Shape,
    bytes: &'a [u8],
) -> Reading<'a, Ty>
    requires names { length names.now ≤ 4294967296 }
    requires depth { depth ≤ 4294967296 }
    ensures { Agrees type_of result (type_behind (locals_of locals) names.now forms.Plain depth (shape_of shape) bytes.now) }
{
    if is_arrow(&shape) {
        let shape = Rc::new(alloc, shape)?;
        let set = CapSet::new(alloc);
        return Ok((Ty { shape, set }, bytes));
    }
    let shape = Rc::new(alloc, shape)?;
    read_captured(alloc, locals, names, depth, shape, bytes)
}

// The type of the shape that was read.
fn read_behind<'a>(
    alloc: Global,
    locals: Locals,
    names: &Names,
    form: TypeForm,
    depth: u64,
    shape: Shape,
    bytes: &'a [u8],
) -> Reading<'a, Ty>
    requires names { length names.now ≤ 4294967296 }
    requires depth { depth ≤ 4294967296 }
    ensures { Agrees type_of result (type_behind (locals_of locals) names.now form depth (shape_of shape) bytes.now) }
{
    match form {
        TypeForm::Enclosed => read_enclosed(alloc, locals, names, depth, shape, bytes),
        TypeForm::Plain => read_plain(alloc, locals, names, depth, shape, bytes),
    }
}

/// A type whose shape is no higher than the room.
pub fn read_type<'a>(
    alloc: Global,
    locals: Locals,
    names: &Names,
    room: u32,
    depth: u64,
    bytes: &'a [u8],
) -> Reading<'a, Ty>
    requires names { length names.now ≤ 4294967296 }
    requires depth { depth ≤ 4294967296 }
    ensures { Agrees type_of result (type_over (locals_of locals) names.now (shape_at (locals_of locals) names.now room depth) depth bytes.now) }
{
    let (form, start) = type_start(bytes);
    let (shape, rest) = read_shape(alloc, locals, names, room, depth, start)?;
    read_behind(alloc, locals, names, form, depth, shape, rest)
}

// What waits for a shape inside it, with how many binders stand above that, and how its type is written where it is that of
// a type. Where another type is read behind that, the room for its shape stands beside.
#[derive(Drop)]
enum Waiting {
    // Functions, for the shape of what they take.
    Takes(TypeForm, u32, u64),
    // Functions, for the shape of what they give. What they take was read.
    Gives(TypeForm, u64, Rc<Ty>),
    // Type functions, for their bound.
    Bounds(u32, u64),
    // Type functions, for the shape of what they give. Their bound was read.
    Results(TypeForm, u64, Rc<Shape>),
    // Boxes, for the shape of their content.
    Contents(TypeForm, u64),
    // Exits, for the shape of what they give.
    Exits,
}

// What begins at the front.
enum Beginning {
    // All of a shape.
    Whole(Shape),
    // What waits for the shape that comes next.
    Waits(Waiting),
}

// A function up to the shape of what it takes, behind `(_`.
#[tactic(auto, unfolding(crate::specs::WaitingShapes::parameter_start_at))]
fn read_parameter_start(depth: u64, bytes: &[u8]) -> Reading<'_, TypeForm>
    ensures read { Agrees (λ form. form) result (parameter_start_at depth bytes.now) }
    ensures low { OnOk result (depth ≤ 4294967295) }
{
    let (_, rest) = read_same(depth, bytes)?;
    let (_, rest) = read_exact(": ", rest)?;
    Ok(type_start(rest))
}

// A type function up to its bound, behind `[_T`.
#[tactic(auto, unfolding(crate::specs::WaitingShapes::bound_start_at))]
fn read_bound_start(depth: u64, bytes: &[u8]) -> Reading<'_, ()>
    ensures read { Agrees (λ it. it) result (bound_start_at depth bytes.now) }
    ensures low { OnOk result (depth ≤ 4294967295) }
{
    let (_, rest) = read_same(depth, bytes)?;
    read_exact(" <: ", rest)
}

// A shape whose parts are no higher than the room, up to the first shape inside it.
fn begin_shape<'a>(locals: Locals, room: u32, depth: u64, bytes: &'a [u8]) -> Reading<'a, Beginning>
    requires { depth ≤ 4294967296 }
    ensures { (names : List (List ℕ)) → Begins (locals_of locals) names room depth (shape_over (locals_of locals) (shape_parts (locals_of locals) names (shape_at (locals_of locals) names room)) depth bytes.now) result }
{
    if let Some(rest) = behind(bytes, "(_") {
        let (form, start) = read_parameter_start(depth, rest)?;
        return Ok((Beginning::Waits(Waiting::Takes(form, room, depth)), start));
    }
    if let Some(rest) = behind(bytes, "[_T") {
        let (_, start) = read_bound_start(depth, rest)?;
        return Ok((Beginning::Waits(Waiting::Bounds(room, depth)), start));
    }
    if let Some(rest) = behind(bytes, "Box[") {
        let (form, start) = type_start(rest);
        return Ok((Beginning::Waits(Waiting::Contents(form, depth)), start));
    }
    if let Some(rest) = behind(bytes, "Exit[") {
        return Ok((Beginning::Waits(Waiting::Exits), rest));
    }
    let (shape, rest) = read_leaf(locals, depth, bytes)?;
    Ok((Beginning::Whole(shape), rest))
}

// Goes down to the first shape in this one that has none inside it, and reads that. What stands round it waits.
fn descend<'a>(
    locals: Locals,
    waiting: &mut Vec<Waiting>,
    room: u32,
    depth: u64,
    bytes: &'a [u8],
) -> Reading<'a, Shape>
    requires { depth ≤ 4294967296 }
    ensures { (names : List (List ℕ)) → Resumes (locals_of locals) names (in_turn waiting.old.items) (shape_at (locals_of locals) names room depth bytes.now) (in_turn waiting.new.items) result }
{
    let mut room = room;
    let mut start = bytes;
    while room > 0 {
        room -= 1;
        let (beginning, rest) = begin_shape(locals, room, depth, start)?;
        match beginning {
            Beginning::Whole(shape) => return Ok((shape, rest)),
            Beginning::Waits(next) => {
                waiting.push(next)?;
                start = rest;
            }
        }
    }
    Err(Stop::Misfit)
}

// What functions take, and what stands behind it up to the shape of what they give.
#[tactic(auto, unfolding(crate::specs::WaitingShapes::result_start_at))]
fn read_result_start<'a>(
    alloc: Global,
    locals: Locals,
    names: &Names,
    form: TypeForm,
    depth: u64,
    shape: Shape,
    bytes: &'a [u8],
) -> Reading<'a, (Ty, TypeForm)>
    requires names { length names.now ≤ 4294967296 }
    requires depth { depth ≤ 4294967296 }
    ensures { Agrees (λ start. (type_of start.0, start.1)) result (result_start_at (locals_of locals) names.now form depth (shape_of shape) bytes.now) }
{
    let (takes, rest) = read_behind(alloc, locals, names, form, depth, shape, bytes)?;
    let (_, rest) = read_exact(") -> ", rest)?;
    let (form, start) = type_start(rest);
    Ok(((takes, form), start))
}

// What stands behind the bound of type functions, up to the shape of what they give.
#[tactic(auto, unfolding(crate::specs::WaitingShapes::bounded_start_at))]
fn read_bounded_start(bytes: &[u8]) -> Reading<'_, TypeForm>
    ensures { Agrees (λ form. form) result (bounded_start_at bytes.now) }
{
    let (_, rest) = read_exact("] -> ", bytes)?;
    Ok(type_start(rest))
}

// Functions whose parameter's type was read.
fn end_function<'a>(
    alloc: Global,
    locals: Locals,
    names: &Names,
    form: TypeForm,
    depth: u64,
    takes: Rc<Ty>,
    shape: Shape,
    bytes: &'a [u8],
) -> Reading<'a, Shape>
    requires names { length names.now ≤ 4294967296 }
    requires depth { depth ≤ 4294967296 }
    ensures { Agrees shape_of result (around (locals_of locals) names.now (waits.Gives form depth takes) (shape_of shape) bytes.now) }
{
    let (gives, rest) = read_behind(alloc, locals, names, form, depth, shape, bytes)?;
    let gives = Rc::new(alloc, gives)?;
    Ok((Shape::Fun(takes, gives), rest))
}

// Type functions whose bound was read.
fn end_type_function<'a>(
    alloc: Global,
    locals: Locals,
    names: &Names,
    form: TypeForm,
    depth: u64,
    bound: Rc<Shape>,
    shape: Shape,
    bytes: &'a [u8],
) -> Reading<'a, Shape>
    requires names { length names.now ≤ 4294967296 }
    requires depth { depth ≤ 4294967296 }
    ensures { Agrees shape_of result (around (locals_of locals) names.now (waits.Results form depth bound) (shape_of shape) bytes.now) }
{
    let (gives, rest) = read_behind(alloc, locals, names, form, depth, shape, bytes)?;
    let gives = Rc::new(alloc, gives)?;
    Ok((Shape::TFun(bound, gives), rest))
}

// Boxes with a content of the shape.
fn end_box<'a>(
    alloc: Global,
    locals: Locals,
    names: &Names,
    form: TypeForm,
    depth: u64,
    shape: Shape,
    bytes: &'a [u8],
) -> Reading<'a, Shape>
    requires names { length names.now ≤ 4294967296 }
    requires depth { depth ≤ 4294967296 }
    ensures { Agrees shape_of result (around (locals_of locals) names.now (waits.Contents form depth) (shape_of shape) bytes.now) }
{
    let (content, rest) = read_behind(alloc, locals, names, form, depth, shape, bytes)?;
    let (_, rest) = read_exact("]", rest)?;
    let content = Rc::new(alloc, content)?;
    Ok((Shape::Boxed(content), rest))
}

// Exits that give the shape.
fn end_exit<'a>(alloc: Global, gives: Shape, bytes: &'a [u8]) -> Reading<'a, Shape>
    ensures { (locals : Numbering) (names : List (List ℕ)) → Agrees shape_of result (around locals names waits.Exits (shape_of gives) bytes.now) }
{
    let (_, rest) = read_exact("]", bytes)?;
    let gives = Rc::new(alloc, gives)?;
    Ok((Shape::Exit(gives), rest))
}

// Goes on with what waits last, where the shape for which it waits was read. Gives the next shape that is read to its
// end.
fn take_turn<'a>(
    alloc: Global,
    locals: Locals,
    names: &Names,
    waiting: &mut Vec<Waiting>,
    next: Waiting,
    shape: Shape,
    bytes: &'a [u8],
) -> Reading<'a, Shape>
    requires names { length names.now ≤ 4294967296 }
    requires low { IsLow next }
    ensures { Resumes (locals_of locals) names.now (in_turn waiting.old.items) (around (locals_of locals) names.now next (shape_of shape) bytes.now) (in_turn waiting.new.items) result }
{
    match next {
        Waiting::Takes(form, room, depth) => {
            let ((takes, form), start) = read_result_start(
                alloc, locals, names, form, depth, shape, bytes,
            )?;
            let takes = Rc::new(alloc, takes)?;
            waiting.push(Waiting::Gives(form, depth + 1, takes))?;
            descend(locals, waiting, room, depth + 1, start)
        }
        Waiting::Gives(form, depth, takes) => {
            end_function(alloc, locals, names, form, depth, takes, shape, bytes)
        }
        Waiting::Bounds(room, depth) => {
            let (form, start) = read_bounded_start(bytes)?;
            let bound = Rc::new(alloc, shape)?;
            waiting.push(Waiting::Results(form, depth + 1, bound))?;
            descend(locals, waiting, room, depth + 1, start)
        }
        Waiting::Results(form, depth, bound) => {
            end_type_function(alloc, locals, names, form, depth, bound, shape, bytes)
        }
        Waiting::Contents(form, depth) => {
            end_box(alloc, locals, names, form, depth, shape, bytes)
        }
        Waiting::Exits => end_exit(alloc, shape, bytes),
    }
}

/// A shape that is no higher than the room. What stands round a part waits in a list, so that a high shape takes no more
/// of the stack than a flat one.
pub fn read_shape<'a>(
    alloc: Global,
    locals: Locals,
    names: &Names,
    room: u32,
    depth: u64,
    bytes: &'a [u8],
) -> Reading<'a, Shape>
    requires names { length names.now ≤ 4294967296 }
    requires depth { depth ≤ 4294967296 }
    ensures { Agrees shape_of result (shape_at (locals_of locals) names.now room depth bytes.now) }
{
    let mut waiting = Vec::new(alloc);
    let (mut shape, mut rest) = descend(locals, &mut waiting, room, depth, bytes)?;
    for _ in 0..u64::MAX {
        let Some(next) = waiting.pop() else {
            return Ok((shape, rest));
        };
        let (read, behind) = take_turn(alloc, locals, names, &mut waiting, next, shape, rest)?;
        shape = read;
        rest = behind;
    }
    Err(Stop::NoMemory)
}
