//! Terms without parts that are terms.

ghost use Rattle.std.specs.Prelude.{◌≡◌, ◌≤◌, nat_lt, length, IfOk};
ghost use Rattle.cc_core.specs.Places.{places_around, places_of};
ghost use Rattle.cc_core.specs.TermViews.{form_of, term_of};
ghost use Rattle.cc_certificate_text.specs.Reading.{
  Counted,
  where_true,
  variable_at,
  shape_at,
  term_parts,
  term_at,
  term_rule_at,
  head_rule_at,
  headed_at,
  operated_at,
  computed_at,
  text_at,
  word_term_at,
  plain_term_at,
  BoxingRule,
  UnboxRule,
  RepeatRule,
  LeaveRule,
  Calls,
  TypeCalls,
  Computes,
  Tells,
  Asks,
};
ghost use Rattle.cc_certificate_reading.specs.FirstPlaces.{first_spots, AreFirst};
ghost use Rattle.cc_certificate_reading.specs.Agreement.{Agrees};

use crate::literals::{literal_of, text_of};
use crate::sets::{Locals, read_set, variable_of};
use crate::stop::{Reading, Stop};
use crate::types::{read_shape, read_type};
use crate::words::{read_exact, word_at};
use cc_base::literal::{Op, Operator};
use cc_base::place::Place;
use cc_capture::Var;
use cc_core::{Form, Node};
use cc_names::Names;
use cc_words::words::{behind, cut_at};
use std::alloc::Global;
use std::rc::Rc;

/// The term at the first place of all.
pub fn node(form: Form) -> Node
    ensures form { term_of result ≡ form_of form }
    ensures placed { AreFirst (places_around first_spots form) → AreFirst (places_of result) }
{
    let at = Place { line: 1, col: 1 };
    Node {
        form,
        at,
        first: at,
        second: at,
    }
}

// A variable of terms.
#[tactic(auto, unfolding(cc_certificate_text::specs::Reading::variable_at))]
fn read_variable<'a>(names: &Names, depth: u64, bytes: &'a [u8]) -> Reading<'a, Var>
    requires names { length names.now ≤ 4294967296 }
    requires depth { depth ≤ 4294967296 }
    ensures { Agrees (λ variable. variable) result (variable_at names.now depth bytes.now) }
{
    let (word, rest) = word_at(bytes);
    match variable_of(Locals::Counted, names, depth, word) {
        Some(variable) => Ok((variable, rest)),
        None => Err(Stop::Misfit),
    }
}

/// A variable of terms, where a part of height 1 has room.
pub fn read_operand<'a>(names: &Names, room: u32, depth: u64, bytes: &'a [u8]) -> Reading<'a, Var>
    requires names { length names.now ≤ 4294967296 }
    requires depth { depth ≤ 4294967296 }
    ensures { Agrees (λ variable. variable) result (where_true (nat_lt 0 room) (variable_at names.now depth bytes.now)) }
{
    if room == 0 {
        return Err(Stop::Misfit);
    }
    read_variable(names, depth, bytes)
}

// What is boxed.
#[tactic(auto, unfolding(cc_certificate_text::specs::Reading::term_rule_at))]
fn read_boxing<'a>(names: &Names, room: u32, depth: u64, bytes: &'a [u8]) -> Reading<'a, Node>
    requires names { length names.now ≤ 4294967296 }
    requires depth { depth ≤ 4294967296 }
    ensures read { Agrees term_of result (term_rule_at (term_parts names.now room (shape_at Counted names.now room) (term_at names.now room)) BoxingRule depth bytes.now) }
    ensures placed { IfOk result (λ read. AreFirst (places_of read.0)) }
{
    let (content, rest) = read_operand(names, room, depth, bytes)?;
    Ok((node(Form::Boxed(content)), rest))
}

// The set and the operand of an unboxing, behind the first brace.
#[tactic(auto, unfolding(cc_certificate_text::specs::Reading::term_rule_at))]
fn read_unboxing<'a>(
    alloc: Global,
    names: &Names,
    room: u32,
    depth: u64,
    bytes: &'a [u8],
) -> Reading<'a, Node>
    requires names { length names.now ≤ 4294967296 }
    requires depth { depth ≤ 4294967296 }
    ensures read { Agrees term_of result (term_rule_at (term_parts names.now room (shape_at Counted names.now room) (term_at names.now room)) UnboxRule depth bytes.now) }
    ensures placed { IfOk result (λ read. AreFirst (places_of read.0)) }
{
    let (set, rest) = read_set(alloc, Locals::Counted, names, depth, bytes)?;
    let (_, rest) = read_exact(" ", rest)?;
    let (content, rest) = read_operand(names, room, depth, rest)?;
    Ok((node(Form::Unbox(Some(set), content)), rest))
}

// A repetition, behind its parenthesis.
#[tactic(auto, unfolding(cc_certificate_text::specs::Reading::term_rule_at))]
fn read_repetition<'a>(names: &Names, room: u32, depth: u64, bytes: &'a [u8]) -> Reading<'a, Node>
    requires names { length names.now ≤ 4294967296 }
    requires depth { depth ≤ 4294967296 }
    ensures read { Agrees term_of result (term_rule_at (term_parts names.now room (shape_at Counted names.now room) (term_at names.now room)) RepeatRule depth bytes.now) }
    ensures placed { IfOk result (λ read. AreFirst (places_of read.0)) }
{
    let (count, rest) = read_operand(names, room, depth, bytes)?;
    let (_, rest) = read_exact(", ", rest)?;
    let (body, rest) = read_operand(names, room, depth, rest)?;
    let (_, rest) = read_exact(")", rest)?;
    Ok((node(Form::Repeat(count, body)), rest))
}

// An exit, behind its bracket.
#[tactic(auto, unfolding(cc_certificate_text::specs::Reading::term_rule_at))]
fn read_leaving<'a>(
    alloc: Global,
    names: &Names,
    room: u32,
    depth: u64,
    bytes: &'a [u8],
) -> Reading<'a, Node>
    requires names { length names.now ≤ 4294967296 }
    requires depth { depth ≤ 4294967296 }
    ensures read { Agrees term_of result (term_rule_at (term_parts names.now room (shape_at Counted names.now room) (term_at names.now room)) LeaveRule depth bytes.now) }
    ensures placed { IfOk result (λ read. AreFirst (places_of read.0)) }
{
    let (ty, rest) = read_type(alloc, Locals::Counted, names, room, depth, bytes)?;
    let (_, rest) = read_exact("] (", rest)?;
    let (exit, rest) = read_operand(names, room, depth, rest)?;
    let (_, rest) = read_exact(", ", rest)?;
    let (value, rest) = read_operand(names, room, depth, rest)?;
    let (_, rest) = read_exact(")", rest)?;
    let ty = Rc::new(alloc, ty)?;
    Ok((node(Form::Leave(ty, exit, value)), rest))
}

// A call, behind its parenthesis.
#[tactic(auto, unfolding(cc_certificate_text::specs::Reading::head_rule_at))]
fn read_call<'a>(
    names: &Names,
    room: u32,
    depth: u64,
    head: Var,
    bytes: &'a [u8],
) -> Reading<'a, Node>
    requires names { length names.now ≤ 4294967296 }
    requires depth { depth ≤ 4294967296 }
    ensures read { Agrees term_of result (head_rule_at (term_parts names.now room (shape_at Counted names.now room) (term_at names.now room)) room head Calls depth bytes.now) }
    ensures placed { IfOk result (λ read. AreFirst (places_of read.0)) }
{
    if room == 0 {
        return Err(Stop::Misfit);
    }
    let (argument, rest) = read_operand(names, room, depth, bytes)?;
    let (_, rest) = read_exact(")", rest)?;
    Ok((node(Form::App(head, argument)), rest))
}

// A call of a type function, behind its bracket.
#[tactic(auto, unfolding(cc_certificate_text::specs::Reading::head_rule_at))]
fn read_type_call<'a>(
    alloc: Global,
    names: &Names,
    room: u32,
    depth: u64,
    head: Var,
    bytes: &'a [u8],
) -> Reading<'a, Node>
    requires names { length names.now ≤ 4294967296 }
    requires depth { depth ≤ 4294967296 }
    ensures read { Agrees term_of result (head_rule_at (term_parts names.now room (shape_at Counted names.now room) (term_at names.now room)) room head TypeCalls depth bytes.now) }
    ensures placed { IfOk result (λ read. AreFirst (places_of read.0)) }
{
    if room == 0 {
        return Err(Stop::Misfit);
    }
    let (argument, rest) = read_shape(alloc, Locals::Counted, names, room, depth, bytes)?;
    let (_, rest) = read_exact("]", rest)?;
    let argument = Rc::new(alloc, argument)?;
    Ok((node(Form::TApp(head, argument)), rest))
}

// The second operand of an operator.
#[tactic(auto, unfolding(cc_certificate_text::specs::Reading::head_rule_at))]
fn read_right<'a>(
    names: &Names,
    room: u32,
    depth: u64,
    head: Var,
    operator: Operator,
    bytes: &'a [u8],
) -> Reading<'a, Node>
    requires names { length names.now ≤ 4294967296 }
    requires depth { depth ≤ 4294967296 }
    ensures read { Agrees term_of result (head_rule_at (term_parts names.now room (shape_at Counted names.now room) (term_at names.now room)) room head (Computes operator) depth bytes.now) }
    ensures placed { IfOk result (λ read. AreFirst (places_of read.0)) }
{
    if room == 0 {
        return Err(Stop::Misfit);
    }
    let (right, rest) = read_operand(names, room, depth, bytes)?;
    Ok((node(Form::Prim(operator, head, right)), rest))
}

// The argument of an operation, behind the parenthesis.
#[tactic(auto, unfolding(cc_certificate_text::specs::Reading::head_rule_at))]
fn read_told<'a>(
    names: &Names,
    room: u32,
    depth: u64,
    head: Var,
    operation: Op,
    bytes: &'a [u8],
) -> Reading<'a, Node>
    requires names { length names.now ≤ 4294967296 }
    requires depth { depth ≤ 4294967296 }
    ensures read { Agrees term_of result (head_rule_at (term_parts names.now room (shape_at Counted names.now room) (term_at names.now room)) room head (Tells operation) depth bytes.now) }
    ensures placed { IfOk result (λ read. AreFirst (places_of read.0)) }
{
    if room == 0 {
        return Err(Stop::Misfit);
    }
    let (argument, rest) = read_operand(names, room, depth, bytes)?;
    let (_, rest) = read_exact(")", rest)?;
    Ok((node(Form::Operate(operation, head, Some(argument))), rest))
}

// The end of an operation without an argument.
#[tactic(auto, unfolding(cc_certificate_text::specs::Reading::head_rule_at))]
fn read_asked<'a>(
    names: &Names,
    room: u32,
    depth: u64,
    head: Var,
    operation: Op,
    bytes: &'a [u8],
) -> Reading<'a, Node>
    requires names { length names.now ≤ 4294967296 }
    requires depth { depth ≤ 4294967296 }
    ensures read { Agrees term_of result (head_rule_at (term_parts names.now room (shape_at Counted names.now room) (term_at names.now room)) room head (Asks operation) depth bytes.now) }
    ensures placed { IfOk result (λ read. AreFirst (places_of read.0)) }
{
    if room == 0 {
        return Err(Stop::Misfit);
    }
    let (_, rest) = read_exact(")", bytes)?;
    Ok((node(Form::Operate(operation, head, None)), rest))
}

// An operator and its second operand, or the variable alone.
#[tactic(auto, unfolding(cc_certificate_text::specs::Reading::computed_at, cc_certificate_text::specs::Reading::begun))]
fn read_computed<'a>(
    names: &Names,
    room: u32,
    depth: u64,
    head: Var,
    bytes: &'a [u8],
) -> Reading<'a, Node>
    requires names { length names.now ≤ 4294967296 }
    requires depth { depth ≤ 4294967296 }
    ensures read { Agrees term_of result (computed_at (term_parts names.now room (shape_at Counted names.now room) (term_at names.now room)) room head depth bytes.now) }
    ensures placed { IfOk result (λ read. AreFirst (places_of read.0)) }
{
    if let Some(rest) = behind(bytes, " + ") {
        return read_right(names, room, depth, head, Operator::Add, rest);
    }
    if let Some(rest) = behind(bytes, " - ") {
        return read_right(names, room, depth, head, Operator::Sub, rest);
    }
    if let Some(rest) = behind(bytes, " * ") {
        return read_right(names, room, depth, head, Operator::Mul, rest);
    }
    if let Some(rest) = behind(bytes, " < ") {
        return read_right(names, room, depth, head, Operator::Less, rest);
    }
    if let Some(rest) = behind(bytes, " == ") {
        return read_right(names, room, depth, head, Operator::Equal, rest);
    }
    Ok((node(Form::Var(head)), bytes))
}

// An operation, or what begins otherwise with the variable.
#[tactic(auto, unfolding(cc_certificate_text::specs::Reading::operated_at, cc_certificate_text::specs::Reading::begun))]
fn read_operated<'a>(
    names: &Names,
    room: u32,
    depth: u64,
    head: Var,
    bytes: &'a [u8],
) -> Reading<'a, Node>
    requires names { length names.now ≤ 4294967296 }
    requires depth { depth ≤ 4294967296 }
    ensures read { Agrees term_of result (operated_at (term_parts names.now room (shape_at Counted names.now room) (term_at names.now room)) room head depth bytes.now (computed_at (term_parts names.now room (shape_at Counted names.now room) (term_at names.now room)) room head depth bytes.now)) }
    ensures placed { IfOk result (λ read. AreFirst (places_of read.0)) }
{
    if let Some(rest) = behind(bytes, ".print(") {
        return read_told(names, room, depth, head, Op::Print, rest);
    }
    if let Some(rest) = behind(bytes, ".say(") {
        return read_told(names, room, depth, head, Op::Say, rest);
    }
    if let Some(rest) = behind(bytes, ".read(") {
        return read_asked(names, room, depth, head, Op::Read, rest);
    }
    if let Some(rest) = behind(bytes, ".write(") {
        return read_told(names, room, depth, head, Op::Write, rest);
    }
    if let Some(rest) = behind(bytes, ".tick(") {
        return read_asked(names, room, depth, head, Op::Tick, rest);
    }
    read_computed(names, room, depth, head, bytes)
}

// A term that begins with a variable, behind it.
#[tactic(auto, unfolding(cc_certificate_text::specs::Reading::headed_at, cc_certificate_text::specs::Reading::begun))]
fn read_headed<'a>(
    alloc: Global,
    names: &Names,
    room: u32,
    depth: u64,
    head: Var,
    bytes: &'a [u8],
) -> Reading<'a, Node>
    requires names { length names.now ≤ 4294967296 }
    requires depth { depth ≤ 4294967296 }
    ensures read { Agrees term_of result (headed_at (term_parts names.now room (shape_at Counted names.now room) (term_at names.now room)) room head depth bytes.now) }
    ensures placed { IfOk result (λ read. AreFirst (places_of read.0)) }
{
    if let Some(rest) = behind(bytes, "(") {
        return read_call(names, room, depth, head, rest);
    }
    if let Some(rest) = behind(bytes, "[") {
        return read_type_call(alloc, names, room, depth, head, rest);
    }
    read_operated(names, room, depth, head, bytes)
}

// A text, behind its first quote.
#[tactic(auto, unfolding(cc_certificate_text::specs::Reading::text_at))]
fn read_text<'a>(alloc: Global, bytes: &'a [u8]) -> Reading<'a, Node>
    ensures read { Agrees term_of result (text_at bytes.now) }
    ensures placed { IfOk result (λ read. AreFirst (places_of read.0)) }
{
    let Some((word, rest)) = cut_at(bytes, b'"') else {
        return Err(Stop::Misfit);
    };
    match text_of(alloc, word)? {
        Some(literal) => Ok((node(Form::Lit(literal)), rest)),
        None => Err(Stop::Misfit),
    }
}

// A term that begins with a word which is a variable or a literal.
#[tactic(auto, unfolding(cc_certificate_text::specs::Reading::word_term_at))]
fn read_word_term<'a>(
    alloc: Global,
    names: &Names,
    room: u32,
    depth: u64,
    bytes: &'a [u8],
) -> Reading<'a, Node>
    requires names { length names.now ≤ 4294967296 }
    requires depth { depth ≤ 4294967296 }
    ensures read { Agrees term_of result (word_term_at names.now (term_parts names.now room (shape_at Counted names.now room) (term_at names.now room)) room depth bytes.now) }
    ensures placed { IfOk result (λ read. AreFirst (places_of read.0)) }
{
    let (word, rest) = word_at(bytes);
    match variable_of(Locals::Counted, names, depth, word) {
        Some(head) => read_headed(alloc, names, room, depth, head, rest),
        None => match literal_of(word) {
            Some(literal) => Ok((node(Form::Lit(literal)), rest)),
            None => Err(Stop::Misfit),
        },
    }
}

/// A term without parts that are terms.
#[tactic(auto, unfolding(cc_certificate_text::specs::Reading::plain_term_at, cc_certificate_text::specs::Reading::begun))]
pub fn read_plain_term<'a>(
    alloc: Global,
    names: &Names,
    room: u32,
    depth: u64,
    bytes: &'a [u8],
) -> Reading<'a, Node>
    requires names { length names.now ≤ 4294967296 }
    requires depth { depth ≤ 4294967296 }
    ensures read { Agrees term_of result (plain_term_at names.now (term_parts names.now room (shape_at Counted names.now room) (term_at names.now room)) room depth bytes.now) }
    ensures placed { IfOk result (λ read. AreFirst (places_of read.0)) }
{
    if let Some(rest) = behind(bytes, "box ") {
        return read_boxing(names, room, depth, rest);
    }
    if let Some(rest) = behind(bytes, "unbox {") {
        return read_unboxing(alloc, names, room, depth, rest);
    }
    if let Some(rest) = behind(bytes, "repeat(") {
        return read_repetition(names, room, depth, rest);
    }
    if let Some(rest) = behind(bytes, "exit [") {
        return read_leaving(alloc, names, room, depth, rest);
    }
    if let Some(rest) = behind(bytes, "\"") {
        return read_text(alloc, rest);
    }
    read_word_term(alloc, names, room, depth, bytes)
}
