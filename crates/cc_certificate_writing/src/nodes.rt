//! The lines of a derivation's nodes, written by a loop over what waits.

ghost use Rattle.std.specs.Prelude.{◌≡◌, ◌+◌, ◌-◌, ◌^◌, ◌<◌, ◌++◌, ◌∷◌, length, take, drop, [], OnOk, IfOk};
ghost use Rattle.std.specs.String.{string_bytes};
ghost use Rattle.cc_io.specs.Pieces.{Streams};
ghost use Rattle.cc_io.specs.Wholes.{WriteAllCause};
ghost use Rattle.cc_derivation.specs.DerivationViews.{rule_of, claim_of, premises_of, der_of};
ghost use Rattle.cc_certificate_writing.specs.Certificates as plain;
ghost use Rattle.cc_certificate_writing.specs.WaitingLines as turn;
ghost use Rattle.cc_certificate_text.specs.NodeTexts.{node_line};

use crate::claims::put_node_line;
use crate::writing::deeper;
use cc_derivation::{Der, Premises, Rule};
use cc_io::{Sink, WriteAll, spill};
use cc_print::Names;
use std::alloc::{AllocError, Global};

// Whether the first premise of the rule stands under one binder more.
fn binds_first(rule: Rule) -> bool
    ensures { result ≡ plain.binds_first (rule_of rule) }
{
    match rule {
        Rule::Function => true,
        Rule::TypeFunction => true,
        Rule::Boundary => true,
        _ => false,
    }
}

// Whether those behind the first do.
fn binds_others(rule: Rule) -> bool
    ensures { result ≡ plain.binds_others (rule_of rule) }
{
    match rule {
        Rule::Let => true,
        Rule::ByFunction => true,
        Rule::ByTypeFunction => true,
        _ => false,
    }
}

// So many binders, and one more where that is so.
fn with_binder(more: bool, locals: u32) -> Result<u32, AllocError>
    ensures { IfOk result (λ n. n ≡ plain.with_binder more locals) }
{
    if more { deeper(locals) } else { Ok(locals) }
}

/// What waits to be written.
#[derive(Clone, Copy)]
pub(crate) enum Waiting<'a> {
    /// The lines of a derivation, with so many local binders at its root.
    Whole(u32, &'a Der),
    /// Those of premises, with so many at the first one, and so many at those behind it.
    Several(u32, u32, &'a Premises),
    /// The line of a node with so many, whose premises are written: their numbers stand from the place on.
    Last(u32, usize, &'a Der),
}

// The premises of a derivation wait, and then its last node, where so many numbers stand.
fn wait_for_node<'a>(
    waiting: &mut Vec<Waiting<'a>>,
    locals: u32,
    from: usize,
    der: &'a Der,
) -> Result<(), AllocError>
    ensures { OnOk result (turn.in_turn waiting.new.items ≡ turn.Several (plain.with_binder (plain.binds_first (rule_of der.now.rule)) locals) (plain.with_binder (plain.binds_others (rule_of der.now.rule)) locals) (premises_of der.now.premises) ∷ (turn.Last locals from (rule_of der.now.rule) (claim_of der.now.claim) ∷ turn.in_turn waiting.old.items)) }
{
    let first = with_binder(binds_first(der.rule), locals)?;
    let others = with_binder(binds_others(der.rule), locals)?;
    waiting.push(Waiting::Last(locals, from, der))?;
    waiting.push(Waiting::Several(first, others, &der.premises))?;
    Ok(())
}

// The first premise waits, if there is one, and then those behind it.
fn wait_for_premises<'a>(
    waiting: &mut Vec<Waiting<'a>>,
    first: u32,
    others: u32,
    premises: &'a Premises,
) -> Result<(), AllocError>
    ensures { OnOk result (turn.in_turn waiting.new.items ≡ turn.premises_in_turn first others (premises_of premises.now) (turn.in_turn waiting.old.items)) }
{
    match premises {
        Premises::End => Ok(()),
        Premises::More(next, rest) => {
            waiting.push(Waiting::Several(others, others, rest))?;
            waiting.push(Waiting::Whole(first, next))?;
            Ok(())
        }
    }
}

// Adds the line of a node whose premises have the numbers from the place on, which its own number replaces. The names
// stay.
fn put_last(
    alloc: Global,
    out: &mut String,
    front: &str,
    names: &mut Names,
    number: u64,
    numbers: &mut Vec<u64>,
    locals: u32,
    from: usize,
    der: &Der,
) -> Result<(), AllocError>
    ensures text { OnOk result (string_bytes out.new ≡ string_bytes out.old ++ plain.line (front.now ++ node_line names.old.names.items locals number (rule_of der.now.rule) (drop from numbers.old.items) (claim_of der.now.claim))) }
    ensures numbers { OnOk result (numbers.new.items ≡ take from numbers.old.items ++ number ∷ []) }
    ensures names { names.new.names.items ≡ names.old.names.items }
{
    names.locals = locals;
    let start = from.min(numbers.len());
    put_node_line(
        alloc,
        out,
        front,
        &*names,
        number,
        der.rule,
        &numbers[start..],
        &der.claim,
    )?;
    numbers.truncate(start);
    numbers.push(number)?;
    Ok(())
}

// Takes the turn of what waits next. Gives the number of the last node that is written. The names stay.
fn take_turn<'a>(
    alloc: Global,
    out: &mut String,
    front: &str,
    names: &mut Names,
    number: u64,
    numbers: &mut Vec<u64>,
    waiting: &mut Vec<Waiting<'a>>,
    next: Waiting<'a>,
) -> Result<u64, AllocError>
    ensures turn { IfOk result (λ n. turn.TakesTurn front.now names.old.names.items (record { text = string_bytes out.old; number = number; numbers = numbers.old.items; waiting = turn.waiting_of next.entry ∷ turn.in_turn waiting.old.items }) (record { text = string_bytes out.new; number = n; numbers = numbers.new.items; waiting = turn.in_turn waiting.new.items })) }
    ensures names { names.new.names.items ≡ names.old.names.items }
{
    match next {
        Waiting::Whole(locals, der) => {
            wait_for_node(waiting, locals, numbers.len(), der)?;
            Ok(number)
        }
        Waiting::Several(first, others, premises) => {
            wait_for_premises(waiting, first, others, premises)?;
            Ok(number)
        }
        Waiting::Last(locals, from, der) => {
            let own = number.checked_add(1).ok_or(AllocError)?;
            put_last(alloc, out, front, names, own, numbers, locals, from, der)?;
            Ok(own)
        }
    }
}

/// Adds the lines of the nodes of a derivation, each behind a front. The names stay.
pub(crate) fn put_nodes(
    alloc: Global,
    out: &mut String,
    front: &str,
    names: &mut Names,
    der: &Der,
) -> Result<(), AllocError>
    ensures { OnOk result (string_bytes out.new ≡ string_bytes out.old ++ plain.lines_behind front.now (plain.node_lines names.old.names.items 0 0 (der_of der.now))) }
{
    let mut number = 0;
    let mut numbers = Vec::new(alloc);
    let mut waiting = Vec::new(alloc);
    waiting.push(Waiting::Whole(0, der))?;
    while let Some(next) = waiting.pop() {
        number = take_turn(
            alloc,
            out,
            front,
            names,
            number,
            &mut numbers,
            &mut waiting,
            next,
        )?;
    }
    Ok(())
}

// What waits at first: the whole derivation.
fn first_turn<'a>(alloc: Global, der: &'a Der) -> Result<Vec<Waiting<'a>>, AllocError>
    ensures { IfOk result (λ turns. turn.in_turn turns.items ≡ turn.Whole 0 (der_of der.now) ∷ []) }
{
    let mut turns = Vec::new(alloc);
    turns.push(Waiting::Whole(0, der))?;
    Ok(turns)
}

/// Writes the lines of the nodes of a derivation, each behind a front, in pieces. The names stay.
pub(crate) fn write_nodes<K: Sink>(
    alloc: Global,
    sink: &mut K,
    waiting: &mut String,
    front: &str,
    names: &mut Names,
    der: &Der,
) -> Result<(), WriteAll>
    requires { K.faults sink.old < 2 ^ 64 - 1 }
    ensures streams { Streams (K.written sink.old) (K.written sink.new) (string_bytes waiting.old) (string_bytes waiting.new) result
        (plain.lines_behind front.now (plain.node_lines names.old.names.items 0 0 (der_of der.now))) }
    ensures cause { WriteAllCause (K.faults sink.old) (K.faults sink.new) result }
{
    let mut number = 0;
    let mut numbers = Vec::new(alloc);
    let mut turns = match first_turn(alloc, der) {
        Ok(turns) => turns,
        Err(AllocError) => return Err(WriteAll::NoMemory),
    };
    while let Some(next) = turns.pop() {
        number = match take_turn(
            alloc,
            waiting,
            front,
            names,
            number,
            &mut numbers,
            &mut turns,
            next,
        ) {
            Ok(last) => last,
            Err(AllocError) => return Err(WriteAll::NoMemory),
        };
        spill(sink, waiting)?;
    }
    Ok(())
}
