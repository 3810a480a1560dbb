//! How many holes a right side has.

ghost use Rattle.std.specs.Prelude.{◌≡◌, max, IfOk};
ghost use Rattle.cc_core.specs.TermViews.{form_of, term_of};
ghost use Rattle.cc_known.specs.FilledHoles as plain;

use cc_capture::{CapSet, Elem};
use cc_core::{Form, Node};
use std::alloc::AllocError;

/// One more than the greatest number of a hole in the term, and zero where there is none. Holes are looked for where
/// alone they stand, in the sets of parameters.
///
/// Fails only where that number is no `u32`, which counts as want of memory.
pub fn hole_count(node: &Node) -> Result<u32, AllocError>
    ensures { IfOk result (λ n. n ≡ plain.holes_of (term_of node.now)) }
{
    let count = holes_in(&node.form);
    if count > u32::MAX as u64 {
        return Err(AllocError);
    }
    Ok(count as u32)
}

// The same as a number that has room for it.
fn holes_in(form: &Form) -> u64
    ensures { result ≡ plain.holes_of (form_of form.now) }
{
    match form {
        Form::Var(_) => 0,
        Form::Lit(_) => 0,
        Form::Fun(takes, body) => greater(holes_in_set(&takes.set), holes_in(&body.form)),
        Form::TFun(_, body) => holes_in(&body.form),
        Form::Boxed(_) => 0,
        Form::App(_, _) => 0,
        Form::TApp(_, _) => 0,
        Form::Unbox(_, _) => 0,
        Form::Let(_, right, body) => greater(holes_in(&right.form), holes_in(&body.form)),
        Form::Prim(_, _, _) => 0,
        Form::If(_, _, positive, negative) => {
            greater(holes_in(&positive.form), holes_in(&negative.form))
        }
        Form::Repeat(_, _) => 0,
        Form::Operate(_, _, _) => 0,
        Form::Boundary(_, body) => holes_in(&body.form),
        Form::Leave(_, _, _) => 0,
    }
}

// The greater of two numbers.
fn greater(one: u64, other: u64) -> u64
    ensures { result ≡ max one other }
{
    if one < other { other } else { one }
}

// One more than the greatest number of a hole in the set, and zero where there is none.
fn holes_in_set(set: &CapSet) -> u64
    ensures { result ≡ plain.holes_of_set set.now }
{
    let mut holes = 0;
    for elem in set.iter() {
        holes = greater(holes, holes_of(elem));
    }
    holes
}

// One more than the number of a hole.
fn holes_of(elem: Elem) -> u64
    ensures { result ≡ plain.holes_of_element elem }
{
    match elem {
        Elem::Hole(number) => number as u64 + 1,
        Elem::Cap => 0,
        Elem::Var(_) => 0,
    }
}
