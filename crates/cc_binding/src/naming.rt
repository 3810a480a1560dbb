//! Which positions the text of a module names, 64 at a time, as the bits of a word. It takes no memory.

ghost use Rattle.std.specs.Prelude.{◌≡◌, ◌≤◌, bit_or};
ghost use Rattle.cc_binding.specs.NamedBits as plain;
ghost use Rattle.cc_core.specs.TermViews.{term_of};
ghost use Rattle.cc_session.specs.Modules.{module_of};

use cc_capture::{CapSet, Elem, Var};
use cc_core::{Form, Node};
use cc_session::modules::EntryModule;

// The bits of two words.
fn both(one: u64, other: u64) -> u64
    ensures bits { result ≡ bit_or one other }
    ensures within { one ≡ 0 → other ≡ 0 → result ≡ 0 }
{
    one | other
}

// The bit of a position, where it is one of 64 from the first one on.
fn position_bit(first: usize, position: u32) -> u64
    ensures bits { result ≡ plain.position_bit first position }
    ensures within { 4294967296 ≤ first → result ≡ 0 }
{
    let position = position as usize;
    if position < first {
        return 0;
    }
    let place = position - first;
    if place < 64 { 1 << place } else { 0 }
}

// The bit of a variable.
fn variable_bit(first: usize, variable: Var) -> u64
    ensures bits { result ≡ plain.variable_bit first variable }
    ensures within { 4294967296 ≤ first → result ≡ 0 }
{
    match variable {
        Var::Free(position) => position_bit(first, position),
        Var::Bound(_) => 0,
    }
}

// The bits of two variables.
fn variable_bits(first: usize, one: Var, other: Var) -> u64
    ensures bits { result ≡ bit_or (plain.variable_bit first one) (plain.variable_bit first other) }
    ensures within { 4294967296 ≤ first → result ≡ 0 }
{
    both(variable_bit(first, one), variable_bit(first, other))
}

// The bit of an argument, where there is one.
fn argument_bit(first: usize, argument: Option<Var>) -> u64
    ensures bits { result ≡ plain.argument_bit first argument }
    ensures within { 4294967296 ≤ first → result ≡ 0 }
{
    match argument {
        Some(variable) => variable_bit(first, variable),
        None => 0,
    }
}

// The bit of an element of a set.
fn element_bit(first: usize, elem: Elem) -> u64
    ensures bits { result ≡ plain.element_bit first elem }
    ensures within { 4294967296 ≤ first → result ≡ 0 }
{
    match elem {
        Elem::Var(variable) => variable_bit(first, variable),
        Elem::Cap => 0,
        Elem::Hole(_) => 0,
    }
}

// The bits of a set.
fn set_bits(first: usize, set: &CapSet) -> u64
    ensures bits { result ≡ plain.set_bits first set.now }
    ensures within { 4294967296 ≤ first → result ≡ 0 }
{
    let mut bits = 0;
    for elem in set.iter() {
        bits = both(bits, element_bit(first, elem));
    }
    bits
}

// The bits of a set that may be omitted.
fn optional_set_bits(first: usize, set: &Option<CapSet>) -> u64
    ensures bits { result ≡ plain.optional_set_bits first set.now }
    ensures within { 4294967296 ≤ first → result ≡ 0 }
{
    match set {
        Some(set) => set_bits(first, set),
        None => 0,
    }
}

/// The bits of the positions that the term names: in an expression, or in the set under which a box is opened.
pub fn named_bits(first: usize, node: &Node) -> u64
    ensures bits { result ≡ plain.named_bits first (term_of node.now) }
    ensures within { 4294967296 ≤ first → result ≡ 0 }
{
    match &node.form {
        Form::Var(variable) => variable_bit(first, *variable),
        Form::Lit(_) => 0,
        Form::Fun(_, body) => named_bits(first, body),
        Form::TFun(_, body) => named_bits(first, body),
        Form::Boxed(content) => variable_bit(first, *content),
        Form::App(function, argument) => variable_bits(first, *function, *argument),
        Form::TApp(function, _) => variable_bit(first, *function),
        Form::Unbox(set, opened) => {
            both(optional_set_bits(first, set), variable_bit(first, *opened))
        }
        Form::Let(_, right, body) => both(named_bits(first, right), named_bits(first, body)),
        Form::Prim(_, left, right) => variable_bits(first, *left, *right),
        Form::If(_, test, positive, negative) => {
            let branches = both(named_bits(first, positive), named_bits(first, negative));
            both(variable_bit(first, *test), branches)
        }
        Form::Repeat(count, function) => variable_bits(first, *count, *function),
        Form::Operate(_, receiver, argument) => {
            both(
                variable_bit(first, *receiver),
                argument_bit(first, *argument),
            )
        }
        Form::Boundary(_, body) => named_bits(first, body),
        Form::Leave(_, exit, value) => variable_bits(first, *exit, *value),
    }
}

/// The bits of the positions that the module names.
pub fn module_bits(first: usize, module: &EntryModule) -> u64
    ensures bits { result ≡ plain.module_bits first (module_of «module».now) }
    ensures within { 4294967296 ≤ first → result ≡ 0 }
{
    let mut bits = 0;
    for def in &module.defs {
        bits = both(bits, named_bits(first, &def.checked.filled));
    }
    bits
}
