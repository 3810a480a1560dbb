//! The captured variables of a term.

ghost use Rattle.std.specs.Prelude.{◌≡◌, true, IfOk, OnOk};
ghost use Rattle.cc_capture.specs.Sets.{union};
ghost use Rattle.cc_capture.specs.declared.var.Elem.TheVariants.{Var as Variable};
ghost use Rattle.cc_core.specs.Captured as plain;
ghost use Rattle.cc_core.specs.Captured.{captured_variables};
ghost use Rattle.cc_core.specs.Stores.{is_function};
ghost use Rattle.cc_core.specs.TermViews.{form_of, term_of};

use cc_capture::{CapSet, Elem, Var};
use cc_core::{Form, Node};
use std::alloc::{AllocError, Global};

/// The variables that running the term may use. A box captures nothing, and opening one captures the set that is
/// written there, an omitted one nothing. The right side of a `Let` counts unless it is a value that the body does
/// not capture.
///
/// The set of each part is found once. Fails only for want of memory.
#[cycle(captured)]
pub fn cv(alloc: Global, node: &Node) -> Result<CapSet, AllocError>
    ensures { IfOk result (λ s. s ≡ captured_variables (term_of node.now)) }
{
    match &node.form {
        Form::Var(variable) => variable_set(alloc, *variable),
        Form::Lit(_) => Ok(CapSet::new(alloc)),
        Form::Fun(_, body) => outer_variables(alloc, body),
        Form::TFun(_, body) => outer_variables(alloc, body),
        Form::Boxed(_) => Ok(CapSet::new(alloc)),
        Form::App(function, argument) => two_variables(alloc, *function, *argument),
        Form::TApp(function, _) => variable_set(alloc, *function),
        Form::Unbox(set, content) => unboxed_variables(alloc, set, *content),
        Form::Let(_, right, body) => {
            let body = cv(alloc, body)?;
            let outer = without_binder(alloc, &body)?;
            if is_value(right) && !body.contains(Elem::Var(Var::Bound(0))) {
                return Ok(outer);
            }
            let right = cv(alloc, right)?;
            right.union(alloc, &outer)
        }
        Form::Prim(_, left, right) => two_variables(alloc, *left, *right),
        Form::If(_, test, positive, negative) => {
            let positive = cv(alloc, positive)?;
            let negative = cv(alloc, negative)?;
            either_variables(alloc, *test, &positive, &negative)
        }
        Form::Repeat(count, function) => two_variables(alloc, *count, *function),
        Form::Operate(_, receiver, argument) => operation_variables(alloc, *receiver, *argument),
        Form::Boundary(_, body) => outer_variables(alloc, body),
        Form::Leave(_, exit, value) => two_variables(alloc, *exit, *value),
    }
}

// The captured variables of what stands under a binder, as they are outside it.
#[cycle(captured)]
fn outer_variables(alloc: Global, body: &Node) -> Result<CapSet, AllocError>
    ensures { IfOk result (λ s. s ≡ plain.without_binder (captured_variables (term_of body.now))) }
{
    let inner = cv(alloc, body)?;
    without_binder(alloc, &inner)
}

/// Whether the term is a literal, a function, a type function or a box.
pub fn is_value(node: &Node) -> bool
    ensures { result ≡ plain.is_value (term_of node.now) }
{
    match &node.form {
        Form::Lit(_) => true,
        Form::Fun(_, _) => true,
        Form::TFun(_, _) => true,
        Form::Boxed(_) => true,
        _ => false,
    }
}

/// Whether the term is a function or a type function.
pub fn is_function(node: &Node) -> bool
    ensures { result ≡ is_function (term_of node.now) }
{
    match &node.form {
        Form::Fun(_, _) => true,
        Form::TFun(_, _) => true,
        _ => false,
    }
}

fn variable_set(alloc: Global, variable: Var) -> Result<CapSet, AllocError>
    ensures { IfOk result (λ s. s ≡ plain.variable_set variable) }
{
    let mut set = CapSet::new(alloc);
    set.insert(Elem::Var(variable))?;
    Ok(set)
}

#[inline(always)]
fn two_variables(alloc: Global, first: Var, second: Var) -> Result<CapSet, AllocError>
    ensures { IfOk result (λ s. s ≡ union (plain.variable_set first) (plain.variable_set second)) }
{
    let mut set = variable_set(alloc, second)?;
    set.insert(Elem::Var(first))?;
    Ok(set)
}

fn unboxed_variables(
    alloc: Global,
    set: &Option<CapSet>,
    content: Var,
) -> Result<CapSet, AllocError>
    ensures { IfOk result (λ s. s ≡ union (plain.optional_set set.now) (plain.variable_set content)) }
{
    let captured = variable_set(alloc, content)?;
    match set {
        Some(set) => set.union(alloc, &captured),
        None => Ok(captured),
    }
}

fn operation_variables(
    alloc: Global,
    receiver: Var,
    argument: Option<Var>,
) -> Result<CapSet, AllocError>
    ensures { IfOk result (λ s. s ≡ union (plain.variable_set receiver) (plain.optional_variable_set argument)) }
{
    match argument {
        Some(argument) => two_variables(alloc, receiver, argument),
        None => variable_set(alloc, receiver),
    }
}

fn either_variables(
    alloc: Global,
    test: Var,
    positive: &CapSet,
    negative: &CapSet,
) -> Result<CapSet, AllocError>
    ensures { IfOk result (λ s. s ≡ union (plain.variable_set test) (union positive.now negative.now)) }
{
    let mut set = positive.union(alloc, negative)?;
    set.insert(Elem::Var(test))?;
    Ok(set)
}

// Puts a variable of a body into the set, as it stands outside the binder.
fn add_outside_variable(variable: Var, outer: &mut CapSet) -> Result<(), AllocError>
    ensures { OnOk result (outer.new ≡ union (plain.outside (Variable variable)) outer.old) }
{
    match variable {
        Var::Bound(index) => {
            if index == 0 {
                return Ok(());
            }
            outer.insert(Elem::Var(Var::Bound(index - 1)))
        }
        Var::Free(_) => outer.insert(Elem::Var(variable)),
    }
}

// Puts an element of a body into the set, as it stands outside the binder.
fn add_outside(elem: Elem, outer: &mut CapSet) -> Result<(), AllocError>
    ensures { OnOk result (outer.new ≡ union (plain.outside elem) outer.old) }
{
    match elem {
        Elem::Var(variable) => add_outside_variable(variable, outer),
        Elem::Cap => outer.insert(elem),
        Elem::Hole(_) => outer.insert(elem),
    }
}

/// The captured variables of what stands under a binder, as they are outside it. Fails only for want of memory.
pub fn without_binder(alloc: Global, set: &CapSet) -> Result<CapSet, AllocError>
    ensures { IfOk result (λ s. s ≡ plain.without_binder set.now) }
{
    let mut outer = CapSet::new(alloc);
    for elem in set.iter() {
        add_outside(elem, &mut outer)?;
    }
    Ok(outer)
}
