//! The same way through terms, and through the types that are written in them. Each call fails only for want of memory,
//! as which an index or binders above one place beyond 2^32 - 1 count.

ghost use Rattle.std.specs.Prelude.{◌≡◌, IfOk, option_map};
ghost use Rattle.cc_core.specs.declared.terms.Form.TheVariants as forms;
ghost use Rattle.cc_core.specs.Traversal as plain;
ghost use Rattle.cc_core.specs.Actions.{action_of};
ghost use Rattle.cc_core.specs.TermViews.{type_of, note_of, form_of, term_of};
ghost use Rattle.cc_core.specs.Places.{Spots, places_around, places_of};

use crate::acting::{Action, act_set, act_shape, act_shared_type, act_variable, under};
use crate::copies::copy_literal;
use crate::terms::{Form, Node, Note};
use crate::types::{Shape, Ty};
use cc_base::literal::{Op, Operator};
use cc_capture::{CapSet, Var};
use std::alloc::{AllocError, Global};
use std::rc::Rc;

/// What is written for a type, in which the action was taken everywhere, where it stands under so many binders.
pub fn act_note(alloc: Global, action: &Action, depth: u32, note: &Note) -> Result<Note, AllocError>
    ensures { IfOk result (λ n. note_of n ≡ plain.act_note (action_of action.now) depth (note_of note.now)) }
{
    match note {
        Note::Absent => Ok(Note::Absent),
        Note::Written(ty) => Ok(Note::Written(act_shared_type(alloc, action, depth, ty)?)),
        Note::Own(shape) => Ok(Note::Own(act_shape(alloc, action, depth, shape)?)),
    }
}

fn act_optional_set(
    alloc: Global,
    action: &Action,
    depth: u32,
    set: &Option<CapSet>,
) -> Result<Option<CapSet>, AllocError>
    ensures { IfOk result (λ s. s ≡ option_map (plain.act_set (action_of action.now) depth) set.now) }
{
    match set {
        Some(set) => Ok(Some(act_set(alloc, action, depth, set)?)),
        None => Ok(None),
    }
}

fn act_optional_variable(
    action: &Action,
    depth: u32,
    variable: Option<Var>,
) -> Result<Option<Var>, AllocError>
    ensures { IfOk result (λ v. v ≡ option_map ((action_of action.now).variable depth) variable) }
{
    match variable {
        Some(variable) => Ok(Some(act_variable(action, depth, variable)?)),
        None => Ok(None),
    }
}

// The form at the places of the node.
fn at_places_of(alloc: Global, node: &Node, form: Form) -> Result<Rc<Node>, AllocError>
    ensures { IfOk result (λ n. (n.value.form ≡ form) × (n.value.at ≡ node.now.at) × (n.value.first ≡ node.now.first) × (n.value.second ≡ node.now.second)) }
{
    let node = Node {
        form,
        at: node.at,
        first: node.first,
        second: node.second,
    };
    Ok(Rc::new(alloc, node)?)
}

/// The term in which the action was taken everywhere, also in the types that are written in it, where it stands under
/// so many binders. The places stay.
#[cycle(act_terms)]
pub fn act_node(
    alloc: Global,
    action: &Action,
    depth: u32,
    node: &Rc<Node>,
) -> Result<Rc<Node>, AllocError>
    ensures term { IfOk result (λ n. term_of n.value ≡ plain.act_term (action_of action.now) depth (term_of node.now.value)) }
    ensures places { IfOk result (λ n. places_of n.value ≡ places_of node.now.value) }
{
    let form = act_form(alloc, action, depth, &node.form)?;
    at_places_of(alloc, node, form)
}

// The same of an application.
fn act_application(
    action: &Action,
    depth: u32,
    function: Var,
    argument: Var,
) -> Result<Form, AllocError>
    ensures term { IfOk result (λ f. form_of f ≡ plain.act_term (action_of action.now) depth (form_of (forms.App function argument))) }
    ensures places { IfOk result (λ f. (own : Spots) → places_around own f ≡ places_around own (forms.App function argument)) }
{
    let function = act_variable(action, depth, function)?;
    Ok(Form::App(function, act_variable(action, depth, argument)?))
}

// The same of an application of a type function.
fn act_type_application(
    alloc: Global,
    action: &Action,
    depth: u32,
    function: Var,
    argument: &Rc<Shape>,
) -> Result<Form, AllocError>
    ensures term { IfOk result (λ f. form_of f ≡ plain.act_term (action_of action.now) depth (form_of (forms.TApp function argument.now))) }
    ensures places { IfOk result (λ f. (own : Spots) → places_around own f ≡ places_around own (forms.TApp function argument.now)) }
{
    let function = act_variable(action, depth, function)?;
    Ok(Form::TApp(function, act_shape(alloc, action, depth, argument)?))
}

// The same of an unboxing.
fn act_unboxing(
    alloc: Global,
    action: &Action,
    depth: u32,
    set: &Option<CapSet>,
    content: Var,
) -> Result<Form, AllocError>
    ensures term { IfOk result (λ f. form_of f ≡ plain.act_term (action_of action.now) depth (form_of (forms.Unbox set.now content))) }
    ensures places { IfOk result (λ f. (own : Spots) → places_around own f ≡ places_around own (forms.Unbox set.now content)) }
{
    let set = act_optional_set(alloc, action, depth, set)?;
    Ok(Form::Unbox(set, act_variable(action, depth, content)?))
}

// The same of an operator.
fn act_primitive(
    action: &Action,
    depth: u32,
    operator: Operator,
    left: Var,
    right: Var,
) -> Result<Form, AllocError>
    ensures term { IfOk result (λ f. form_of f ≡ plain.act_term (action_of action.now) depth (form_of (forms.Prim operator left right))) }
    ensures places { IfOk result (λ f. (own : Spots) → places_around own f ≡ places_around own (forms.Prim operator left right)) }
{
    let left = act_variable(action, depth, left)?;
    Ok(Form::Prim(operator, left, act_variable(action, depth, right)?))
}

// The same of a repetition.
fn act_repetition(
    action: &Action,
    depth: u32,
    count: Var,
    function: Var,
) -> Result<Form, AllocError>
    ensures term { IfOk result (λ f. form_of f ≡ plain.act_term (action_of action.now) depth (form_of (forms.Repeat count function))) }
    ensures places { IfOk result (λ f. (own : Spots) → places_around own f ≡ places_around own (forms.Repeat count function)) }
{
    let count = act_variable(action, depth, count)?;
    Ok(Form::Repeat(count, act_variable(action, depth, function)?))
}

// The same of an operation.
fn act_operation(
    action: &Action,
    depth: u32,
    operation: Op,
    receiver: Var,
    argument: Option<Var>,
) -> Result<Form, AllocError>
    ensures term { IfOk result (λ f. form_of f ≡ plain.act_term (action_of action.now) depth (form_of (forms.Operate operation receiver argument))) }
    ensures places { IfOk result (λ f. (own : Spots) → places_around own f ≡ places_around own (forms.Operate operation receiver argument)) }
{
    let receiver = act_variable(action, depth, receiver)?;
    let argument = act_optional_variable(action, depth, argument)?;
    Ok(Form::Operate(operation, receiver, argument))
}

// The same of a leaving.
fn act_leave(
    alloc: Global,
    action: &Action,
    depth: u32,
    gives: &Rc<Ty>,
    exit: Var,
    value: Var,
) -> Result<Form, AllocError>
    ensures term { IfOk result (λ f. form_of f ≡ plain.act_term (action_of action.now) depth (form_of (forms.Leave gives.now exit value))) }
    ensures places { IfOk result (λ f. (own : Spots) → places_around own f ≡ places_around own (forms.Leave gives.now exit value)) }
{
    let gives = act_shared_type(alloc, action, depth, gives)?;
    let exit = act_variable(action, depth, exit)?;
    Ok(Form::Leave(gives, exit, act_variable(action, depth, value)?))
}

#[cycle(act_terms)]
fn act_form(alloc: Global, action: &Action, depth: u32, form: &Form) -> Result<Form, AllocError>
    ensures term { IfOk result (λ f. form_of f ≡ plain.act_term (action_of action.now) depth (form_of form.now)) }
    ensures places { IfOk result (λ f. (own : Spots) → places_around own f ≡ places_around own form.now) }
{
    match form {
        Form::Fun(takes, body) => {
            let takes = act_shared_type(alloc, action, depth, takes)?;
            let body = act_node(alloc, action, under(depth)?, body)?;
            Ok(Form::Fun(takes, body))
        }
        Form::TFun(bound, body) => {
            let bound = act_shape(alloc, action, depth, bound)?;
            let body = act_node(alloc, action, under(depth)?, body)?;
            Ok(Form::TFun(bound, body))
        }
        Form::Let(note, right, body) => {
            let note = act_note(alloc, action, depth, note)?;
            let right = act_node(alloc, action, depth, right)?;
            let body = act_node(alloc, action, under(depth)?, body)?;
            Ok(Form::Let(note, right, body))
        }
        Form::If(note, test, positive, negative) => {
            let note = act_note(alloc, action, depth, note)?;
            let positive = act_node(alloc, action, depth, positive)?;
            let negative = act_node(alloc, action, depth, negative)?;
            let test = act_variable(action, depth, *test)?;
            Ok(Form::If(note, test, positive, negative))
        }
        Form::Boundary(gives, body) => {
            let gives = act_shape(alloc, action, depth, gives)?;
            let body = act_node(alloc, action, under(depth)?, body)?;
            Ok(Form::Boundary(gives, body))
        }
        Form::Var(variable) => Ok(Form::Var(act_variable(action, depth, *variable)?)),
        Form::Lit(literal) => Ok(Form::Lit(copy_literal(literal)?)),
        Form::Boxed(content) => Ok(Form::Boxed(act_variable(action, depth, *content)?)),
        Form::App(function, argument) => act_application(action, depth, *function, *argument),
        Form::TApp(function, argument) => {
            act_type_application(alloc, action, depth, *function, argument)
        }
        Form::Unbox(set, content) => act_unboxing(alloc, action, depth, set, *content),
        Form::Prim(operator, left, right) => act_primitive(action, depth, *operator, *left, *right),
        Form::Repeat(count, function) => act_repetition(action, depth, *count, *function),
        Form::Operate(operation, receiver, argument) => {
            act_operation(action, depth, *operation, *receiver, *argument)
        }
        Form::Leave(gives, exit, value) => act_leave(alloc, action, depth, gives, *exit, *value),
    }
}
