//! Well-formedness: whether each variable has its binder or its entry, and is of the kind that its place asks for. Parts
//! that are still to be tested wait in a list, so that a deep type or term takes no more of the stack than a flat one. The
//! tests fail only for want of memory. Sets, and shapes that have no parts, take none.

ghost use Rattle.std.specs.Prelude.{◌≡◌, ◌&&◌, [], ◌∷◌, slice_get, option_map, IfOk, OnOk};
ghost use Rattle.cc_core.specs.Contexts.{lookup};
ghost use Rattle.cc_core.specs.WellFormed as plain;
ghost use Rattle.cc_core.specs.WellFormed.{kinds_of};
ghost use Rattle.cc_core.specs.WaitingTests.{plain_kind, passed_kinds, in_turn, all_well_formed};
ghost use Rattle.cc_core.specs.WaitingTests.{turns, turns_of_note, turns_of_term, IsTested, TakesTurn};
ghost use Rattle.cc_core.specs.declared.wellformed.Waiting.TheVariants.{BinderEnds};
ghost use Rattle.cc_core.specs.TermViews.{shape_of, type_of, note_of, form_of, term_of, bind_of, context_of};

use crate::context::{Bind, Ctx};
use crate::terms::{Form, Node, Note};
use crate::types::{Shape, Ty};
use cc_capture::{CapSet, Elem, Var};
use std::alloc::{AllocError, Global};
use std::rc::Rc;

/// Whether each variable of the type has its entry, of the right kind.
pub fn wf(alloc: Global, ctx: &Ctx, ty: &Ty) -> Result<bool, AllocError>
    ensures { IfOk result (λ w. w ≡ plain.is_well_formed_type (kinds_of (context_of ctx.now)) [] (type_of ty.now)) }
{
    let mut waiting = Vec::new(alloc);
    if !test_type(ctx, &[], &mut waiting, ty)? {
        return Ok(false);
    }
    are_well_formed(alloc, ctx, waiting)
}

/// Whether each variable of the shape has its entry, of the right kind. A shape that has no parts takes no memory.
pub fn wf_shape(alloc: Global, ctx: &Ctx, shape: &Shape) -> Result<bool, AllocError>
    ensures { IfOk result (λ w. w ≡ plain.is_well_formed_shape (kinds_of (context_of ctx.now)) [] (shape_of shape.now)) }
{
    let mut waiting = Vec::new(alloc);
    if !test_shape(ctx, &[], &mut waiting, shape)? {
        return Ok(false);
    }
    are_well_formed(alloc, ctx, waiting)
}

/// Whether each variable of the set has its entry, and is a variable of terms. It takes no memory.
pub fn wf_set(ctx: &Ctx, set: &CapSet) -> bool
    ensures { result ≡ plain.is_well_formed_set (kinds_of (context_of ctx.now)) [] set.now }
{
    is_well_formed_set(ctx, &[], set)
}

/// Whether each variable of the term has its entry, of the right kind, also in the types that are written in the term.
pub fn wf_term(alloc: Global, ctx: &Ctx, node: &Node) -> Result<bool, AllocError>
    ensures { IfOk result (λ w. w ≡ plain.is_well_formed_term (kinds_of (context_of ctx.now)) [] (term_of node.now)) }
{
    let mut waiting = Vec::new(alloc);
    if !test_form(ctx, &[], &mut waiting, &node.form)? {
        return Ok(false);
    }
    are_well_formed(alloc, ctx, waiting)
}

// What a variable stands for: a value, or a shape.
#[derive(Clone, Copy)]
enum Kind {
    Term,
    Shape,
}

// The kind of the binder at an index, the innermost first, which is the last of those passed.
fn binder_kind(passed: &[Kind], index: u32) -> Option<Kind>
    ensures { option_map plain_kind result ≡ slice_get (passed_kinds passed.now) index }
{
    let index = index as usize;
    if index < passed.len() {
        Some(passed[passed.len() - 1 - index])
    } else {
        None
    }
}

fn kind_of(bind: &Bind) -> Kind
    ensures { plain_kind result ≡ plain.kind_of (bind_of bind.now) }
{
    match bind {
        Bind::Var(_) => Kind::Term,
        Bind::TVar(_) => Kind::Shape,
        Bind::Unread { .. } => Kind::Term,
    }
}

fn entry_kind(ctx: &Ctx, position: u32) -> Option<Kind>
    ensures { option_map plain_kind result ≡ lookup (kinds_of (context_of ctx.now)) position }
{
    match ctx.get(position) {
        Some(bind) => Some(kind_of(bind)),
        None => None,
    }
}

fn kind_at(ctx: &Ctx, passed: &[Kind], variable: Var) -> Option<Kind>
    ensures { option_map plain_kind result ≡ plain.kind_at (kinds_of (context_of ctx.now)) (passed_kinds passed.now) variable }
{
    match variable {
        Var::Free(position) => entry_kind(ctx, position),
        Var::Bound(index) => binder_kind(passed, index),
    }
}

fn is_term_variable(ctx: &Ctx, passed: &[Kind], variable: Var) -> bool
    ensures { result ≡ plain.is_term_variable (kinds_of (context_of ctx.now)) (passed_kinds passed.now) variable }
{
    match kind_at(ctx, passed, variable) {
        Some(Kind::Term) => true,
        Some(Kind::Shape) => false,
        None => false,
    }
}

fn is_type_variable(ctx: &Ctx, passed: &[Kind], variable: Var) -> bool
    ensures { result ≡ plain.is_type_variable (kinds_of (context_of ctx.now)) (passed_kinds passed.now) variable }
{
    match kind_at(ctx, passed, variable) {
        Some(Kind::Term) => false,
        Some(Kind::Shape) => true,
        None => false,
    }
}

fn is_well_formed_elem(ctx: &Ctx, passed: &[Kind], elem: Elem) -> bool
    ensures { result ≡ plain.is_well_formed_element (kinds_of (context_of ctx.now)) (passed_kinds passed.now) elem }
{
    match elem {
        Elem::Var(variable) => is_term_variable(ctx, passed, variable),
        Elem::Cap => true,
        Elem::Hole(_) => true,
    }
}

fn is_well_formed_set(ctx: &Ctx, passed: &[Kind], set: &CapSet) -> bool
    ensures { result ≡ plain.is_well_formed_set (kinds_of (context_of ctx.now)) (passed_kinds passed.now) set.now }
{
    for elem in set.iter() {
        if !is_well_formed_elem(ctx, passed, elem) {
            return false;
        }
    }
    true
}

fn is_well_formed_optional_set(ctx: &Ctx, passed: &[Kind], set: &Option<CapSet>) -> bool
    ensures { result ≡ plain.is_well_formed_optional_set (kinds_of (context_of ctx.now)) (passed_kinds passed.now) set.now }
{
    match set {
        Some(set) => is_well_formed_set(ctx, passed, set),
        None => true,
    }
}

fn is_optional_term_variable(ctx: &Ctx, passed: &[Kind], variable: Option<Var>) -> bool
    ensures { result ≡ plain.is_optional_term_variable (kinds_of (context_of ctx.now)) (passed_kinds passed.now) variable }
{
    match variable {
        Some(variable) => is_term_variable(ctx, passed, variable),
        None => true,
    }
}

fn are_term_variables(ctx: &Ctx, passed: &[Kind], first: Var, second: Var) -> bool
    ensures { result ≡ (plain.is_term_variable (kinds_of (context_of ctx.now)) (passed_kinds passed.now) first && plain.is_term_variable (kinds_of (context_of ctx.now)) (passed_kinds passed.now) second) }
{
    is_term_variable(ctx, passed, first) && is_term_variable(ctx, passed, second)
}

// What is still to be tested, under the binders passed when its turn comes.
#[derive(Drop)]
enum Waiting<'a> {
    Type(&'a Rc<Ty>),
    Shape(&'a Rc<Shape>),
    Term(&'a Rc<Node>),
    // A type under one binder more, which ends behind it.
    TypeUnder(Kind, &'a Rc<Ty>),
    // A term under one binder more, which ends behind it.
    TermUnder(Kind, &'a Rc<Node>),
    // Nothing is to be tested, but the innermost binder ends.
    BinderEnds,
}

// Tests a shape. The parts inside it wait.
fn test_shape<'a>(
    ctx: &Ctx,
    passed: &[Kind],
    waiting: &mut Vec<Waiting<'a>>,
    shape: &'a Shape,
) -> Result<bool, AllocError>
    ensures { let kinds = kinds_of (context_of ctx.now) in let passed = passed_kinds passed.now in let s = shape_of shape.now in
        IfOk result (λ fits. IsTested kinds passed (plain.is_well_formed_shape kinds passed s) (turns s) (in_turn waiting.old.items) fits (in_turn waiting.new.items)) }
{
    match shape {
        Shape::Base(_) => Ok(true),
        Shape::Any => Ok(true),
        Shape::TVar(variable) => Ok(is_type_variable(ctx, passed, *variable)),
        Shape::Fun(takes, gives) => {
            waiting.push(Waiting::TypeUnder(Kind::Term, gives))?;
            waiting.push(Waiting::Type(takes))?;
            Ok(true)
        }
        Shape::TFun(bound, gives) => {
            waiting.push(Waiting::TypeUnder(Kind::Shape, gives))?;
            waiting.push(Waiting::Shape(bound))?;
            Ok(true)
        }
        Shape::Boxed(content) => {
            waiting.push(Waiting::Type(content))?;
            Ok(true)
        }
        Shape::Exit(gives) => {
            waiting.push(Waiting::Shape(gives))?;
            Ok(true)
        }
    }
}

// Tests a type. The parts inside its shape wait.
fn test_type<'a>(
    ctx: &Ctx,
    passed: &[Kind],
    waiting: &mut Vec<Waiting<'a>>,
    ty: &'a Ty,
) -> Result<bool, AllocError>
    ensures { let kinds = kinds_of (context_of ctx.now) in let passed = passed_kinds passed.now in let t = type_of ty.now in
        IfOk result (λ fits. IsTested kinds passed (plain.is_well_formed_type kinds passed t) (turns t.shape) (in_turn waiting.old.items) fits (in_turn waiting.new.items)) }
{
    if !is_well_formed_set(ctx, passed, &ty.set) {
        return Ok(false);
    }
    test_shape(ctx, passed, waiting, &ty.shape)
}

// Tests what is written for a type. The parts inside its shape wait.
fn test_note<'a>(
    ctx: &Ctx,
    passed: &[Kind],
    waiting: &mut Vec<Waiting<'a>>,
    note: &'a Note,
) -> Result<bool, AllocError>
    ensures { let kinds = kinds_of (context_of ctx.now) in let passed = passed_kinds passed.now in let n = note_of note.now in
        IfOk result (λ fits. IsTested kinds passed (plain.is_well_formed_note kinds passed n) (turns_of_note n) (in_turn waiting.old.items) fits (in_turn waiting.new.items)) }
{
    match note {
        Note::Absent => Ok(true),
        Note::Written(ty) => test_type(ctx, passed, waiting, ty),
        Note::Own(shape) => test_shape(ctx, passed, waiting, shape),
    }
}

// Tests a form. The terms inside it wait, and so do the parts inside the shapes that are written in it.
fn test_form<'a>(
    ctx: &Ctx,
    passed: &[Kind],
    waiting: &mut Vec<Waiting<'a>>,
    form: &'a Form,
) -> Result<bool, AllocError>
    ensures { let kinds = kinds_of (context_of ctx.now) in let passed = passed_kinds passed.now in let t = form_of form.now in
        IfOk result (λ fits. IsTested kinds passed (plain.is_well_formed_term kinds passed t) (turns_of_term t) (in_turn waiting.old.items) fits (in_turn waiting.new.items)) }
{
    match form {
        Form::Var(variable) => Ok(is_term_variable(ctx, passed, *variable)),
        Form::Lit(_) => Ok(true),
        Form::Fun(takes, body) => {
            waiting.push(Waiting::TermUnder(Kind::Term, body))?;
            test_type(ctx, passed, waiting, takes)
        }
        Form::TFun(bound, body) => {
            waiting.push(Waiting::TermUnder(Kind::Shape, body))?;
            test_shape(ctx, passed, waiting, bound)
        }
        Form::Boxed(content) => Ok(is_term_variable(ctx, passed, *content)),
        Form::App(function, argument) => Ok(are_term_variables(ctx, passed, *function, *argument)),
        Form::TApp(function, argument) => {
            if !is_term_variable(ctx, passed, *function) {
                return Ok(false);
            }
            test_shape(ctx, passed, waiting, argument)
        }
        Form::Unbox(set, content) => {
            let fits = is_well_formed_optional_set(ctx, passed, set);
            Ok(fits && is_term_variable(ctx, passed, *content))
        }
        Form::Let(note, right, body) => {
            waiting.push(Waiting::TermUnder(Kind::Term, body))?;
            waiting.push(Waiting::Term(right))?;
            test_note(ctx, passed, waiting, note)
        }
        Form::Prim(_, left, right) => Ok(are_term_variables(ctx, passed, *left, *right)),
        Form::If(note, test, positive, negative) => {
            if !is_term_variable(ctx, passed, *test) {
                return Ok(false);
            }
            waiting.push(Waiting::Term(negative))?;
            waiting.push(Waiting::Term(positive))?;
            test_note(ctx, passed, waiting, note)
        }
        Form::Repeat(count, function) => Ok(are_term_variables(ctx, passed, *count, *function)),
        Form::Operate(_, receiver, argument) => {
            let fits = is_term_variable(ctx, passed, *receiver);
            Ok(fits && is_optional_term_variable(ctx, passed, *argument))
        }
        Form::Boundary(gives, body) => {
            waiting.push(Waiting::TermUnder(Kind::Term, body))?;
            test_shape(ctx, passed, waiting, gives)
        }
        Form::Leave(gives, exit, value) => {
            if !are_term_variables(ctx, passed, *exit, *value) {
                return Ok(false);
            }
            test_type(ctx, passed, waiting, gives)
        }
    }
}

// Passes a binder, which ends behind all that waits from then on.
fn pass(kind: Kind, passed: &mut Vec<Kind>, waiting: &mut Vec<Waiting>) -> Result<(), AllocError>
    ensures passed { OnOk result (passed_kinds passed.new.items ≡ plain_kind kind ∷ passed_kinds passed.old.items) }
    ensures ends { OnOk result (in_turn waiting.new.items ≡ BinderEnds ∷ in_turn waiting.old.items) }
{
    passed.push(kind)?;
    waiting.push(Waiting::BinderEnds)?;
    Ok(())
}

// Tests what waited last.
fn take_turn<'a>(
    ctx: &Ctx,
    passed: &mut Vec<Kind>,
    waiting: &mut Vec<Waiting<'a>>,
    next: Waiting<'a>,
) -> Result<bool, AllocError>
    ensures { IfOk result (λ fits. TakesTurn (kinds_of (context_of ctx.now)) (passed_kinds passed.old.items) (next.entry ∷ in_turn waiting.old.items) fits (passed_kinds passed.new.items) (in_turn waiting.new.items)) }
{
    match next {
        Waiting::Type(ty) => test_type(ctx, passed, waiting, ty),
        Waiting::Shape(shape) => test_shape(ctx, passed, waiting, shape),
        Waiting::Term(node) => test_form(ctx, passed, waiting, &node.form),
        Waiting::TypeUnder(kind, ty) => {
            pass(kind, passed, waiting)?;
            test_type(ctx, passed, waiting, ty)
        }
        Waiting::TermUnder(kind, node) => {
            pass(kind, passed, waiting)?;
            test_form(ctx, passed, waiting, &node.form)
        }
        Waiting::BinderEnds => {
            passed.pop();
            Ok(true)
        }
    }
}

// Whether all that waits is well formed, under no binder at first.
fn are_well_formed<'a>(
    alloc: Global,
    ctx: &Ctx,
    mut waiting: Vec<Waiting<'a>>,
) -> Result<bool, AllocError>
    ensures { IfOk result (λ w. w ≡ all_well_formed (kinds_of (context_of ctx.now)) [] (in_turn waiting.entry.items)) }
{
    let mut passed = Vec::new(alloc);
    while let Some(next) = waiting.pop() {
        if !take_turn(ctx, &mut passed, &mut waiting, next)? {
            return Ok(false);
        }
    }
    Ok(true)
}
