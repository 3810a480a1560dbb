//! Operands, and the constructs that they stand in.

ghost use Rattle.std.specs.Prelude.{◌≡◌, IfOk, option_map};
ghost use Rattle.cc_core.specs.Places.{spots_at, places_around};
ghost use Rattle.cc_core.specs.TermViews.{form_of};
ghost use Rattle.cc_mnf.specs.Elaboration as elaboration;
ghost use Rattle.cc_mnf.specs.Operands as plain;
ghost use Rattle.cc_mnf.specs.OperandViews.{name_seen, operand_seen, placed_of};
ghost use Rattle.cc_mnf.specs.ScopeViews.{scope_of};
ghost use Rattle.cc_parse.specs.Trees.{expr_syntax, shape_syntax};

use crate::scope::{Binder, Scope};
use cc_base::name::Name;
use cc_base::place::Place;
use cc_capture::Var;
use cc_core::{Form, Node, Note};
use cc_parse::tree::{ExprForm, ExprTree, ShapeForm, ShapeTree};
use std::alloc::{AllocError, Global};
use std::rc::Rc;

/// An operand of a construct.
#[derive(Drop)]
pub enum Operand {
    /// A name, which is this variable.
    Variable(Var),
    /// A term that will be named, with the place where it starts.
    Named(Rc<Node>, Place),
}

/// Where an expression starts.
pub fn start(expr: &ExprTree) -> Place
    ensures { result ≡ plain.start (expr_syntax expr.now) }
{
    match &expr.form {
        ExprForm::Val(_, _, _, _) => expr.at,
        ExprForm::Fun(_, _, _) => expr.at,
        ExprForm::TFun(_, _, _) => expr.at,
        ExprForm::If(_, _, _, _) => expr.at,
        ExprForm::Boundary(_, _, _) => expr.at,
        ExprForm::Prim(_, _, _) => expr.at,
        ExprForm::Boxed(_) => expr.at,
        ExprForm::Unbox(_, _) => expr.at,
        ExprForm::App(_, _) => expr.at,
        ExprForm::TApp(_, _) => expr.at,
        ExprForm::Operate(_, _, argument) => match argument {
            Some(_) => expr.at,
            None => expr.at,
        },
        ExprForm::Name(_) => expr.at,
        ExprForm::Lit(_) => expr.at,
        ExprForm::Paren(_) => expr.at,
        ExprForm::Leave(_, _, _) => expr.at,
        ExprForm::Repeat(_, _) => expr.at,
    }
}

/// Where a shape starts.
pub fn shape_start(shape: &ShapeTree) -> Place
    ensures { result ≡ elaboration.shape_start (shape_syntax shape.now) }
{
    match &shape.form {
        ShapeForm::Base(_) => shape.at,
        ShapeForm::Any => shape.at,
        ShapeForm::Name(_) => shape.at,
        ShapeForm::Exit(_) => shape.at,
        ShapeForm::Boxed(_) => shape.at,
        ShapeForm::Paren(_) => shape.at,
        ShapeForm::Fun(_, _, _) => shape.at,
        ShapeForm::TFun(_, _, _) => shape.at,
    }
}

/// A name at its place.
#[derive(Clone, Copy)]
pub struct NameAt<'a> {
    pub at: Place,
    pub name: &'a Name,
}

/// The name that an expression is, perhaps in parentheses.
pub fn name_of(expr: &ExprTree) -> Option<NameAt<'_>>
    ensures { option_map name_seen result ≡ plain.name_of (expr_syntax expr.now) }
{
    match &expr.form {
        ExprForm::Name(name) => Some(NameAt { at: expr.at, name }),
        ExprForm::Paren(inner) => name_of(inner),
        ExprForm::Operate(_, _, argument) => match argument {
            Some(_) => None,
            None => None,
        },
        _ => None,
    }
}

/// The scope of what stands behind an operand in its construct.
pub fn behind<'a>(scope: &'a Scope<'a>, operand: &ExprTree) -> Scope<'a>
    ensures { scope_of result ≡ plain.behind (plain.name_of (expr_syntax operand.now)) (scope_of scope.now) }
{
    match name_of(operand) {
        Some(_) => *scope,
        None => Scope::Under(Binder::Unnamed, scope),
    }
}

/// The variable that stands for the operand in its construct.
pub fn variable_of(operand: &Operand) -> Var
    ensures { result ≡ plain.variable_of (operand_seen operand.now) }
{
    match operand {
        Operand::Variable(variable) => *variable,
        Operand::Named(_, _) => Var::Bound(0),
    }
}

/// The variable of an operand before, where this operand follows it. Fails where an index is beyond 2^32 - 1.
pub fn past(operand: &Operand, before: Var) -> Result<Var, AllocError>
    ensures { IfOk result (λ v. v ≡ plain.past (operand_seen operand.now) before) }
{
    match operand {
        Operand::Variable(_) => Ok(before),
        Operand::Named(_, _) => match before {
            Var::Bound(index) => Ok(Var::Bound(index.checked_add(1).ok_or(AllocError)?)),
            Var::Free(_) => Ok(before),
        },
    }
}

/// The term at its places.
pub fn node(
    alloc: Global,
    form: Form,
    at: Place,
    first: Place,
    second: Place,
) -> Result<Rc<Node>, AllocError>
    ensures { IfOk result (λ n. placed_of n.value ≡ plain.placed (form_of form) (places_around (spots_at at first second) form)) }
{
    let node = Node {
        form,
        at,
        first,
        second,
    };
    Ok(Rc::new(alloc, node)?)
}

/// The construct that starts at the place, under the `let` of its operand, if that is to be named.
pub fn named(
    alloc: Global,
    at: Place,
    operand: Operand,
    construct: Rc<Node>,
) -> Result<Rc<Node>, AllocError>
    ensures { IfOk result (λ n. placed_of n.value ≡ plain.named at (operand_seen operand) (placed_of construct.value)) }
{
    match operand {
        Operand::Variable(_) => Ok(construct),
        Operand::Named(term, from) => {
            node(
                alloc,
                Form::Let(Note::Absent, term, construct),
                at,
                from,
                at,
            )
        }
    }
}

/// The construct of one operand, whose variable the form has.
pub fn with_operand(
    alloc: Global,
    only: Operand,
    form: Form,
    at: Place,
    first: Place,
    second: Place,
) -> Result<Rc<Node>, AllocError>
    ensures { IfOk result (λ n. placed_of n.value ≡ plain.named at (operand_seen only) (plain.placed (form_of form) (places_around (spots_at at first second) form))) }
{
    let construct = node(alloc, form, at, first, second)?;
    named(alloc, at, only, construct)
}

/// The construct of two operands, in this order, whose variables the form has.
pub fn with_operands(
    alloc: Global,
    one: Operand,
    other: Operand,
    form: Form,
    at: Place,
    first: Place,
    second: Place,
) -> Result<Rc<Node>, AllocError>
    ensures { IfOk result (λ n. placed_of n.value ≡ plain.named at (operand_seen one) (plain.named at (operand_seen other) (plain.placed (form_of form) (places_around (spots_at at first second) form)))) }
{
    let construct = with_operand(alloc, other, form, at, first, second)?;
    named(alloc, at, one, construct)
}
