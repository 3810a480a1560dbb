//! The canonical derivation of a term at a place of a context.

ghost use Rattle.std.specs.Prelude.{◌≡◌, ℕ, ◌≤◌, IfOk};
ghost use Rattle.cc_base.specs.Literals.{literal_of};
ghost use Rattle.cc_core.specs.Captured.{optional_set};
ghost use Rattle.cc_core.specs.Derivations as derivations;
ghost use Rattle.cc_core.specs.Typing as typing;
ghost use Rattle.cc_core.specs.TermViews.{term_of, context_of};
ghost use Rattle.cc_checking.specs.CanonicalDerivations as plain;
ghost use Rattle.cc_checking.specs.Inference.{base_type, set_in};
ghost use Rattle.cc_derive.specs.Typings.{IsTyping};

use crate::bases::{
    base_of, base_type, in_context, set_in, shape_in, type_in, with_exit, with_type_variable,
    with_variable,
};
use crate::ends::{boundary_end, choice, function_end, let_end, noted, type_function_end};
use crate::nodes::{Typing, leaf};
use crate::variables::variable;
use crate::{Making, rows};
use cc_base::literal::Lit;
use cc_capture::{CapSet, Var};
use cc_captured::captured::cv;
use cc_core::{Ctx, Form, Node};
use cc_derivation::Rule;
use std::alloc::{AllocError, Global};
use std::rc::Rc;

// A literal.
fn literal(alloc: Global, build: Making, literal: &Lit) -> Result<Typing, AllocError>
    ensures { IfOk result (λ t. IsTyping build t
        (derivations.Node derivations.t-lit derivations.NoPremise
        (derivations.OfType (base_type (typing.base_of (literal_of literal.now)))))) }
{
    let ty = base_type(alloc, base_of(literal))?;
    leaf(alloc, build, Rule::Literal, ty)
}

// The set of an unboxing as it stands in the context, nothing where it is omitted.
fn opening_set(alloc: Global, ctx: &Ctx, set: &Option<CapSet>) -> Result<CapSet, AllocError>
    ensures { IfOk result (λ s. s ≡ set_in (context_of ctx.now) (optional_set set.now)) }
{
    match set {
        Some(set) => set_in(alloc, ctx, set),
        None => set_in(alloc, ctx, &CapSet::new(alloc)),
    }
}

// An argument as it stands in the context.
fn argument_in(ctx: &Ctx, argument: Option<Var>) -> Option<Var>
    ensures { result ≡ plain.argument_in (context_of ctx.now) argument }
{
    match argument {
        Some(variable) => Some(in_context(ctx, variable)),
        None => None,
    }
}

/// The canonical derivation of a term that has all its sets, built or counted alone.
#[cycle(terms)]
pub(crate) fn derive_term(
    alloc: Global,
    build: Making,
    ctx: &Ctx,
    node: &Rc<Node>,
) -> Result<Typing, AllocError>
    ensures { IfOk result (λ t. (m : ℕ) → 4294967295 ≤ m
        → IsTyping build t (plain.term_derived (plain.shape_derived m) (context_of ctx.now)
        (term_of node.now.value))) }
{
    let typing = derive_form(alloc, build, ctx, node)?;
    Ok(typing)
}

#[cycle(terms)]
fn derive_form(
    alloc: Global,
    build: Making,
    ctx: &Ctx,
    node: &Rc<Node>,
) -> Result<Typing, AllocError>
    ensures { IfOk result (λ t. (m : ℕ) → 4294967295 ≤ m
        → IsTyping build t (plain.term_derived (plain.shape_derived m) (context_of ctx.now)
        (term_of node.now.value))) }
{
    match &node.form {
        Form::Var(name) => {
            let seen = in_context(ctx, *name);
            variable(alloc, build, ctx, seen)
        }
        Form::Lit(value) => literal(alloc, build, value),
        Form::Fun(takes, body) => {
            let read = type_in(alloc, ctx, takes)?;
            let inner = with_variable(alloc, ctx, &read)?;
            let part = derive_term(alloc, build, &inner, body)?;
            let captured = cv(alloc, node)?;
            function_end(alloc, build, ctx, read, &captured, part)
        }
        Form::TFun(bound, body) => {
            let read = shape_in(alloc, ctx, bound)?;
            let inner = with_type_variable(alloc, ctx, &read)?;
            let part = derive_term(alloc, build, &inner, body)?;
            let captured = cv(alloc, node)?;
            type_function_end(alloc, build, ctx, read, &captured, part)
        }
        Form::Boxed(content) => {
            let inside = in_context(ctx, *content);
            rows::boxed(alloc, build, ctx, inside)
        }
        Form::App(function, argument) => {
            let applied = in_context(ctx, *function);
            let given = in_context(ctx, *argument);
            rows::application(alloc, build, ctx, applied, given)
        }
        Form::TApp(function, argument) => {
            let read = shape_in(alloc, ctx, argument)?;
            let head = in_context(ctx, *function);
            rows::type_application(alloc, build, ctx, head, &read)
        }
        Form::Unbox(set, content) => {
            let under = opening_set(alloc, ctx, set)?;
            let opened = in_context(ctx, *content);
            rows::unboxing(alloc, build, ctx, under, opened)
        }
        Form::Let(note, right, body) => {
            let found = derive_term(alloc, build, ctx, right)?;
            let named = noted(alloc, build, ctx, note, found)?;
            let inner = with_variable(alloc, ctx, &named.ty)?;
            let part = derive_term(alloc, build, &inner, body)?;
            let_end(alloc, build, ctx, &inner, named, part)
        }
        Form::Prim(operator, left, right) => {
            let one = in_context(ctx, *left);
            let other = in_context(ctx, *right);
            rows::primitive(alloc, build, ctx, *operator, one, other)
        }
        Form::If(note, test, positive, negative) => {
            let tested = in_context(ctx, *test);
            let first = derive_term(alloc, build, ctx, positive)?;
            let second = derive_term(alloc, build, ctx, negative)?;
            choice(alloc, build, ctx, note, tested, first, second)
        }
        Form::Repeat(count, function) => {
            let times = in_context(ctx, *count);
            let repeated = in_context(ctx, *function);
            rows::repetition(alloc, build, ctx, times, repeated)
        }
        Form::Operate(operation, device, argument) => {
            let receiver = in_context(ctx, *device);
            let taken = argument_in(ctx, *argument);
            rows::operation(alloc, build, ctx, *operation, receiver, taken)
        }
        Form::Boundary(gives, body) => {
            let read = shape_in(alloc, ctx, gives)?;
            let inner = with_exit(alloc, ctx, &read)?;
            let part = derive_term(alloc, build, &inner, body)?;
            boundary_end(alloc, build, ctx, &inner, read, part)
        }
        Form::Leave(gives, exit, value) => {
            let read = type_in(alloc, ctx, gives)?;
            let left = in_context(ctx, *exit);
            let handed = in_context(ctx, *value);
            rows::leave(alloc, build, ctx, read, left, handed)
        }
    }
}
