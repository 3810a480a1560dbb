//! Whether a typing is an instance of its rule.

ghost use Rattle.std.specs.Prelude.{◌≡◌, Some, option_map, IfOk};
ghost use Rattle.cc_base.specs.Literals.{literal_of};
ghost use Rattle.cc_core.specs.Captured.{captured_variables};
ghost use Rattle.cc_core.specs.Reading as reading;
ghost use Rattle.cc_core.specs.Reading.{read_shape, read_type, read_term};
ghost use Rattle.cc_core.specs.Shapes.{capturing};
ghost use Rattle.cc_core.specs.Terms.{FunctionTerm, TypeFunctionTerm};
ghost use Rattle.cc_core.specs.Traversal.{act_note, act_term};
ghost use Rattle.cc_core.specs.Typing as typing;
ghost use Rattle.cc_core.specs.TermViews.{shape_of, type_of, note_of, term_of, form_of, context_of};
ghost use Rattle.cc_derivation.specs.DerivationViews.{rule_of, premises_of};
ghost use Rattle.cc_validity.specs.ClaimedPremises.{instance_of};
ghost use Rattle.cc_derivation.specs.Broken.{claims_of};
ghost use Rattle.cc_derivation.specs.Rows as plain;

use crate::captures::{KnownTerm, captured_by};
use crate::claims::{one_type, three_types, two_types, type_and_shapes, type_and_types};
use crate::given;
use crate::side::{base_given, base_of, base_type};
use cc_base::literal::{Lit, Op, Operator};
use cc_capture::{CapSet, Var};
use cc_core::acting::{Action, read_variable};
use cc_core::acting_terms::act_note;
use cc_core::reading::{read_set, read_shape, read_type};
use cc_core::same::same_type;
use cc_core::{Ctx, Form, Node, Note, Shape, Ty};
use cc_derivation::{Premises, Rule};
use std::alloc::{AllocError, Global};
use std::rc::Rc;

// Whether the type is the one that is given.
fn is_given(ty: &Ty, given: &Option<Ty>) -> bool
    ensures { result ≡ plain.is_given (type_of ty.now) (option_map type_of given.now) }
{
    match given {
        Some(given) => same_type(given, ty),
        None => false,
    }
}

fn variable(alloc: Global, ctx: &Ctx, variable: Var, ty: &Ty) -> Result<bool, AllocError>
    ensures { IfOk result (λ b. b ≡ plain.is_given (type_of ty.now) (plain.variable_given variable (plain.entry_at (context_of ctx.now) variable))) }
{
    let given = given::variable_given(alloc, ctx, variable)?;
    Ok(is_given(ty, &given))
}

fn literal(alloc: Global, literal: &Lit, ty: &Ty) -> Result<bool, AllocError>
    ensures { IfOk result (λ b. b ≡ plain.is_given (type_of ty.now) (Some (plain.base_type (typing.base_of (literal_of literal.now))))) }
{
    let given = base_type(alloc, base_of(literal))?;
    Ok(same_type(&given, ty))
}

fn application(
    alloc: Global,
    argument: Var,
    premises: &Premises,
    ty: &Ty,
) -> Result<bool, AllocError>
    ensures { IfOk result (λ b. b ≡ plain.is_given (type_of ty.now) (plain.of_two (λ head given. plain.application_given argument head.shape given) (claims_of (premises_of premises.now)))) }
{
    match two_types(premises) {
        Some((head, given)) => {
            let result = given::application_given(alloc, argument, &head.shape, given)?;
            Ok(is_given(ty, &result))
        }
        None => Ok(false),
    }
}

// What the term captures, as it is read among so many entries.
fn captured(alloc: Global, term: &KnownTerm, entries: u32) -> Result<CapSet, AllocError>
    ensures { IfOk result (λ s. s ≡ captured_variables (read_term entries (term_of term.now.node.value))) }
{
    let captured = captured_by(alloc, term)?;
    read_set(alloc, &captured, entries)
}

fn function(
    alloc: Global,
    ctx: &Ctx,
    term: &KnownTerm,
    takes: &Rc<Ty>,
    body: &Rc<Node>,
    entries: u32,
    premises: &Premises,
    ty: &Ty,
) -> Result<bool, AllocError>
    requires { term_of term.now.node.value ≡ FunctionTerm (type_of takes.now.value).shape (type_of takes.now.value).set (term_of body.now.value) }
    ensures { IfOk result (λ b. b ≡ plain.is_given (type_of ty.now) (plain.of_one (plain.function_given (context_of ctx.now) (read_type entries (type_of takes.now.value)).shape (read_type entries (type_of takes.now.value)).set (act_term (reading.reading entries) 1 (term_of body.now.value))) (claims_of (premises_of premises.now)))) }
{
    match one_type(premises) {
        Some(gives) => {
            let taken = read_type(alloc, takes, entries)?;
            let set = captured(alloc, term, entries)?;
            let result = given::function_given(alloc, ctx, taken, set, gives)?;
            Ok(is_given(ty, &result))
        }
        None => Ok(false),
    }
}

fn type_function(
    alloc: Global,
    ctx: &Ctx,
    term: &KnownTerm,
    bound: &Rc<Shape>,
    body: &Rc<Node>,
    entries: u32,
    premises: &Premises,
    ty: &Ty,
) -> Result<bool, AllocError>
    requires { term_of term.now.node.value ≡ TypeFunctionTerm (shape_of bound.now.value) (term_of body.now.value) }
    ensures { IfOk result (λ b. b ≡ plain.is_given (type_of ty.now) (plain.of_one (plain.type_function_given (context_of ctx.now) (read_shape entries (shape_of bound.now.value)) (act_term (reading.reading entries) 1 (term_of body.now.value))) (claims_of (premises_of premises.now)))) }
{
    match one_type(premises) {
        Some(gives) => {
            let limit = read_shape(alloc, bound, entries)?;
            let set = captured(alloc, term, entries)?;
            let result = given::type_function_given(alloc, ctx, limit, set, gives)?;
            Ok(is_given(ty, &result))
        }
        None => Ok(false),
    }
}

fn type_application(
    alloc: Global,
    ctx: &Ctx,
    argument: &Rc<Shape>,
    entries: u32,
    premises: &Premises,
    ty: &Ty,
) -> Result<bool, AllocError>
    ensures { IfOk result (λ b. b ≡ plain.is_given (type_of ty.now) (plain.of_type_and_shapes (λ head left right. plain.type_application_given (context_of ctx.now) (read_shape entries (shape_of argument.now.value)) head.shape left right) (claims_of (premises_of premises.now)))) }
{
    match type_and_shapes(premises) {
        Some((head, left, right)) => {
            let argument = read_shape(alloc, argument, entries)?;
            let result = given::type_application_given(
                alloc,
                ctx,
                &argument,
                &head.shape,
                left,
                right,
            )?;
            Ok(is_given(ty, &result))
        }
        None => Ok(false),
    }
}

fn boxed(alloc: Global, premises: &Premises, ty: &Ty) -> Result<bool, AllocError>
    ensures { IfOk result (λ b. b ≡ plain.is_given (type_of ty.now) (plain.of_one plain.box_given (claims_of (premises_of premises.now)))) }
{
    match one_type(premises) {
        Some(content) => {
            let result = given::box_given(alloc, content)?;
            Ok(is_given(ty, &result))
        }
        None => Ok(false),
    }
}

fn unboxing(
    alloc: Global,
    ctx: &Ctx,
    set: &CapSet,
    entries: u32,
    premises: &Premises,
    ty: &Ty,
) -> Result<bool, AllocError>
    ensures { IfOk result (λ b. b ≡ plain.is_given (type_of ty.now) (plain.of_one (λ head. plain.unboxing_given (context_of ctx.now) (reading.read_set entries set.now) head.shape) (claims_of (premises_of premises.now)))) }
{
    match one_type(premises) {
        Some(head) => {
            let set = read_set(alloc, set, entries)?;
            let result = given::unboxing_given(ctx, &set, &head.shape)?;
            Ok(is_given(ty, &result))
        }
        None => Ok(false),
    }
}

fn named(
    alloc: Global,
    ctx: &Ctx,
    note: &Note,
    entries: u32,
    premises: &Premises,
    ty: &Ty,
) -> Result<bool, AllocError>
    ensures { IfOk result (λ b. b ≡ plain.is_given (type_of ty.now) (plain.of_two (plain.let_given (context_of ctx.now) (act_note (reading.reading entries) 0 (note_of note.now))) (claims_of (premises_of premises.now)))) }
{
    match two_types(premises) {
        Some((bound, body)) => {
            let note = act_note(alloc, &Action::Read(entries), 0, note)?;
            let result = given::let_given(ctx, &note, bound, body)?;
            Ok(is_given(ty, &result))
        }
        None => Ok(false),
    }
}

fn primitive(
    alloc: Global,
    operator: Operator,
    premises: &Premises,
    ty: &Ty,
) -> Result<bool, AllocError>
    ensures { IfOk result (λ b. b ≡ plain.is_given (type_of ty.now) (plain.of_two (λ first second. plain.primitive_given (typing.base_given operator) first.shape second.shape) (claims_of (premises_of premises.now)))) }
{
    match two_types(premises) {
        Some((left, right)) => {
            let result = given::primitive_given(
                alloc,
                base_given(operator),
                &left.shape,
                &right.shape,
            )?;
            Ok(is_given(ty, &result))
        }
        None => Ok(false),
    }
}

fn choice(
    alloc: Global,
    written: &Ty,
    entries: u32,
    premises: &Premises,
    ty: &Ty,
) -> Result<bool, AllocError>
    ensures { IfOk result (λ b. b ≡ plain.is_given (type_of ty.now) (plain.of_three (λ head first second. plain.choice_given (read_type entries (type_of written.now)) head.shape first second) (claims_of (premises_of premises.now)))) }
{
    match three_types(premises) {
        Some((test, positive, negative)) => {
            let written = read_type(alloc, written, entries)?;
            let result = given::choice_given(&written, &test.shape, positive, negative)?;
            Ok(is_given(ty, &result))
        }
        None => Ok(false),
    }
}

fn repetition(alloc: Global, premises: &Premises, ty: &Ty) -> Result<bool, AllocError>
    ensures { IfOk result (λ b. b ≡ plain.is_given (type_of ty.now) (plain.of_two (λ first second. plain.repetition_given first.shape second.shape) (claims_of (premises_of premises.now)))) }
{
    match two_types(premises) {
        Some((count, function)) => {
            let result = given::repetition_given(alloc, &count.shape, &function.shape)?;
            Ok(is_given(ty, &result))
        }
        None => Ok(false),
    }
}

fn operation(alloc: Global, operation: Op, premises: &Premises, ty: &Ty) -> Result<bool, AllocError>
    ensures { IfOk result (λ b. b ≡ plain.is_given (type_of ty.now) (plain.of_two (λ head given. plain.operation_given operation head.shape given.shape) (claims_of (premises_of premises.now)))) }
{
    match two_types(premises) {
        Some((receiver, argument)) => {
            let result = given::operation_given(
                alloc,
                operation,
                &receiver.shape,
                &argument.shape,
            )?;
            Ok(is_given(ty, &result))
        }
        None => Ok(false),
    }
}

fn lone_operation(
    alloc: Global,
    operation: Op,
    premises: &Premises,
    ty: &Ty,
) -> Result<bool, AllocError>
    ensures { IfOk result (λ b. b ≡ plain.is_given (type_of ty.now) (plain.of_one (λ head. plain.lone_operation_given operation head.shape) (claims_of (premises_of premises.now)))) }
{
    match one_type(premises) {
        Some(receiver) => {
            let result = given::lone_operation_given(alloc, operation, &receiver.shape)?;
            Ok(is_given(ty, &result))
        }
        None => Ok(false),
    }
}

fn boundary(
    alloc: Global,
    ctx: &Ctx,
    gives: &Rc<Shape>,
    entries: u32,
    premises: &Premises,
    ty: &Ty,
) -> Result<bool, AllocError>
    ensures { IfOk result (λ b. b ≡ plain.is_given (type_of ty.now) (plain.of_one (plain.boundary_given (context_of ctx.now) (read_shape entries (shape_of gives.now.value))) (claims_of (premises_of premises.now)))) }
{
    match one_type(premises) {
        Some(inner) => {
            let gives = read_shape(alloc, gives, entries)?;
            let result = given::boundary_given(alloc, ctx, &gives, inner)?;
            Ok(is_given(ty, &result))
        }
        None => Ok(false),
    }
}

fn exit(
    alloc: Global,
    ctx: &Ctx,
    gives: &Ty,
    entries: u32,
    premises: &Premises,
    ty: &Ty,
) -> Result<bool, AllocError>
    ensures { IfOk result (λ b. b ≡ plain.is_given (type_of ty.now) (plain.of_two (λ head given. plain.exit_given (context_of ctx.now) (read_type entries (type_of gives.now)) head.shape given) (claims_of (premises_of premises.now)))) }
{
    match two_types(premises) {
        Some((exit, value)) => {
            let gives = read_type(alloc, gives, entries)?;
            let result = given::exit_given(alloc, ctx, &gives, &exit.shape, value)?;
            Ok(is_given(ty, &result))
        }
        None => Ok(false),
    }
}

fn subsumption(alloc: Global, ctx: &Ctx, premises: &Premises, ty: &Ty) -> Result<bool, AllocError>
    ensures { IfOk result (λ b. b ≡ plain.is_given (type_of ty.now) (plain.of_type_and_types (plain.widened (context_of ctx.now)) (claims_of (premises_of premises.now)))) }
{
    match type_and_types(premises) {
        Some((found, lower, upper)) => {
            let result = given::widened(alloc, ctx, found, lower, upper)?;
            Ok(is_given(ty, &result))
        }
        None => Ok(false),
    }
}

/// Whether a node of a typing of the term, as it is read among so many entries, by the rule and with these premises, is
/// an instance of its rule where it claims the type. It is none where the rule is not one for the term.
///
/// Fails only for want of memory.
pub fn typing_instance(
    alloc: Global,
    ctx: &Ctx,
    term: &KnownTerm,
    entries: u32,
    rule: Rule,
    premises: &Premises,
    ty: &Ty,
) -> Result<bool, AllocError>
    ensures { IfOk result (λ b. b ≡ instance_of (plain.typing_row (context_of ctx.now) (rule_of rule) (read_term entries (term_of term.now.node.value)) (type_of ty.now)) (claims_of (premises_of premises.now))) }
{
    let node = &term.node;
    match rule {
        Rule::Variable => match &node.form {
            Form::Var(name) => variable(alloc, ctx, read_variable(entries, 0, *name), ty),
            _ => Ok(false),
        },
        Rule::Literal => match &node.form {
            Form::Lit(value) => literal(alloc, value, ty),
            _ => Ok(false),
        },
        Rule::Function => match &node.form {
            Form::Fun(takes, body) => function(
                alloc, ctx, term, takes, body, entries, premises, ty,
            ),
            _ => Ok(false),
        },
        Rule::TypeFunction => match &node.form {
            Form::TFun(bound, body) => type_function(
                alloc, ctx, term, bound, body, entries, premises, ty,
            ),
            _ => Ok(false),
        },
        Rule::Application => match &node.form {
            Form::App(_, argument) => application(
                alloc,
                read_variable(entries, 0, *argument),
                premises,
                ty,
            ),
            _ => Ok(false),
        },
        Rule::TypeApplication => match &node.form {
            Form::TApp(_, argument) => type_application(
                alloc, ctx, argument, entries, premises, ty,
            ),
            _ => Ok(false),
        },
        Rule::Boxing => match &node.form {
            Form::Boxed(_) => boxed(alloc, premises, ty),
            _ => Ok(false),
        },
        Rule::Unboxing => match &node.form {
            Form::Unbox(set, _) => match set {
                Some(set) => unboxing(alloc, ctx, set, entries, premises, ty),
                None => Ok(false),
            },
            _ => Ok(false),
        },
        Rule::Let => match &node.form {
            Form::Let(note, _, _) => named(alloc, ctx, note, entries, premises, ty),
            _ => Ok(false),
        },
        Rule::Primitive => match &node.form {
            Form::Prim(operator, _, _) => primitive(alloc, *operator, premises, ty),
            _ => Ok(false),
        },
        Rule::Choice => match &node.form {
            Form::If(note, _, _, _) => match note {
                Note::Written(written) => choice(alloc, written, entries, premises, ty),
                _ => Ok(false),
            },
            _ => Ok(false),
        },
        Rule::Repetition => match &node.form {
            Form::Repeat(_, _) => repetition(alloc, premises, ty),
            _ => Ok(false),
        },
        Rule::Operation => match &node.form {
            Form::Operate(op, _, argument) => match argument {
                Some(_) => operation(alloc, *op, premises, ty),
                None => lone_operation(alloc, *op, premises, ty),
            },
            _ => Ok(false),
        },
        Rule::Boundary => match &node.form {
            Form::Boundary(gives, _) => boundary(alloc, ctx, gives, entries, premises, ty),
            _ => Ok(false),
        },
        Rule::Exit => match &node.form {
            Form::Leave(gives, _, _) => exit(alloc, ctx, gives, entries, premises, ty),
            _ => Ok(false),
        },
        Rule::Subsumption => subsumption(alloc, ctx, premises, ty),
        _ => Ok(false),
    }
}
