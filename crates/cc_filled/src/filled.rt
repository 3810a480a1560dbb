//! Whether a term is another one with its omitted sets filled in. The tests take no memory.

ghost use Rattle.std.specs.Prelude.{◌≡◌};
ghost use Rattle.std.specs.Str.{chars, bytes_eq};
ghost use Rattle.cc_base.specs.Literals.{literal_of};
ghost use Rattle.cc_core.specs.TermViews.{note_of, form_of, term_of};
ghost use Rattle.cc_filled.specs.FilledTests as plain;

use cc_base::literal::{Lit, Op, Operator};
use cc_capture::var::same_var;
use cc_capture::{CapSet, Var};
use cc_core::occurrences::set_has_hole;
use cc_core::same::{same_shape, same_type};
use cc_core::{Form, Node, Note};

// Whether two literals are one.
fn same_literal(literal: &Lit, other: &Lit) -> bool
    ensures { result ≡ plain.same_literal (literal_of literal.now) (literal_of other.now) }
{
    match literal {
        Lit::Unit => match other {
            Lit::Unit => true,
            _ => false,
        },
        Lit::Bool(truth) => match other {
            Lit::Bool(other_truth) => *truth == *other_truth,
            _ => false,
        },
        Lit::Int(number) => match other {
            Lit::Int(other_number) => *number == *other_number,
            _ => false,
        },
        Lit::Str(text) => match other {
            Lit::Str(other_text) => same_text(text.as_str(), other_text.as_str()),
            _ => false,
        },
    }
}

// Whether two texts are one, by their characters.
fn same_text(text: &str, other: &str) -> bool
    ensures { result ≡ bytes_eq (chars text.now) (chars other.now) }
{
    text == other
}

// A number for each operator.
fn operator_number(operator: Operator) -> u32
    ensures { result ≡ plain.operator_number operator }
{
    match operator {
        Operator::Add => 0,
        Operator::Sub => 1,
        Operator::Mul => 2,
        Operator::Less => 3,
        Operator::Equal => 4,
    }
}

// A number for each operation.
fn operation_number(operation: Op) -> u32
    ensures { result ≡ plain.operation_number operation }
{
    match operation {
        Op::Print => 0,
        Op::Say => 1,
        Op::Read => 2,
        Op::Write => 3,
        Op::Tick => 4,
    }
}

// Whether two arguments are one, where there are any.
fn same_argument(argument: Option<Var>, other: Option<Var>) -> bool
    ensures { result ≡ plain.same_argument argument other }
{
    match argument {
        None => match other {
            None => true,
            Some(_) => false,
        },
        Some(variable) => match other {
            None => false,
            Some(other_variable) => same_var(variable, other_variable),
        },
    }
}

// Whether the set is omitted.
fn is_omitted(set: &CapSet) -> bool
    ensures { result ≡ plain.is_omitted set.now }
{
    set_has_hole(set)
}

// Whether the second set may stand for the first.
fn fills_set(written: &CapSet, set: &CapSet) -> bool
    ensures { result ≡ plain.fills_set written.now set.now }
{
    is_omitted(written) || *written == *set
}

// The same of the set under which a box is opened.
fn fills_opened_set(written: &Option<CapSet>, opened: &Option<CapSet>) -> bool
    ensures { result ≡ plain.fills_opened_set written.now opened.now }
{
    match opened {
        None => false,
        Some(set) => match written {
            None => true,
            Some(other) => *other == *set,
        },
    }
}

// Whether the second note may stand for the first.
fn fills_note(written: &Note, note: &Note) -> bool
    ensures { result ≡ plain.fills_note (note_of written.now) (note_of note.now) }
{
    match written {
        Note::Absent => match note {
            Note::Absent => true,
            _ => false,
        },
        Note::Written(ty) => match note {
            Note::Written(other) => same_type(ty, other),
            _ => false,
        },
        Note::Own(shape) => match note {
            Note::Written(other) => same_shape(shape, &other.shape),
            _ => false,
        },
    }
}

// The same of the forms of terms.
fn form_is_filled_as(written: &Form, filled: &Form) -> bool
    ensures { result ≡ plain.is_filled_as (form_of written.now) (form_of filled.now) }
{
    match written {
        Form::Var(variable) => match filled {
            Form::Var(other) => same_var(*variable, *other),
            _ => false,
        },
        Form::Lit(literal) => match filled {
            Form::Lit(other) => same_literal(literal, other),
            _ => false,
        },
        Form::Fun(takes, body) => match filled {
            Form::Fun(other_takes, other_body) => same_shape(&takes.shape, &other_takes.shape)
                && fills_set(&takes.set, &other_takes.set)
                && form_is_filled_as(&body.form, &other_body.form),
            _ => false,
        },
        Form::TFun(bound, body) => match filled {
            Form::TFun(other_bound, other_body) => same_shape(bound, other_bound)
                && form_is_filled_as(&body.form, &other_body.form),
            _ => false,
        },
        Form::Boxed(content) => match filled {
            Form::Boxed(other) => same_var(*content, *other),
            _ => false,
        },
        Form::App(function, argument) => match filled {
            Form::App(other_function, other_argument) => same_var(*function, *other_function)
                && same_var(*argument, *other_argument),
            _ => false,
        },
        Form::TApp(function, argument) => match filled {
            Form::TApp(other_function, other_argument) => same_var(*function, *other_function)
                && same_shape(argument, other_argument),
            _ => false,
        },
        Form::Unbox(set, content) => match filled {
            Form::Unbox(other_set, other_content) => fills_opened_set(set, other_set)
                && same_var(*content, *other_content),
            _ => false,
        },
        Form::Let(note, right, body) => match filled {
            Form::Let(other_note, other_right, other_body) => fills_note(note, other_note)
                && form_is_filled_as(&right.form, &other_right.form)
                && form_is_filled_as(&body.form, &other_body.form),
            _ => false,
        },
        Form::Prim(operator, left, right) => match filled {
            Form::Prim(other_operator, other_left, other_right) => operator_number(*operator)
                == operator_number(*other_operator)
                && same_var(*left, *other_left)
                && same_var(*right, *other_right),
            _ => false,
        },
        Form::If(note, test, positive, negative) => match filled {
            Form::If(other_note, other_test, other_positive, other_negative) => fills_note(
                note, other_note,
            ) && same_var(*test, *other_test)
                && form_is_filled_as(&positive.form, &other_positive.form)
                && form_is_filled_as(&negative.form, &other_negative.form),
            _ => false,
        },
        Form::Repeat(count, function) => match filled {
            Form::Repeat(other_count, other_function) => same_var(*count, *other_count)
                && same_var(*function, *other_function),
            _ => false,
        },
        Form::Operate(operation, receiver, argument) => match filled {
            Form::Operate(other_operation, other_receiver, other_argument) => operation_number(
                *operation,
            ) == operation_number(*other_operation)
                && same_var(*receiver, *other_receiver)
                && same_argument(*argument, *other_argument),
            _ => false,
        },
        Form::Boundary(gives, body) => match filled {
            Form::Boundary(other_gives, other_body) => same_shape(gives, other_gives)
                && form_is_filled_as(&body.form, &other_body.form),
            _ => false,
        },
        Form::Leave(gives, exit, value) => match filled {
            Form::Leave(other_gives, other_exit, other_value) => same_type(gives, other_gives)
                && same_var(*exit, *other_exit)
                && same_var(*value, *other_value),
            _ => false,
        },
    }
}

/// Whether the second term is the first with its omitted sets filled in.
///
/// Calls itself no deeper than the term is high, and takes no memory.
pub fn is_filled_as(written: &Node, filled: &Node) -> bool
    ensures { result ≡ plain.is_filled_as (term_of written.now) (term_of filled.now) }
{
    form_is_filled_as(&written.form, &filled.form)
}
