//! Right sides of definitions: whether one is refused, and why.

ghost use Rattle.std.specs.Prelude.{◌≡◌};
ghost use Rattle.cc_mnf.specs.Operands as operands;
ghost use Rattle.cc_parse.specs.Trees.{def_syntax, expr_syntax};
ghost use Rattle.cc_elaboration_reasons.specs.ElaborationCauses.{form_of};
ghost use Rattle.cc_elaboration_reasoning.specs.Answers.{Meets};
ghost use Rattle.cc_elaboration_reasoning.specs.RightSides as plain;
ghost use Rattle.cc_elaboration_reasoning.specs.Views.{form_seen};

use crate::halt::{Halt, refused};
use crate::refusal::{ElaborationCause, ExpressionForm};
use crate::scope::is_name;
use cc_base::place::Place;
use cc_parse::tree::{Def, ExprForm, ExprTree};

// The form of an expression, without the parentheses around it.
fn form(expr: &ExprTree) -> ExpressionForm
    ensures { form_seen result ≡ form_of (expr_syntax expr.now) }
{
    match &expr.form {
        ExprForm::Name(_) => ExpressionForm::AName,
        ExprForm::Lit(_) => ExpressionForm::ALiteral,
        ExprForm::Paren(inner) => form(inner),
        ExprForm::Val(_, _, _, _) => ExpressionForm::AVal,
        ExprForm::Fun(_, _, _) => ExpressionForm::AFunction,
        ExprForm::TFun(_, _, _) => ExpressionForm::ATypeFunction,
        ExprForm::If(_, _, _, _) => ExpressionForm::AChoice,
        ExprForm::Boundary(_, _, _) => ExpressionForm::ABoundary,
        ExprForm::Prim(_, _, _) => ExpressionForm::AnOperator,
        ExprForm::Boxed(_) => ExpressionForm::ABox,
        ExprForm::Unbox(_, _) => ExpressionForm::AnUnboxing,
        ExprForm::App(_, _) => ExpressionForm::AnApplication,
        ExprForm::TApp(_, _) => ExpressionForm::ATypeApplication,
        ExprForm::Operate(_, _, argument) => match argument {
            Some(_) => ExpressionForm::AnOperation,
            None => ExpressionForm::AnOperation,
        },
        ExprForm::Leave(_, _, _) => ExpressionForm::AnExit,
        ExprForm::Repeat(_, _) => ExpressionForm::ARepetition,
    }
}

// Where an expression starts.
fn start(expr: &ExprTree) -> Place
    ensures { result ≡ operands.start (expr_syntax expr.now) }
{
    match &expr.form {
        ExprForm::Val(_, _, _, _) => expr.at,
        ExprForm::Fun(_, _, _) => expr.at,
        ExprForm::TFun(_, _, _) => expr.at,
        ExprForm::If(_, _, _, _) => expr.at,
        ExprForm::Boundary(_, _, _) => expr.at,
        ExprForm::Prim(_, _, _) => expr.at,
        ExprForm::Boxed(_) => expr.at,
        ExprForm::Unbox(_, _) => expr.at,
        ExprForm::App(_, _) => expr.at,
        ExprForm::TApp(_, _) => expr.at,
        ExprForm::Operate(_, _, argument) => match argument {
            Some(_) => expr.at,
            None => expr.at,
        },
        ExprForm::Name(_) => expr.at,
        ExprForm::Lit(_) => expr.at,
        ExprForm::Paren(_) => expr.at,
        ExprForm::Leave(_, _, _) => expr.at,
        ExprForm::Repeat(_, _) => expr.at,
    }
}

// Whether the expression becomes a literal, a function, a type function, or a box of a name.
fn becomes_value(expr: &ExprTree) -> bool
    ensures { result ≡ plain.becomes_value (expr_syntax expr.now) }
{
    match &expr.form {
        ExprForm::Lit(_) => true,
        ExprForm::Paren(inner) => becomes_value(inner),
        ExprForm::Fun(_, _, _) => true,
        ExprForm::TFun(_, _, _) => true,
        ExprForm::Boxed(content) => is_name(content),
        ExprForm::Operate(_, _, argument) => match argument {
            Some(_) => false,
            None => false,
        },
        _ => false,
    }
}

// Whether the expression becomes a function or a type function.
fn becomes_function(expr: &ExprTree) -> bool
    ensures { result ≡ plain.becomes_function (expr_syntax expr.now) }
{
    match &expr.form {
        ExprForm::Paren(inner) => becomes_function(inner),
        ExprForm::Fun(_, _, _) => true,
        ExprForm::TFun(_, _, _) => true,
        ExprForm::Operate(_, _, argument) => match argument {
            Some(_) => false,
            None => false,
        },
        _ => false,
    }
}

fn becomes_right_side(recursive: bool, expr: &ExprTree) -> bool
    ensures { result ≡ plain.becomes_right_side recursive (expr_syntax expr.now) }
{
    if recursive {
        becomes_function(expr)
    } else {
        becomes_value(expr)
    }
}

/// The right side of a definition whose names and sets are in order: it has to be a value, and a function where the
/// definition is recursive.
pub fn right_side(def: &Def) -> Result<(), Halt>
    ensures { Meets result (plain.right_side_refusal (def_syntax def.now)) }
{
    if becomes_right_side(def.own, &def.right) {
        return Ok(());
    }
    let form = form(&def.right);
    Err(refused(ElaborationCause::NotAValue(form), start(&def.right)))
}
