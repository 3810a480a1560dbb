//! Expressions: whether one is refused, and why.

ghost use Rattle.cc_parse.specs.Trees.{expr_syntax};
ghost use Rattle.cc_elaboration_reasons.specs.ExplainedElaboration as plain;
ghost use Rattle.cc_elaboration_reasoning.specs.Answers.{Meets};
ghost use Rattle.cc_elaboration_reasoning.specs.ScopeViews.{scope_of};

use crate::halt::Halt;
use crate::refusal::StrictPlace;
use crate::scope::{Binder, Scope, behind, term_name};
use crate::types::{noted_type, shape, strict_type, unboxing_set, written_type};
use cc_parse::tree::{ExprForm, ExprTree};

/// An expression. What stands behind an operand that is no name stands under its binder.
pub fn expression(scope: &Scope, expr: &ExprTree) -> Result<(), Halt>
    ensures { Meets result (plain.expression_refusal (scope_of scope.now) (expr_syntax expr.now)) }
{
    match &expr.form {
        ExprForm::Name(name) => term_name(scope, expr.at, name),
        ExprForm::Lit(_) => Ok(()),
        ExprForm::Paren(inner) => expression(scope, inner),
        ExprForm::Val(name, written, right, body) => {
            written_type(scope, written)?;
            expression(scope, right)?;
            let inside = Scope::Under(Binder::Term(&*name), &*scope);
            expression(&inside, body)
        }
        ExprForm::Fun(parameter, takes, body) => {
            noted_type(scope, takes)?;
            let inside = Scope::Under(Binder::Term(&*parameter), &*scope);
            expression(&inside, body)
        }
        ExprForm::TFun(parameter, bound, body) => {
            shape(scope, bound)?;
            let inside = Scope::Under(Binder::Type(&*parameter), &*scope);
            expression(&inside, body)
        }
        ExprForm::If(gives, test, positive, negative) => {
            let inside = behind(&*scope, test);
            noted_type(&inside, gives)?;
            expression(scope, test)?;
            expression(&inside, positive)?;
            expression(&inside, negative)
        }
        ExprForm::Boundary(gives, exit, body) => {
            shape(scope, gives)?;
            let inside = Scope::Under(Binder::Term(&*exit), &*scope);
            expression(&inside, body)
        }
        ExprForm::Prim(_, x, y) => {
            expression(scope, x)?;
            expression(&behind(&*scope, x), y)
        }
        ExprForm::Boxed(x) => expression(scope, x),
        ExprForm::Unbox(captures, x) => {
            unboxing_set(&behind(&*scope, x), captures)?;
            expression(scope, x)
        }
        ExprForm::App(x, y) => {
            expression(scope, x)?;
            expression(&behind(&*scope, x), y)
        }
        ExprForm::TApp(x, argument) => {
            expression(scope, x)?;
            shape(&behind(&*scope, x), argument)
        }
        ExprForm::Operate(_, x, argument) => match argument {
            None => expression(scope, x),
            Some(y) => {
                expression(scope, x)?;
                expression(&behind(&*scope, x), y)
            }
        },
        ExprForm::Leave(takes, x, y) => {
            let outer = behind(&*scope, x);
            strict_type(StrictPlace::InExit, &behind(&outer, y), takes)?;
            expression(scope, x)?;
            expression(&outer, y)
        }
        ExprForm::Repeat(x, y) => {
            expression(scope, x)?;
            expression(&behind(&*scope, x), y)
        }
    }
}
