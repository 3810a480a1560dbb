//! The names of the binders of an expression's term, as its text has them.

ghost use Rattle.std.specs.Option.{is_some};
ghost use Rattle.std.specs.Prelude.{◌≡◌, IfOk, Some, None};
ghost use Rattle.cc_causes.specs.Views.{binder_names_of};
ghost use Rattle.cc_mnf.specs.Operands as operands;
ghost use Rattle.cc_parse.specs.Trees.{expr_syntax};
ghost use Rattle.cc_reasons.specs.ExplainedInference as plain;
ghost use Rattle.cc_reasons.specs.NamedBinders as plain_names;

use cc_base::name::Name;
use cc_causes::reason::Binders;
use cc_parse::tree::{ExprForm, ExprTree};
use std::alloc::{AllocError, Global};
use std::rc::Rc;

// A binder of the name around the only part.
fn around(alloc: Global, name: &Name, part: Binders) -> Result<Binders, AllocError>
    ensures { IfOk result (λ b. binder_names_of b ≡ plain.Around (Some name.now) (binder_names_of part)) }
{
    let name = name.clone()?;
    let part = Rc::new(alloc, part)?;
    Ok(Binders::Around(Some(name), part))
}

// A binder of the name around the second of two parts.
fn between(alloc: Global, name: &Name, one: Binders, other: Binders) -> Result<Binders, AllocError>
    ensures { IfOk result (λ b. binder_names_of b ≡ plain.Between (Some name.now) (binder_names_of one) (binder_names_of other)) }
{
    let name = name.clone()?;
    let one = Rc::new(alloc, one)?;
    let other = Rc::new(alloc, other)?;
    Ok(Binders::Between(Some(name), one, other))
}

// A binder that the text does not name, around the second of two parts.
fn unnamed(alloc: Global, one: Binders, other: Binders) -> Result<Binders, AllocError>
    ensures { IfOk result (λ b. binder_names_of b ≡ plain.Between None (binder_names_of one) (binder_names_of other)) }
{
    let one = Rc::new(alloc, one)?;
    let other = Rc::new(alloc, other)?;
    Ok(Binders::Between(None, one, other))
}

// Whether an expression is a name, perhaps in parentheses.
fn is_name(expr: &ExprTree) -> bool
    ensures { result ≡ is_some (operands.name_of (expr_syntax expr.now)) }
{
    match &expr.form {
        ExprForm::Name(_) => true,
        ExprForm::Paren(inner) => is_name(inner),
        ExprForm::Operate(_, _, argument) => match argument {
            Some(_) => false,
            None => false,
        },
        _ => false,
    }
}

// The construct of an operand whose binders have these names, under the binder of that, if it is no name.
fn behind(
    alloc: Global,
    operand: &ExprTree,
    names: Binders,
    construct: Binders,
) -> Result<Binders, AllocError>
    ensures { IfOk result (λ b. binder_names_of b ≡ plain_names.behind_operand (operands.name_of (expr_syntax operand.now)) (binder_names_of names) (binder_names_of construct)) }
{
    if is_name(operand) {
        Ok(construct)
    } else {
        unnamed(alloc, names, construct)
    }
}

// A construct of two operands, whose binders have these names, that has no binder of its own.
fn behind_both(
    alloc: Global,
    one: &ExprTree,
    first: Binders,
    other: &ExprTree,
    second: Binders,
) -> Result<Binders, AllocError>
    ensures { IfOk result (λ b. binder_names_of b ≡ plain_names.behind_operand (operands.name_of (expr_syntax one.now)) (binder_names_of first)
        (plain_names.behind_operand (operands.name_of (expr_syntax other.now)) (binder_names_of second) plain.Alone)) }
{
    let inner = behind(alloc, other, second, Binders::Alone)?;
    behind(alloc, one, first, inner)
}

/// The names of the binders in the term of an expression: those that the text names, and one without a name for each
/// operand that elaboration names. Fails for want of memory alone.
pub fn binder_names(alloc: Global, expr: &ExprTree) -> Result<Binders, AllocError>
    ensures { IfOk result (λ b. binder_names_of b ≡ plain_names.binder_names (expr_syntax expr.now)) }
{
    match &expr.form {
        ExprForm::Val(name, _, right, body) => {
            let one = binder_names(alloc, right)?;
            let other = binder_names(alloc, body)?;
            between(alloc, name, one, other)
        }
        ExprForm::Fun(parameter, _, body) => {
            let part = binder_names(alloc, body)?;
            around(alloc, parameter, part)
        }
        ExprForm::TFun(parameter, _, body) => {
            let part = binder_names(alloc, body)?;
            around(alloc, parameter, part)
        }
        ExprForm::If(_, test, positive, negative) => {
            let one = binder_names(alloc, positive)?;
            let other = binder_names(alloc, negative)?;
            let branches = unnamed(alloc, one, other)?;
            let names = binder_names(alloc, test)?;
            behind(alloc, test, names, branches)
        }
        ExprForm::Boundary(_, exit, body) => {
            let part = binder_names(alloc, body)?;
            around(alloc, exit, part)
        }
        ExprForm::Prim(_, left, right) => {
            let first = binder_names(alloc, left)?;
            let second = binder_names(alloc, right)?;
            behind_both(alloc, left, first, right, second)
        }
        ExprForm::Boxed(content) => {
            let names = binder_names(alloc, content)?;
            behind(alloc, content, names, Binders::Alone)
        }
        ExprForm::Unbox(_, content) => {
            let names = binder_names(alloc, content)?;
            behind(alloc, content, names, Binders::Alone)
        }
        ExprForm::App(function, argument) => {
            let first = binder_names(alloc, function)?;
            let second = binder_names(alloc, argument)?;
            behind_both(alloc, function, first, argument, second)
        }
        ExprForm::TApp(function, _) => {
            let names = binder_names(alloc, function)?;
            behind(alloc, function, names, Binders::Alone)
        }
        ExprForm::Operate(_, receiver, argument) => match argument {
            Some(argument) => {
                let first = binder_names(alloc, receiver)?;
                let second = binder_names(alloc, argument)?;
                behind_both(alloc, receiver, first, argument, second)
            }
            None => {
                let names = binder_names(alloc, receiver)?;
                behind(alloc, receiver, names, Binders::Alone)
            }
        },
        ExprForm::Name(_) => Ok(Binders::Alone),
        ExprForm::Lit(_) => Ok(Binders::Alone),
        ExprForm::Paren(inner) => binder_names(alloc, inner),
        ExprForm::Leave(_, exit, value) => {
            let first = binder_names(alloc, exit)?;
            let second = binder_names(alloc, value)?;
            behind_both(alloc, exit, first, value, second)
        }
        ExprForm::Repeat(count, function) => {
            let first = binder_names(alloc, count)?;
            let second = binder_names(alloc, function)?;
            behind_both(alloc, count, first, function, second)
        }
    }
}
