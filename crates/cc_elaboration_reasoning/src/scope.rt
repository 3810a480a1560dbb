//! The names that are visible.

ghost use Rattle.std.specs.Prelude.{◌≡◌, ◌||◌, is_some};
ghost use Rattle.std.specs.List.{list_any};
ghost use Rattle.std.specs.Str.{bytes_eq};
ghost use Rattle.cc_mnf.specs.Operands as operands;
ghost use Rattle.cc_mnf.specs.Scopes as plain;
ghost use Rattle.cc_parse.specs.Trees.{expr_syntax};
ghost use Rattle.cc_elaboration_reasons.specs.ElaborationCauses.{refused_without, UnknownName, UnknownType};
ghost use Rattle.cc_elaboration_reasons.specs.ExplainedElaboration.{name_refusal};
ghost use Rattle.cc_elaboration_reasoning.specs.Answers.{Meets};
ghost use Rattle.cc_elaboration_reasoning.specs.ScopeViews.{binder_of, binders_in, names_in, scope_of};

use crate::halt::{Halt, refused};
use crate::refusal::ElaborationCause;
use cc_base::name::Name;
use cc_base::place::Place;
use cc_names::Names;
use cc_parse::tree::{ExprForm, ExprTree};

/// A binder.
#[derive(Clone, Copy)]
pub enum Binder<'a> {
    /// It binds a name of terms.
    Term(&'a Name),
    /// It binds a name of types.
    Type(&'a Name),
    /// It binds an operand that has no name in the text.
    Unnamed,
}

/// What is visible: the names outside, and the binders around, as a chain from the innermost outwards.
#[derive(Clone, Copy)]
pub enum Scope<'a> {
    /// No binder is around.
    Top(&'a Names),
    /// Under one binder more.
    Under(Binder<'a>, &'a Scope<'a>),
}

fn binds_term(binder: &Binder, name: &Name) -> bool
    ensures { result ≡ plain.binds_term name.now (binder_of binder.now) }
{
    match binder {
        Binder::Term(bound) => *name == **bound,
        Binder::Type(_) | Binder::Unnamed => false,
    }
}

fn binds_type(binder: &Binder, name: &Name) -> bool
    ensures { result ≡ plain.binds_type name.now (binder_of binder.now) }
{
    match binder {
        Binder::Type(bound) => *name == **bound,
        Binder::Term(_) | Binder::Unnamed => false,
    }
}

// Whether one of the binders binds the name of terms, or it is one of the names outside.
fn finds_term(scope: &Scope, name: &Name) -> bool
    ensures { result ≡ (list_any (plain.binds_term name.now) (binders_in scope.now) || list_any (bytes_eq name.now) (names_in scope.now)) }
{
    match scope {
        Scope::Top(names) => names.contains(name),
        Scope::Under(binder, outer) => binds_term(binder, name) || finds_term(outer, name),
    }
}

// Whether one of the binders binds the name of types.
fn finds_type(scope: &Scope, name: &Name) -> bool
    ensures { result ≡ list_any (plain.binds_type name.now) (binders_in scope.now) }
{
    match scope {
        Scope::Top(_) => false,
        Scope::Under(binder, outer) => binds_type(binder, name) || finds_type(outer, name),
    }
}

// Whether a term has the name.
fn sees_term(scope: &Scope, name: &Name) -> bool
    ensures { result ≡ is_some (plain.term_variable (scope_of scope.now) name.now) }
{
    finds_term(scope, name)
}

// Whether a type has the name.
fn sees_type(scope: &Scope, name: &Name) -> bool
    ensures { result ≡ is_some (plain.type_variable (scope_of scope.now) name.now) }
{
    finds_type(scope, name)
}

/// Whether the name of terms is refused; the place is that of the name.
pub fn term_name(scope: &Scope, at: Place, name: &Name) -> Result<(), Halt>
    ensures { Meets result (name_refusal (scope_of scope.now) at name.now) }
{
    if sees_term(scope, name) {
        return Ok(());
    }
    Err(refused(ElaborationCause::UnknownName(name.clone()?), at))
}

/// Whether the name of types is refused; the place is that of the name.
pub fn type_name(scope: &Scope, at: Place, name: &Name) -> Result<(), Halt>
    ensures { Meets result (refused_without (UnknownType name.now) at (plain.type_variable (scope_of scope.now) name.now)) }
{
    if sees_type(scope, name) {
        return Ok(());
    }
    Err(refused(ElaborationCause::UnknownType(name.clone()?), at))
}

/// Whether an expression is a name, perhaps in parentheses.
pub fn is_name(expr: &ExprTree) -> bool
    ensures { result ≡ is_some (operands.name_of (expr_syntax expr.now)) }
{
    match &expr.form {
        ExprForm::Name(_) => true,
        ExprForm::Paren(inner) => is_name(inner),
        ExprForm::Operate(_, _, argument) => match argument {
            Some(_) => false,
            None => false,
        },
        _ => false,
    }
}

/// The scope of what stands behind an operand in its construct.
pub fn behind<'a>(scope: &'a Scope<'a>, operand: &ExprTree) -> Scope<'a>
    ensures { scope_of result ≡ operands.behind (operands.name_of (expr_syntax operand.now)) (scope_of scope.now) }
{
    if is_name(operand) {
        *scope
    } else {
        Scope::Under(Binder::Unnamed, scope)
    }
}
