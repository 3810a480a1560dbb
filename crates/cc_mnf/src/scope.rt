//! The names that are visible, and the variables that they are.

ghost use Rattle.std.specs.Prelude.{◌≡◌, suc, IfOk, option_map, position};
ghost use Rattle.std.specs.Str.{bytes_eq};
ghost use Rattle.cc_base.specs.declared.code.Code.TheVariants.{E10, E11};
ghost use Rattle.cc_mnf.specs.ScopeViews.{binder_of, binders_in, names_in, scope_of};
ghost use Rattle.cc_mnf.specs.Scopes as plain;
ghost use Rattle.cc_mnf.specs.StepAnswers.{MeetsWithoutHoles};
ghost use Rattle.cc_mnf.specs.Steps.{or_refused};

use crate::stop::Stop;
use cc_base::code::Code;
use cc_base::name::Name;
use cc_base::place::Place;
use cc_capture::Var;
use cc_names::Names;
use std::alloc::AllocError;

/// A binder of a term.
#[derive(Clone, Copy)]
pub enum Binder<'a> {
    /// It binds a name of terms.
    Term(&'a Name),
    /// It binds a name of types.
    Type(&'a Name),
    /// It binds an operand that has no name in the text.
    Unnamed,
}

/// What is visible: the names at the free positions, and the binders around, as a chain from the innermost outwards.
#[derive(Clone, Copy)]
pub enum Scope<'a> {
    /// No binder is around.
    Top(&'a Names),
    /// Under one binder more.
    Under(Binder<'a>, &'a Scope<'a>),
}

fn binds_term(binder: &Binder, name: &Name) -> bool
    ensures { result ≡ plain.binds_term name.now (binder_of binder.now) }
{
    match binder {
        Binder::Term(bound) => *name == **bound,
        Binder::Type(_) | Binder::Unnamed => false,
    }
}

fn binds_type(binder: &Binder, name: &Name) -> bool
    ensures { result ≡ plain.binds_type name.now (binder_of binder.now) }
{
    match binder {
        Binder::Type(bound) => *name == **bound,
        Binder::Term(_) | Binder::Unnamed => false,
    }
}

/// The index as it counts one binder more.
fn one_more(index: Option<u32>) -> Result<Option<u32>, AllocError>
    ensures { IfOk result (λ o. o ≡ option_map suc index) }
{
    match index {
        Some(index) => Ok(Some(index.checked_add(1).ok_or(AllocError)?)),
        None => Ok(None),
    }
}

/// How many binders are passed to the one that binds the name of terms, if there is one.
fn term_index(scope: &Scope, name: &Name) -> Result<Option<u32>, AllocError>
    ensures { IfOk result (λ o. o ≡ position (plain.binds_term name.now) (binders_in scope.now)) }
{
    match scope {
        Scope::Top(_) => Ok(None),
        Scope::Under(binder, outer) => {
            if binds_term(binder, name) {
                Ok(Some(0))
            } else {
                one_more(term_index(outer, name)?)
            }
        }
    }
}

/// How many binders are passed to the one that binds the name of types, if there is one.
fn type_index(scope: &Scope, name: &Name) -> Result<Option<u32>, AllocError>
    ensures { IfOk result (λ o. o ≡ position (plain.binds_type name.now) (binders_in scope.now)) }
{
    match scope {
        Scope::Top(_) => Ok(None),
        Scope::Under(binder, outer) => {
            if binds_type(binder, name) {
                Ok(Some(0))
            } else {
                one_more(type_index(outer, name)?)
            }
        }
    }
}

/// The number of names before the name at the free positions, if it is there.
fn free_position(scope: &Scope, name: &Name) -> Result<Option<u32>, AllocError>
    ensures { IfOk result (λ o. o ≡ position (bytes_eq name.now) (names_in scope.now)) }
{
    match scope {
        Scope::Top(names) => names.position(name),
        Scope::Under(_, outer) => free_position(outer, name),
    }
}

fn term_variable(scope: &Scope, name: &Name) -> Result<Option<Var>, AllocError>
    ensures { IfOk result (λ v. v ≡ plain.term_variable (scope_of scope.now) name.now) }
{
    match term_index(scope, name)? {
        Some(index) => Ok(Some(Var::Bound(index))),
        None => match free_position(scope, name)? {
            Some(place) => Ok(Some(Var::Free(place))),
            None => Ok(None),
        },
    }
}

fn type_variable(scope: &Scope, name: &Name) -> Result<Option<Var>, AllocError>
    ensures { IfOk result (λ v. v ≡ plain.type_variable (scope_of scope.now) name.now) }
{
    match type_index(scope, name)? {
        Some(index) => Ok(Some(Var::Bound(index))),
        None => Ok(None),
    }
}

/// The variable of terms that has the name; the place is that of the name.
pub fn visible_term(scope: &Scope, at: Place, name: &Name) -> Result<Var, Stop>
    ensures { MeetsWithoutHoles (λ v. v) result (or_refused E10 at (plain.term_variable (scope_of scope.now) name.now)) }
{
    match term_variable(scope, name)? {
        Some(variable) => Ok(variable),
        None => Err(Stop::Refused(Code::E10, at)),
    }
}

/// The variable of types that has the name; the place is that of the name.
pub fn visible_type(scope: &Scope, at: Place, name: &Name) -> Result<Var, Stop>
    ensures { MeetsWithoutHoles (λ v. v) result (or_refused E11 at (plain.type_variable (scope_of scope.now) name.now)) }
{
    match type_variable(scope, name)? {
        Some(variable) => Ok(variable),
        None => Err(Stop::Refused(Code::E11, at)),
    }
}
