//! Sets, shapes and types: whether one is refused, and why.

ghost use Rattle.std.specs.Prelude.{◌≡◌, option_map};
ghost use Rattle.cc_parse.specs.Trees.{captures_syntax, elements_syntax, set_syntax, shape_syntax, type_syntax};
ghost use Rattle.cc_elaboration_reasons.specs.ExplainedElaboration as plain;
ghost use Rattle.cc_elaboration_reasoning.specs.Answers.{Meets};
ghost use Rattle.cc_elaboration_reasoning.specs.ScopeViews.{scope_of};
ghost use Rattle.cc_elaboration_reasoning.specs.Views.{strict_place_seen};

use crate::halt::{Halt, refused};
use crate::refusal::{ElaborationCause, StrictPlace};
use crate::scope::{Binder, Scope, term_name, type_name};
use cc_parse::tree::{ElemTree, SetTree, ShapeForm, ShapeTree, TypeTree};

// An element; no name is `cap`.
fn element(scope: &Scope, element: &ElemTree) -> Result<(), Halt>
    ensures { Meets result (plain.element_refusal (scope_of scope.now) element.now.at element.now.name) }
{
    match &element.name {
        Some(name) => term_name(scope, element.at, name),
        None => Ok(()),
    }
}

// The elements of a set.
fn elements(scope: &Scope, elements: &[ElemTree]) -> Result<(), Halt>
    ensures { Meets result (plain.elements_refusal (scope_of scope.now) (elements_syntax elements.now)) }
{
    for one in elements {
        element(scope, one)?;
    }
    Ok(())
}

// A set that may be omitted.
fn set(scope: &Scope, set: &SetTree) -> Result<(), Halt>
    ensures { Meets result (plain.set_refusal (scope_of scope.now) (set_syntax set.now)) }
{
    match set {
        SetTree::Absent => Ok(()),
        SetTree::Omitted(_) => Ok(()),
        SetTree::Written(written) => elements(scope, written),
    }
}

// A set that may not, which stands there.
fn strict_set(around: StrictPlace, scope: &Scope, set: &SetTree) -> Result<(), Halt>
    ensures { Meets result (plain.strict_set_refusal (strict_place_seen around) (scope_of scope.now) (set_syntax set.now)) }
{
    match set {
        SetTree::Absent => Ok(()),
        SetTree::Omitted(at) => Err(refused(ElaborationCause::OmittedSet(around), *at)),
        SetTree::Written(written) => elements(scope, written),
    }
}

/// A shape.
#[cycle(shapes)]
pub fn shape(scope: &Scope, shape_tree: &ShapeTree) -> Result<(), Halt>
    ensures { Meets result (plain.shape_refusal (scope_of scope.now) (shape_syntax shape_tree.now)) }
{
    match &shape_tree.form {
        ShapeForm::Base(_) => Ok(()),
        ShapeForm::Any => Ok(()),
        ShapeForm::Name(name) => type_name(scope, shape_tree.at, name),
        ShapeForm::Exit(inner) => shape(scope, inner),
        ShapeForm::Boxed(content) => strict_type(StrictPlace::InBox, scope, content),
        ShapeForm::Paren(inner) => shape(scope, inner),
        ShapeForm::Fun(parameter, takes, gives) => {
            strict_type(StrictPlace::InParameter, scope, takes)?;
            let inside = Scope::Under(Binder::Term(&*parameter), &*scope);
            strict_type(StrictPlace::InResult, &inside, gives)
        }
        ShapeForm::TFun(parameter, bound, gives) => {
            shape(scope, bound)?;
            let inside = Scope::Under(Binder::Type(&*parameter), &*scope);
            strict_type(StrictPlace::InTypeResult, &inside, gives)
        }
    }
}

/// A type whose set may not be omitted, which stands there.
#[cycle(shapes)]
pub fn strict_type(around: StrictPlace, scope: &Scope, ty: &TypeTree) -> Result<(), Halt>
    ensures { Meets result (plain.strict_type_refusal (strict_place_seen around) (scope_of scope.now) (type_syntax ty.now)) }
{
    shape(scope, &ty.shape)?;
    strict_set(around, scope, &ty.set)
}

/// A type whose set may be omitted.
pub fn noted_type(scope: &Scope, ty: &TypeTree) -> Result<(), Halt>
    ensures { Meets result (plain.type_refusal (scope_of scope.now) (type_syntax ty.now)) }
{
    shape(scope, &ty.shape)?;
    set(scope, &ty.set)
}

/// A type that may be left out, and whose set may be omitted.
pub fn written_type(scope: &Scope, written: &Option<TypeTree>) -> Result<(), Halt>
    ensures { Meets result (plain.written_refusal (scope_of scope.now) (option_map type_syntax written.now)) }
{
    match written {
        None => Ok(()),
        Some(written) => noted_type(scope, written),
    }
}

/// A type that may be left out, and whose set may not be omitted, which stands there.
pub fn strict_written_type(
    around: StrictPlace,
    scope: &Scope,
    written: &Option<TypeTree>,
) -> Result<(), Halt>
    ensures { Meets result (plain.strict_written_refusal (strict_place_seen around) (scope_of scope.now) (option_map type_syntax written.now)) }
{
    match written {
        None => Ok(()),
        Some(written) => strict_type(around, scope, written),
    }
}

/// The set of an unboxing, which may be left out.
pub fn unboxing_set(scope: &Scope, captures: &Option<Vec<ElemTree>>) -> Result<(), Halt>
    ensures { Meets result (plain.unboxing_refusal (scope_of scope.now) (captures_syntax captures.now)) }
{
    match captures {
        None => Ok(()),
        Some(written) => elements(scope, written),
    }
}
