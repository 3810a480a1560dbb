//! Whether a position occurs, and whether a set has a hole. The tests take no memory.

ghost use Rattle.std.specs.Prelude.{◌≡◌, ◌↔◌, false};
ghost use Rattle.std.specs.List.{list_any};
ghost use Rattle.cc_core.specs.Questions as plain;
ghost use Rattle.cc_core.specs.Occurrences.{MeetsInSet, Meets, MeetsInType, without, HasNoHoleInSet};
ghost use Rattle.cc_core.specs.TermViews.{shape_of, type_of, question_of};

use crate::types::{Shape, Ty};
use cc_capture::var::same_var;
use cc_capture::{CapSet, Elem, Var};

/// Whether the free position is in the set.
pub fn occurs_in_set(position: u32, set: &CapSet) -> bool
    ensures { (result ≡ false) ↔ MeetsInSet (without position) 0 set.now }
{
    is_in_set(&Question::Position(position), set)
}

/// Whether the free position occurs in the shape.
pub fn occurs_in_shape(position: u32, shape: &Shape) -> bool
    ensures { (result ≡ false) ↔ Meets (without position) 0 (shape_of shape.now) }
{
    is_in_shape(&Question::Position(position), shape)
}

/// Whether the free position occurs in the type.
pub fn occurs_in_type(position: u32, ty: &Ty) -> bool
    ensures { (result ≡ false) ↔ MeetsInType (without position) 0 (type_of ty.now) }
{
    is_in_type(&Question::Position(position), ty)
}

/// Whether the set has a hole.
pub fn set_has_hole(set: &CapSet) -> bool
    ensures { (result ≡ false) ↔ HasNoHoleInSet set.now }
{
    is_in_set(&Question::Hole, set)
}

// What is looked for.
#[derive(Drop)]
enum Question {
    // The free position.
    Position(u32),
    // Any hole.
    Hole,
}

fn is_asked(question: &Question, variable: Var) -> bool
    ensures { result ≡ (question_of question.now).at variable }
{
    match question {
        Question::Position(position) => same_var(Var::Free(*position), variable),
        Question::Hole => false,
    }
}

fn is_hole(elem: Elem) -> bool
    ensures { result ≡ plain.is_hole elem }
{
    match elem {
        Elem::Hole(_) => true,
        Elem::Var(_) => false,
        Elem::Cap => false,
    }
}

pub(crate) fn holds_hole(set: &CapSet) -> bool
    ensures { result ≡ list_any plain.is_hole set.now.list }
{
    for elem in set.iter() {
        if is_hole(elem) {
            return true;
        }
    }
    false
}

fn is_in_set(question: &Question, set: &CapSet) -> bool
    ensures { result ≡ (question_of question.now).in_set set.now }
{
    match question {
        Question::Position(position) => set.contains(Elem::Var(Var::Free(*position))),
        Question::Hole => holds_hole(set),
    }
}

#[cycle(in_shapes)]
fn is_in_shape(question: &Question, shape: &Shape) -> bool
    ensures { result ≡ plain.occurs (question_of question.now) (shape_of shape.now) }
{
    match shape {
        Shape::Base(_) => false,
        Shape::Any => false,
        Shape::TVar(variable) => is_asked(question, *variable),
        Shape::Fun(takes, gives) => is_in_type(question, takes) || is_in_type(question, gives),
        Shape::TFun(bound, gives) => is_in_shape(question, bound) || is_in_type(question, gives),
        Shape::Boxed(content) => is_in_type(question, content),
        Shape::Exit(gives) => is_in_shape(question, gives),
    }
}

#[cycle(in_shapes)]
fn is_in_type(question: &Question, ty: &Ty) -> bool
    ensures { result ≡ plain.occurs_in_type (question_of question.now) (type_of ty.now) }
{
    is_in_shape(question, &ty.shape) || is_in_set(question, &ty.set)
}
