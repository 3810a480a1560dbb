//! Opening, closing, substitution, renaming and filling. What is put in is shared. Each call fails only for want of
//! memory, as which more than 2^32 - 1 binders above one place count.

ghost use Rattle.std.specs.Prelude.{◌≡◌, IfOk};
ghost use Rattle.cc_core.specs.Substitution.{filling_in, opened_type, opened_term, closed_type, replaced_type, replaced_type_by_shape, replaced_term_by_shape, renamed_term, filled_set, filled, filled_type, filled_term};
ghost use Rattle.cc_core.specs.Traversal.{act_note};
ghost use Rattle.cc_core.specs.Actions.{renamed_by, filled_by};
ghost use Rattle.cc_core.specs.TermViews.{shape_of, type_of, note_of, term_of};
ghost use Rattle.cc_core.specs.Places.{places_of};

use crate::acting::{self, Action};
use crate::acting_terms;
use crate::terms::{Node, Note};
use crate::types::{Shape, Ty};
use cc_capture::{CapSet, Var};
use std::alloc::{AllocError, Global};
use std::rc::Rc;

/// What stood under one binder, with the free position in the place of that binder.
pub fn instantiate(alloc: Global, ty: &Ty, position: u32) -> Result<Ty, AllocError>
    ensures { IfOk result (λ t. type_of t ≡ opened_type position (type_of ty.now)) }
{
    subst_var(alloc, ty, Var::Free(position))
}

/// What stood under one binder, with the variable in the place of that binder.
pub fn subst_var(alloc: Global, ty: &Ty, by: Var) -> Result<Ty, AllocError>
    ensures { IfOk result (λ t. type_of t ≡ replaced_type by (type_of ty.now)) }
{
    acting::act_type(alloc, &Action::Put(by), 0, ty)
}

/// What stood under the binder of a type variable, with the shape in the place of that variable.
pub fn subst_type(alloc: Global, ty: &Ty, by: &Rc<Shape>) -> Result<Ty, AllocError>
    ensures { IfOk result (λ t. type_of t ≡ replaced_type_by_shape (shape_of by.now.value) (type_of ty.now)) }
{
    acting::act_type(alloc, &Action::PutShape(by), 0, ty)
}

/// What stands under one binder where the free position was.
pub fn close_type(alloc: Global, ty: &Ty, position: u32) -> Result<Ty, AllocError>
    ensures { IfOk result (λ t. type_of t ≡ closed_type position (type_of ty.now)) }
{
    acting::act_type(alloc, &Action::Close(position), 0, ty)
}

/// The term that stood under one binder, with the free position in the place of that binder. The places stay.
pub fn instantiate_term(
    alloc: Global,
    node: &Rc<Node>,
    position: u32,
) -> Result<Rc<Node>, AllocError>
    ensures term { IfOk result (λ n. term_of n.value ≡ opened_term position (term_of node.now.value)) }
    ensures places { IfOk result (λ n. places_of n.value ≡ places_of node.now.value) }
{
    acting_terms::act_node(alloc, &Action::Put(Var::Free(position)), 0, node)
}

/// The term with each free position replaced by the one that the list has for it, also in the types that are written
/// in the term. A position past the list stays, and so do the places.
pub fn rename(alloc: Global, node: &Rc<Node>, to: &[u32]) -> Result<Rc<Node>, AllocError>
    ensures term { IfOk result (λ n. term_of n.value ≡ renamed_term (renamed_by to.now) (term_of node.now.value)) }
    ensures places { IfOk result (λ n. places_of n.value ≡ places_of node.now.value) }
{
    acting_terms::act_node(alloc, &Action::Rename(to), 0, node)
}

/// The type with each hole filled by the set that the list has for its number. A hole past the list stays.
pub fn fill_type(alloc: Global, ty: &Ty, filling: &[CapSet]) -> Result<Ty, AllocError>
    ensures { IfOk result (λ t. type_of t ≡ filled_type (filled_by filling.now) (type_of ty.now)) }
{
    acting::act_type(alloc, &Action::Fill(filling), 0, ty)
}

/// What is written for a type, with each hole filled by the set that the list has for its number. A hole past the
/// list stays.
pub fn fill_note(alloc: Global, note: &Note, filling: &[CapSet]) -> Result<Note, AllocError>
    ensures { IfOk result (λ n. note_of n ≡ act_note (filling_in (filled_by filling.now)) 0 (note_of note.now)) }
{
    if filling.is_empty() {
        return note.clone();
    }
    acting_terms::act_note(alloc, &Action::Fill(filling), 0, note)
}

/// The term with each hole filled by the set that the list has for its number, also in the types that are written in
/// the term. A hole past the list stays, and so do the places. With an empty list it is the term itself, shared.
pub fn fill_term(alloc: Global, node: &Rc<Node>, filling: &[CapSet]) -> Result<Rc<Node>, AllocError>
    ensures term { IfOk result (λ n. term_of n.value ≡ filled_term (filled_by filling.now) (term_of node.now.value)) }
    ensures places { IfOk result (λ n. places_of n.value ≡ places_of node.now.value) }
{
    if filling.is_empty() {
        return node.clone();
    }
    acting_terms::act_node(alloc, &Action::Fill(filling), 0, node)
}
