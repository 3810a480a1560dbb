//! Reading the parts of a term that was not opened on the way to them, in the context that its binders made; and
//! writing what was found there back into the term. Each call fails only for want of memory, as which an index or
//! binders above one place beyond 2^32 - 1 count.

ghost use Rattle.std.specs.Prelude.{◌≡◌, IfOk};
ghost use Rattle.std.specs.Option.{unwrap_or};
ghost use Rattle.cc_core.specs.Reading as plain;
ghost use Rattle.cc_core.specs.TermViews.{shape_of, type_of, term_of};
ghost use Rattle.cc_core.specs.Places.{places_of};

use crate::acting::{self, Action};
use crate::acting_terms;
use crate::terms::Node;
use crate::types::{Shape, Ty};
use cc_capture::CapSet;
use std::alloc::{AllocError, Global};
use std::rc::Rc;

/// The set as it stands in a context of so many entries: an index that counts a binder outside becomes the position
/// of its entry. One for which there is no entry stays.
pub fn read_set(alloc: Global, set: &CapSet, entries: u32) -> Result<CapSet, AllocError>
    ensures { IfOk result (λ s. s ≡ plain.read_set entries set.now) }
{
    acting::act_set(alloc, &Action::Read(entries), 0, set)
}

/// The same, if it is another set. Nothing is built where it is not.
pub fn read_if_other(
    alloc: Global,
    set: &CapSet,
    entries: u32,
) -> Result<Option<CapSet>, AllocError>
    ensures { IfOk result (λ s. unwrap_or s set.now ≡ plain.read_set entries set.now) }
{
    acting::acted_set(alloc, &Action::Read(entries), 0, set)
}

/// The shape as it stands in a context of so many entries, as `read_set` says of sets.
pub fn read_shape(alloc: Global, shape: &Rc<Shape>, entries: u32) -> Result<Rc<Shape>, AllocError>
    ensures { IfOk result (λ s. shape_of s.value ≡ plain.read_shape entries (shape_of shape.now.value)) }
{
    acting::act_shape(alloc, &Action::Read(entries), 0, shape)
}

/// The type as it stands in a context of so many entries, as `read_set` says of sets.
pub fn read_type(alloc: Global, ty: &Ty, entries: u32) -> Result<Ty, AllocError>
    ensures { IfOk result (λ t. type_of t ≡ plain.read_type entries (type_of ty.now)) }
{
    acting::act_type(alloc, &Action::Read(entries), 0, ty)
}

/// The term as it stands in a context of so many entries, as `read_set` says of sets. The places stay.
pub fn read_term(alloc: Global, node: &Rc<Node>, entries: u32) -> Result<Rc<Node>, AllocError>
    ensures term { IfOk result (λ n. term_of n.value ≡ plain.read_term entries (term_of node.now.value)) }
    ensures places { IfOk result (λ n. places_of n.value ≡ places_of node.now.value) }
{
    acting_terms::act_node(alloc, &Action::Read(entries), 0, node)
}

/// The set as it stands in a term whose binders put the entries from the root on, of so many: a position from the
/// root on becomes the index of its binder. A position that has no entry stays.
pub fn write_set(alloc: Global, set: &CapSet, root: u32, entries: u32) -> Result<CapSet, AllocError>
    ensures { IfOk result (λ s. s ≡ plain.written_set root entries set.now) }
{
    acting::act_set(alloc, &Action::Write(root, entries), 0, set)
}
