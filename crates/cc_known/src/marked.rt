//! The entries by which the comparison of two shapes goes, by marks at their positions: those that the shapes name, and
//! those by which these are declared. Of two contexts that have them the comparison sees the same.

ghost use Rattle.std.specs.Prelude.{◌≡◌, true, false, IsTrue};
ghost use Rattle.std.specs.List.{list_all};
ghost use Rattle.std.specs.Option.{option_map};
ghost use Rattle.cc_core.specs.Contexts.{TermEntry, TypeEntry, lookup};
ghost use Rattle.cc_core.specs.Questions.{occurs, occurs_in_type};
ghost use Rattle.cc_core.specs.Shapes.{AnyShape};
ghost use Rattle.cc_core.specs.TermViews.{shape_of, type_of, bind_of, context_of};
ghost use Rattle.cc_known.specs.ComparedAgain.{seen};
ghost use Rattle.cc_known.specs.MarkedEntries as marked;
ghost use Rattle.cc_known.specs.MarkedEntries.{unmarked, occurs_in_entry, occurs_where, DeclaresMarked, GoesBy, StandsMarked, IsClosedAlike};

use cc_capture::{CapSet, Elem, Var};
use cc_core::same::same_shape;
use cc_core::{Bind, Ctx, Shape, Ty};

/// Two shapes of a context, of whose comparison nothing has to be kept.
#[derive(Drop)]
pub struct Compared {
    pub context: Ctx,
    pub left: Shape,
    pub right: Shape,
    // Marks at positions of the context, and whether the two go by the entries there.
    pub(crate) marks: Vec<bool>,
    pub(crate) marked: bool,
    ghost goes: { marked ≡ true → GoesBy marks.items (context_of context) (shape_of left) (shape_of right) },
}

/// The pair of the two shapes of the context, with marks at positions.
pub(crate) fn compared_by(context: Ctx, left: Shape, right: Shape, marks: Vec<bool>) -> Compared
    ensures context { result.context ≡ context }
    ensures left { result.left ≡ left }
    ensures right { result.right ≡ right }
{
    let marked = goes_by(marks.as_slice(), &context, &left, &right);
    Compared {
        context,
        left,
        right,
        marks,
        marked,
    }
}

// Whether the position has a mark.
fn is_marked(marks: &[bool], position: u32) -> bool
    ensures { result ≡ marked.is_marked marks.now position }
{
    match marks.get(position as usize) {
        Some(mark) => *mark,
        None => false,
    }
}

// Whether the variable has, if it is free.
fn is_marked_variable(marks: &[bool], variable: Var) -> bool
    ensures { result ≡ marked.is_marked_variable marks.now variable }
{
    match variable {
        Var::Free(position) => is_marked(marks, position),
        Var::Bound(_) => true,
    }
}

// The same of an element that is a variable.
fn is_marked_element(marks: &[bool], elem: Elem) -> bool
    ensures { result ≡ marked.is_marked_element marks.now elem }
{
    match elem {
        Elem::Var(variable) => is_marked_variable(marks, variable),
        Elem::Cap => true,
        Elem::Hole(_) => true,
    }
}

// Whether all variables of the set have marks.
fn are_marked(marks: &[bool], set: &CapSet) -> bool
    ensures { result ≡ list_all (marked.is_marked_element marks.now) set.now.list }
{
    for elem in set.iter() {
        if !is_marked_element(marks, elem) {
            return false;
        }
    }
    true
}

// Whether a position without a mark is in the set.
fn is_in_set(marks: &[bool], set: &CapSet) -> bool
    ensures { result ≡ (unmarked marks.now).in_set set.now }
{
    !are_marked(marks, set)
}

// Whether one occurs in the shape.
#[cycle(unmarked)]
fn is_in_shape(marks: &[bool], shape: &Shape) -> bool
    ensures { result ≡ occurs (unmarked marks.now) (shape_of shape.now) }
{
    match shape {
        Shape::Base(_) => false,
        Shape::Any => false,
        Shape::TVar(variable) => !is_marked_variable(marks, *variable),
        Shape::Fun(takes, gives) => is_in_type(marks, takes) || is_in_type(marks, gives),
        Shape::TFun(bound, gives) => is_in_shape(marks, bound) || is_in_type(marks, gives),
        Shape::Boxed(content) => is_in_type(marks, content),
        Shape::Exit(gives) => is_in_shape(marks, gives),
    }
}

// Whether one occurs in the type.
#[cycle(unmarked)]
fn is_in_type(marks: &[bool], ty: &Ty) -> bool
    ensures { result ≡ occurs_in_type (unmarked marks.now) (type_of ty.now) }
{
    is_in_shape(marks, &ty.shape) || is_in_set(marks, &ty.set)
}

// Whether one occurs in what a comparison sees of the entry.
fn is_in_entry(marks: &[bool], bind: &Bind) -> bool
    ensures { result ≡ occurs_in_entry (unmarked marks.now) (bind_of bind.now) }
{
    match bind {
        Bind::Var(ty) => is_in_set(marks, &ty.set),
        Bind::TVar(bound) => is_in_shape(marks, bound),
        Bind::Unread { set, .. } => is_in_set(marks, set),
    }
}

// Whether one occurs in what a comparison sees of the entry at the position.
fn is_in_entry_at(marks: &[bool], ctx: &Ctx, position: u32) -> bool
    ensures { result ≡ occurs_where (unmarked marks.now) (lookup (context_of ctx.now) position) }
{
    match ctx.get(position) {
        Some(bind) => is_in_entry(marks, bind),
        None => false,
    }
}

// Whether the entry at the position has no mark, or is declared by entries with marks alone.
fn declares_at(marks: &[bool], ctx: &Ctx, position: u32) -> bool
    ensures { IsTrue result → marked.is_marked marks.now position ≡ true → occurs_where (unmarked marks.now) (lookup (context_of ctx.now) position) ≡ false }
{
    if !is_marked(marks, position) {
        return true;
    }
    !is_in_entry_at(marks, ctx, position)
}

// Whether each entry with a mark is declared by such entries alone.
fn declares_marked(marks: &[bool], ctx: &Ctx) -> bool
    ensures { IsTrue result → DeclaresMarked marks.now (context_of ctx.now) }
{
    let mut rest = ctx.len();
    while rest > 0 {
        rest -= 1;
        if !declares_at(marks, ctx, rest) {
            return false;
        }
    }
    true
}

// Whether two shapes of the context go by the entries with marks.
fn goes_by(marks: &[bool], ctx: &Ctx, left: &Shape, right: &Shape) -> bool
    ensures { IsTrue result → GoesBy marks.now (context_of ctx.now) (shape_of left.now) (shape_of right.now) }
{
    if is_in_shape(marks, left) {
        return false;
    }
    if is_in_shape(marks, right) {
        return false;
    }
    declares_marked(marks, ctx)
}

// Whether the other entry has this declared set.
fn declares(set: &CapSet, other: &Bind) -> bool
    ensures { IsTrue result → seen (bind_of other.now) ≡ TermEntry AnyShape set.now }
{
    match other {
        Bind::Var(ty) => ty.set == *set,
        Bind::TVar(_) => false,
        Bind::Unread { set: declared, .. } => *declared == *set,
    }
}

// Whether the other entry has this bound.
fn has_bound(bound: &Shape, other: &Bind) -> bool
    ensures { IsTrue result → seen (bind_of other.now) ≡ TypeEntry (shape_of bound.now) }
{
    match other {
        Bind::Var(_) => false,
        Bind::TVar(declared) => same_shape(declared, bound),
        Bind::Unread { .. } => false,
    }
}

// Whether a comparison sees the same of both entries.
fn is_seen_alike(bind: &Bind, other: &Bind) -> bool
    ensures { IsTrue result → seen (bind_of other.now) ≡ seen (bind_of bind.now) }
{
    match bind {
        Bind::Var(ty) => declares(&ty.set, other),
        Bind::TVar(bound) => has_bound(bound, other),
        Bind::Unread { set, .. } => declares(set, other),
    }
}

// Whether it sees the same of both contexts at the position.
fn stands_at(small: &Ctx, ctx: &Ctx, position: u32) -> bool
    ensures { IsTrue result → option_map seen (lookup (context_of ctx.now) position) ≡ option_map seen (lookup (context_of small.now) position) }
{
    match small.get(position) {
        Some(bind) => match ctx.get(position) {
            Some(other) => is_seen_alike(bind, other),
            None => false,
        },
        None => false,
    }
}

// Whether the position has no mark, or the comparison sees the same of both contexts there.
fn stands_if_marked(marks: &[bool], small: &Ctx, ctx: &Ctx, position: u32) -> bool
    ensures { IsTrue result → marked.is_marked marks.now position ≡ true → option_map seen (lookup (context_of ctx.now) position) ≡ option_map seen (lookup (context_of small.now) position) }
{
    if !is_marked(marks, position) {
        return true;
    }
    stands_at(small, ctx, position)
}

/// Whether it sees the entries of the one context that have marks in the other, where they are. The newest are looked
/// at first: two contexts of one text mostly have the oldest entries in common.
pub(crate) fn stands_in(marks: &[bool], small: &Ctx, ctx: &Ctx) -> bool
    ensures { IsTrue result → StandsMarked marks.now (context_of small.now) (context_of ctx.now) }
{
    let mut rest = small.len();
    while rest > 0 {
        rest -= 1;
        if !stands_if_marked(marks, small, ctx, rest) {
            return false;
        }
    }
    true
}

/// Whether the other context is no shorter, and as far as the small one goes, has as many entries before all with holes.
pub(crate) fn is_closed_alike(small: &Ctx, ctx: &Ctx) -> bool
    ensures { IsTrue result → IsClosedAlike (context_of small.now) (context_of ctx.now) }
{
    if ctx.len() < small.len() {
        return false;
    }
    if small.closed() < small.len() {
        return ctx.closed() == small.closed();
    }
    ctx.closed() >= small.len()
}
