//! Pairs of a type variable and a shape that were compared, where they name entries beyond the base. They are
//! remembered as if these entries alone stood on the base. That they stand in a context is tested, so a key that is not
//! the right one costs time alone.

ghost use Rattle.std.specs.Prelude.{ℕ, List, ◌≡◌, ◌+◌, ◌++◌, ◌<◌, ◌≤◌, true, length, IsTrue, IfOk, IfSome, option_map, Some};
ghost use Rattle.std.specs.List.{list_all};
ghost use Rattle.cc_core.specs.Actions.{renamed_by};
ghost use Rattle.cc_core.specs.Contexts.{Context, TermEntry, TypeEntry, lookup};
ghost use Rattle.cc_core.specs.Reading.{read_shape};
ghost use Rattle.cc_core.specs.Shapes.{TypeVariable, AnyShape};
ghost use Rattle.cc_core.specs.Substitution.{renamed, renamed_set, renamed_variable};
ghost use Rattle.cc_core.specs.TermViews.{shape_of, bind_of, context_of};
ghost use Rattle.cc_core.specs.WellFormed.{kinds_of, is_well_formed_entry, IsWellFormedContext, IsWellFormedShape};
ghost use Rattle.cc_checking.specs.Outcomes.{Placed};
ghost use Rattle.cc_known.specs.ComparedAgain.{Embeds, renamed_entry, seen};
ghost use Rattle.cc_known.specs.KeptWalks.{StandsOn, is_matched, is_keyed};

use crate::names::Key;
use crate::pairs::copy;
use crate::steps;
use cc_capture::{CapSet, Var, same_var};
use cc_core::acting::{Action, act_set, act_shape};
use cc_core::reading::read_shape;
use cc_core::same::same_shape;
use cc_core::wellformed::{wf_set, wf_shape};
use cc_core::{Bind, Ctx, Shape};
use std::alloc::{AllocError, Global};
use std::rc::Rc;

/// A type variable and a shape of so many entries on top of a base, of which the comparison matched in so many
/// steps, with demands that need not be kept.
#[derive(Drop)]
pub struct KeyedPair {
    pub variable: Var,
    pub entries: Ctx,
    pub right: Rc<Shape>,
    pub steps: u32,
    pub lost: bool,
    // The last pair before this one with the same trace, if there is one.
    pub before: Option<usize>,
}

/// The shape as it stands in a context of so many entries.
pub fn read_right(alloc: Global, right: &Shape, entries: u32) -> Result<Rc<Shape>, AllocError>
    ensures { IfOk result (λ s. shape_of s.value ≡ read_shape entries (shape_of right.now)) }
{
    let right = Rc::new(alloc, copy(right)?)?;
    read_shape(alloc, &right, entries)
}

// Whether the other set is the set, renamed.
fn is_renamed_set(
    alloc: Global,
    to: &[u32],
    set: &CapSet,
    other: &CapSet,
) -> Result<bool, AllocError>
    ensures { IfOk result (λ b. IsTrue b → other.now ≡ renamed_set (renamed_by to.now) set.now) }
{
    let set = act_set(alloc, &Action::Rename(to), 0, set)?;
    Ok(*other == set)
}

// Whether the other shape is the shape, renamed.
fn is_renamed(
    alloc: Global,
    to: &[u32],
    shape: &Rc<Shape>,
    other: &Rc<Shape>,
) -> Result<bool, AllocError>
    ensures { IfOk result (λ b. IsTrue b → shape_of other.now.value ≡ renamed (renamed_by to.now) (shape_of shape.now.value)) }
{
    let shape = act_shape(alloc, &Action::Rename(to), 0, shape)?;
    Ok(same_shape(other, &shape))
}

// Whether what the other entry declares is the set, renamed.
fn is_declared(alloc: Global, to: &[u32], set: &CapSet, other: &Bind) -> Result<bool, AllocError>
    ensures { IfOk result (λ b. IsTrue b → seen (bind_of other.now) ≡ TermEntry AnyShape (renamed_set (renamed_by to.now) set.now)) }
{
    match other {
        Bind::Var(ty) => is_renamed_set(alloc, to, set, &ty.set),
        Bind::TVar(_) => Ok(false),
        Bind::Unread { set: declared, .. } => is_renamed_set(alloc, to, set, declared),
    }
}

// Whether the other entry has the bound, renamed.
fn is_bound(alloc: Global, to: &[u32], bound: &Rc<Shape>, other: &Bind) -> Result<bool, AllocError>
    ensures { IfOk result (λ b. IsTrue b → seen (bind_of other.now) ≡ TypeEntry (renamed (renamed_by to.now) (shape_of bound.now.value))) }
{
    match other {
        Bind::Var(_) => Ok(false),
        Bind::TVar(declared) => is_renamed(alloc, to, bound, declared),
        Bind::Unread { .. } => Ok(false),
    }
}

// Whether what is seen of the other entry is what is seen of the entry, renamed.
fn is_entry(alloc: Global, to: &[u32], bind: &Bind, other: &Bind) -> Result<bool, AllocError>
    ensures { IfOk result (λ b. IsTrue b → seen (bind_of other.now) ≡ renamed_entry (renamed_by to.now) (seen (bind_of bind.now))) }
{
    match bind {
        Bind::Var(ty) => is_declared(alloc, to, &ty.set, other),
        Bind::TVar(bound) => is_bound(alloc, to, bound, other),
        Bind::Unread { set, .. } => is_declared(alloc, to, set, other),
    }
}

// Whether what is seen of an entry stands in the context at the position, renamed.
fn stands_at(
    alloc: Global,
    entries: &Ctx,
    index: u32,
    ctx: &Ctx,
    at: u32,
    to: &[u32],
) -> Result<bool, AllocError>
    ensures { IfOk result (λ b. IsTrue b → option_map seen (lookup (context_of ctx.now) at) ≡ option_map (λ entry. renamed_entry (renamed_by to.now) (seen entry)) (lookup (context_of entries.now) index)) }
{
    match entries.get(index) {
        Some(bind) => match ctx.get(at) {
            Some(other) => is_entry(alloc, to, bind, other),
            None => Ok(false),
        },
        None => Ok(false),
    }
}

// The place that the list has for the position, if it has one.
fn place_of(to: &[u32], position: u32) -> Option<u32>
    ensures { IfSome result (λ at. at ≡ renamed_by to.now position) }
{
    match to.get(position as usize) {
        Some(at) => Some(*at),
        None => None,
    }
}

// Whether so many positions stay.
fn stays(to: &[u32], base: u32) -> bool
    ensures { IsTrue result → (position : ℕ) → position < base → renamed_by to.now position ≡ position }
{
    for position in 0..base {
        match place_of(to, position) {
            Some(at) => {
                if at != position {
                    return false;
                }
            }
            None => return false,
        }
    }
    true
}

// The sum of two numbers.
fn sum(first: u32, second: u32) -> Result<u32, AllocError>
    ensures { IfOk result (λ s. s ≡ first + second) }
{
    first.checked_add(second).ok_or(AllocError)
}

// Whether each of the entries on top of the base stands in the context, at the place that the list has for it. The
// places rise.
fn entries_stand(
    alloc: Global,
    base: &Ctx,
    entries: &Ctx,
    ctx: &Ctx,
    to: &[u32],
) -> Result<bool, AllocError>
    requires context { IsWellFormedContext (context_of ctx.now) }
    requires base { StandsOn (context_of base.now) (context_of ctx.now) }
    requires stays { (position : ℕ) → position < length (context_of base.now) → renamed_by to.now position ≡ position }
    ensures { IfOk result (λ b. IsTrue b → Embeds (context_of entries.now ++ context_of base.now) (context_of ctx.now) (renamed_by to.now)) }
{
    let first = steps::entries(base);
    let mut next = first;
    for index in 0..steps::entries(entries) {
        let position = sum(first, index)?;
        let Some(at) = place_of(to, position) else {
            return Ok(false);
        };
        if at < next {
            return Ok(false);
        }
        if !stands_at(alloc, entries, index, ctx, at, to)? {
            return Ok(false);
        }
        next = sum(at, 1)?;
    }
    Ok(true)
}

// Whether the entries on top of the base stand in the context, and those of the base where they are.
fn stand_in(
    alloc: Global,
    base: &Ctx,
    entries: &Ctx,
    ctx: &Ctx,
    to: &[u32],
) -> Result<bool, AllocError>
    requires context { IsWellFormedContext (context_of ctx.now) }
    requires base { StandsOn (context_of base.now) (context_of ctx.now) }
    ensures { IfOk result (λ b. IsTrue b → Embeds (context_of entries.now ++ context_of base.now) (context_of ctx.now) (renamed_by to.now)
        × ((position : ℕ) → position < length (context_of base.now) → renamed_by to.now position ≡ position)) }
{
    if stays(to, steps::entries(base)) {
        entries_stand(alloc, base, entries, ctx, to)
    } else {
        Ok(false)
    }
}

// Whether the other variable is the variable, renamed.
fn is_renamed_name(to: &[u32], variable: Var, other: Var) -> bool
    ensures { IsTrue result → other ≡ renamed_variable (renamed_by to.now) variable }
{
    let Some(renamed) = renamed_name(to, variable) else {
        return false;
    };
    same_var(other, renamed)
}

// The variable, renamed, where the list has its position.
fn renamed_name(to: &[u32], variable: Var) -> Option<Var>
    ensures { IfSome result (λ v. v ≡ renamed_variable (renamed_by to.now) variable) }
{
    match variable {
        Var::Bound(_) => Some(variable),
        Var::Free(position) => match place_of(to, position) {
            Some(at) => Some(Var::Free(at)),
            None => None,
        },
    }
}

// Whether the pair is that of the variable, renamed, in as many steps at most.
fn is_of(pair: &KeyedPair, to: &[u32], variable: Var, steps: u32, lost: bool) -> bool
    ensures variable { IsTrue result → variable ≡ renamed_variable (renamed_by to.now) pair.now.variable }
    ensures steps { IsTrue result → pair.now.steps ≤ steps }
    ensures lost { IsTrue result → pair.now.lost ≡ lost }
{
    if pair.lost != lost {
        return false;
    }
    if pair.steps > steps {
        return false;
    }
    is_renamed_name(to, pair.variable, variable)
}

// Whether the pair is that of the variable and a shape of the context, where its entries stand at these places.
fn is_met(
    alloc: Global,
    pair: &KeyedPair,
    base: &Ctx,
    ctx: &Ctx,
    to: &[u32],
    variable: Var,
    right: &Rc<Shape>,
    steps: u32,
    lost: bool,
) -> Result<bool, AllocError>
    requires context { IsWellFormedContext (context_of ctx.now) }
    requires base { StandsOn (context_of base.now) (context_of ctx.now) }
    ensures { IfOk result (λ b. IsTrue b → (log : List Placed) → is_keyed log (context_of base.now) pair.now ≡ true → is_matched (length (context_of base.now)) log (context_of ctx.now) lost steps variable (shape_of right.now.value) ≡ true) }
{
    if !is_of(pair, to, variable, steps, lost) {
        return Ok(false);
    }
    if !is_renamed(alloc, to, &pair.right, right)? {
        return Ok(false);
    }
    stand_in(alloc, base, &pair.entries, ctx, to)
}

/// Whether one of the pairs, at the place or of those with the same trace before it, is that of the variable and the
/// shape of the context, in as many steps at most.
pub(crate) fn is_among(
    alloc: Global,
    pairs: &[KeyedPair],
    last: Option<usize>,
    base: &Ctx,
    ctx: &Ctx,
    to: &[u32],
    variable: Var,
    right: &Rc<Shape>,
    steps: u32,
    lost: bool,
) -> Result<bool, AllocError>
    requires context { IsWellFormedContext (context_of ctx.now) }
    requires base { StandsOn (context_of base.now) (context_of ctx.now) }
    ensures { IfOk result (λ b. IsTrue b → (log : List Placed) → list_all (is_keyed log (context_of base.now)) pairs.now ≡ true → is_matched (length (context_of base.now)) log (context_of ctx.now) lost steps variable (shape_of right.now.value) ≡ true) }
{
    let mut limit = pairs.len();
    let mut next = last;
    while let Some(place) = next {
        if place >= limit {
            return Ok(false);
        }
        let pair = &pairs[place];
        if is_met(alloc, pair, base, ctx, to, variable, right, steps, lost)? {
            return Ok(true);
        }
        limit = place;
        next = pair.before;
    }
    Ok(false)
}

// Entries on top of a base, alone and with it.
#[derive(Drop)]
struct Entries {
    own: Ctx,
    whole: Ctx,
}

// Whether the entry, as it stands in a key, is well formed in the context.
fn is_well_formed(alloc: Global, ctx: &Ctx, bind: &Bind) -> Result<bool, AllocError>
    ensures { IfOk result (λ w. IsTrue w → is_well_formed_entry (kinds_of (context_of ctx.now)) (bind_of bind.now) ≡ true) }
{
    match bind {
        Bind::Var(ty) => {
            let fits = wf_shape(alloc, ctx, &ty.shape)?;
            Ok(fits && wf_set(ctx, &ty.set))
        }
        Bind::TVar(bound) => wf_shape(alloc, ctx, bound),
        Bind::Unread { .. } => Ok(false),
    }
}

// The same entry. Its shape is shared.
pub(crate) fn copy_entry(bind: &Bind) -> Result<Bind, AllocError>
    ensures { IfOk result (λ b. bind_of b ≡ bind_of bind.now) }
{
    match bind {
        Bind::Var(ty) => Ok(Bind::Var(ty.clone()?)),
        Bind::TVar(bound) => Ok(Bind::TVar(bound.clone()?)),
        Bind::Unread {
            shape,
            set,
            entries,
        } => {
            let shape = shape.clone()?;
            let set = set.clone()?;
            Ok(Bind::Unread {
                shape,
                set,
                entries: *entries,
            })
        }
    }
}

// One entry more, if it is well formed.
fn with_entry(alloc: Global, before: &Entries, bind: &Bind) -> Result<Option<Entries>, AllocError>
    requires { IsWellFormedContext (context_of before.now.whole) }
    ensures formed { IfOk result (λ o. IfSome o (λ e. IsWellFormedContext (context_of e.whole))) }
    ensures stands { IfOk result (λ o. IfSome o (λ e. (base : Context) → context_of before.now.whole ≡ context_of before.now.own ++ base → context_of e.whole ≡ context_of e.own ++ base)) }
{
    if !is_well_formed(alloc, &before.whole, bind)? {
        return Ok(None);
    }
    let first = copy_entry(bind)?;
    let second = copy_entry(bind)?;
    let own = before.own.push(alloc, first)?;
    let whole = before.whole.push(alloc, second)?;
    Ok(Some(Entries { own, whole }))
}

// The entries on top of the base, if they are well formed.
fn entries_of(alloc: Global, base: &Ctx, binds: &[Bind]) -> Result<Option<Entries>, AllocError>
    requires { IsWellFormedContext (context_of base.now) }
    ensures formed { IfOk result (λ o. IfSome o (λ e. IsWellFormedContext (context_of e.whole))) }
    ensures stands { IfOk result (λ o. IfSome o (λ e. context_of e.whole ≡ context_of e.own ++ context_of base.now)) }
{
    let own = Ctx::new();
    let whole = base.clone()?;
    let mut entries = Entries { own, whole };
    for bind in binds.iter() {
        match with_entry(alloc, &entries, bind)? {
            Some(more) => entries = more,
            None => return Ok(None),
        }
    }
    Ok(Some(entries))
}

// Whether the shape is well formed in the context.
fn is_well_formed_shape(alloc: Global, ctx: &Ctx, shape: &Rc<Shape>) -> Result<bool, AllocError>
    ensures { IfOk result (λ w. IsTrue w → IsWellFormedShape (context_of ctx.now) (shape_of shape.now.value)) }
{
    wf_shape(alloc, ctx, shape)
}

// Whether the variable is a type variable of the context.
fn is_name(alloc: Global, ctx: &Ctx, variable: Var) -> Result<bool, AllocError>
    ensures { IfOk result (λ w. IsTrue w → IsWellFormedShape (context_of ctx.now) (TypeVariable variable)) }
{
    let name = Shape::TVar(variable);
    wf_shape(alloc, ctx, &name)
}

// The same shape, shared.
fn share(shape: &Rc<Shape>) -> Result<Rc<Shape>, AllocError>
    ensures { IfOk result (λ s. shape_of s.value ≡ shape_of shape.now.value) }
{
    shape.clone()
}

// The pair of the variable and a shape of the context, by its key, if that is the right one.
fn pair_with(
    alloc: Global,
    base: &Ctx,
    ctx: &Ctx,
    entries: Entries,
    key: &Key,
    variable: Var,
    right: &Rc<Shape>,
    steps: u32,
    lost: bool,
    before: Option<usize>,
) -> Result<Option<KeyedPair>, AllocError>
    requires context { IsWellFormedContext (context_of ctx.now) }
    requires base { StandsOn (context_of base.now) (context_of ctx.now) }
    requires formed { IsWellFormedContext (context_of entries.whole) }
    requires whole { context_of entries.whole ≡ context_of entries.own ++ context_of base.now }
    ensures { IfOk result (λ o. IfSome o (λ pair. (log : List Placed) → is_matched (length (context_of base.now)) log (context_of ctx.now) lost steps variable (shape_of right.now.value) ≡ true → is_keyed log (context_of base.now) pair ≡ true)) }
{
    if !is_name(alloc, &entries.whole, key.variable)? {
        return Ok(None);
    }
    if !is_well_formed_shape(alloc, &entries.whole, &key.right)? {
        return Ok(None);
    }
    let to = key.places.as_slice();
    if !is_renamed_name(to, key.variable, variable) {
        return Ok(None);
    }
    if !is_renamed(alloc, to, &key.right, right)? {
        return Ok(None);
    }
    if !stand_in(alloc, base, &entries.own, ctx, to)? {
        return Ok(None);
    }
    let shared = share(&key.right)?;
    Ok(Some(KeyedPair {
        variable: key.variable,
        entries: entries.own,
        right: shared,
        steps,
        lost,
        before,
    }))
}

/// The pair of the variable and a shape of the context, by its key, if that is the right one.
pub(crate) fn pair_of(
    alloc: Global,
    base: &Ctx,
    ctx: &Ctx,
    key: &Key,
    variable: Var,
    right: &Rc<Shape>,
    steps: u32,
    lost: bool,
    before: Option<usize>,
) -> Result<Option<KeyedPair>, AllocError>
    requires context { IsWellFormedContext (context_of ctx.now) }
    requires base { StandsOn (context_of base.now) (context_of ctx.now) }
    ensures { IfOk result (λ o. IfSome o (λ pair. (log : List Placed) → is_matched (length (context_of base.now)) log (context_of ctx.now) lost steps variable (shape_of right.now.value) ≡ true → is_keyed log (context_of base.now) pair ≡ true)) }
{
    match entries_of(alloc, base, key.entries.as_slice())? {
        Some(entries) => pair_with(
            alloc, base, ctx, entries, key, variable, right, steps, lost, before,
        ),
        None => Ok(None),
    }
}
