//! Pairs of shapes that were compared, of which nothing has to be kept where they come again: in each context that has
//! what a comparison sees of the entries among which they were compared.

ghost use Rattle.std.specs.Prelude.{ℕ, List, ◌≡◌, ◌<◌, true, length, [], IsTrue, IfOk, IfSome};
ghost use Rattle.std.specs.List.{list_all};
ghost use Rattle.cc_base.specs.declared.place.Place.{Place};
ghost use Rattle.cc_core.specs.TermViews.{shape_of, context_of};
ghost use Rattle.cc_core.specs.WellFormed.{IsWellFormedContext};
ghost use Rattle.cc_checking.specs.Comparison.{comparison};
ghost use Rattle.cc_checking.specs.Outcomes.{Placed};
ghost use Rattle.cc_known.specs.ComparedPairs.{is_compared, is_compared_as, IsKept};

use crate::marked::{Compared, compared_by, is_closed_alike, stands_in};
use crate::names::marks_of;
use crate::pairs::copy;
use crate::traces::trace_of_shapes;
use cc_core::same::same_shape;
use cc_core::sizes::shape_size;
use cc_core::{Ctx, Shape};
use std::alloc::{AllocError, Global};
use std::collections::HashMap;

// So many pairs are remembered at most,
const MOST: usize = 1024;

// and fewer where their shapes and the entries of their contexts are more than so many together.
const ROOM: u64 = 262144;

// So many pairs with the same trace are looked at.
const LAST: u32 = 64;

/// The pair of two shapes of the context. Their parts are shared.
pub fn compared_in(
    alloc: Global,
    ctx: &Ctx,
    left: &Shape,
    right: &Shape,
) -> Result<Compared, AllocError>
    ensures { IfOk result (λ pair. (steps : ℕ) (log : List Placed) → is_compared steps log pair ≡ is_compared_as steps log (context_of ctx.now) (shape_of left.now) (shape_of right.now)) }
{
    let context = ctx.clone()?;
    let left = copy(left)?;
    let right = copy(right)?;
    let marks = marks_of(alloc, &context, &left, &right)?;
    Ok(compared_by(context, left, right, marks))
}

// Whether nothing has to be kept of the pair where it comes again in the context.
fn stands(pair: &Compared, ctx: &Ctx) -> bool
    requires { IsWellFormedContext (context_of ctx.now) }
    ensures { IsTrue result → (steps : ℕ) (log : List Placed) (at : Place) → is_compared steps log pair.now ≡ true → IsKept at (comparison steps (context_of ctx.now) (shape_of pair.now.left) (shape_of pair.now.right)) true log log }
{
    if !pair.marked {
        return false;
    }
    if !is_closed_alike(&pair.context, ctx) {
        return false;
    }
    stands_in(pair.marks.as_slice(), &pair.context, ctx)
}

// Whether the pair is that of the two shapes.
fn is_of(pair: &Compared, left: &Shape, right: &Shape) -> bool
    ensures left { IsTrue result → shape_of pair.now.left ≡ shape_of left.now }
    ensures right { IsTrue result → shape_of pair.now.right ≡ shape_of right.now }
{
    if !same_shape(&pair.left, left) {
        return false;
    }
    same_shape(&pair.right, right)
}

// The place of the last pair before this one with the same trace, if there is one.
fn earlier(before: &[Option<usize>], place: usize) -> Option<usize> {
    match before.get(place) {
        Some(earlier) => *earlier,
        None => None,
    }
}

// Whether one of the pairs, at the place or of the last ones with the same trace before it, is that of the two shapes,
// and nothing of their comparison in the context has to be kept.
fn is_among(
    pairs: &[Compared],
    before: &[Option<usize>],
    last: Option<usize>,
    ctx: &Ctx,
    left: &Shape,
    right: &Shape,
) -> bool
    requires { IsWellFormedContext (context_of ctx.now) }
    ensures { IsTrue result → (steps : ℕ) (log : List Placed) (at : Place) → list_all (is_compared steps log) pairs.now ≡ true → IsKept at (comparison steps (context_of ctx.now) (shape_of left.now) (shape_of right.now)) true log log }
{
    let mut next = last;
    for _pair in 0..LAST {
        let Some(place) = next else {
            return false;
        };
        if place >= pairs.len() {
            return false;
        }
        let pair = &pairs[place];
        if is_of(pair, left, right) {
            return stands(pair, ctx);
        }
        next = earlier(before, place);
    }
    false
}

// The place of a pair of the two shapes, at the place or of the last ones with the same trace before it.
fn place_of(
    pairs: &[Compared],
    before: &[Option<usize>],
    last: Option<usize>,
    left: &Shape,
    right: &Shape,
) -> Option<usize>
    ensures { IfSome result (λ place. place < length pairs.now) }
{
    let mut next = last;
    for _pair in 0..LAST {
        let Some(place) = next else {
            return None;
        };
        if place >= pairs.len() {
            return None;
        }
        if is_of(&pairs[place], left, right) {
            return Some(place);
        }
        next = earlier(before, place);
    }
    None
}

// How much room the pair takes: as many parts as its shapes have, and entries as its context.
fn room_of(pair: &Compared) -> u64 {
    shape_size(&pair.left)
        .saturating_add(shape_size(&pair.right))
        .saturating_add(u64::from(pair.context.len()))
}

/// Pairs of shapes that were compared, of which nothing has to be kept where they come again.
#[derive(Drop)]
pub struct ComparedPairs {
    pub pairs: Vec<Compared>,
    // For each of them, where the last one before it with the same trace stands, if there is one.
    before: Vec<Option<usize>>,
    // Where the last pair with a trace stands.
    last: HashMap<u64, usize>,
    // How much room they take.
    room: u64,
}

impl ComparedPairs {
    /// No pair. It takes no memory.
    pub fn new(alloc: Global) -> ComparedPairs
        ensures { result.pairs.items ≡ [] }
    {
        ComparedPairs {
            pairs: Vec::new(alloc),
            before: Vec::new(alloc),
            last: HashMap::new(alloc),
            room: 0,
        }
    }

    /// Whether it is remembered that nothing of the comparison of the two shapes in the context has to be kept.
    pub fn has(&self, ctx: &Ctx, left: &Shape, right: &Shape) -> bool
        requires { IsWellFormedContext (context_of ctx.now) }
        ensures { IsTrue result → (steps : ℕ) (log : List Placed) (at : Place) → list_all (is_compared steps log) self.now.pairs.items ≡ true → IsKept at (comparison steps (context_of ctx.now) (shape_of left.now) (shape_of right.now)) true log log }
    {
        if self.pairs.is_empty() {
            return false;
        }
        let last = self.last.get(&trace_of_shapes(left, right)).copied();
        is_among(
            self.pairs.as_slice(),
            self.before.as_slice(),
            last,
            ctx,
            left,
            right,
        )
    }

    // Puts the pair in the place of another one.
    fn put(&mut self, place: usize, pair: Compared)
        requires { place < length self.old.pairs.items }
        ensures { (steps : ℕ) (log : List Placed) → list_all (is_compared steps log) self.old.pairs.items ≡ true → is_compared steps log pair ≡ true → list_all (is_compared steps log) self.new.pairs.items ≡ true }
    {
        self.pairs[place] = pair;
    }

    // Puts the pair behind the others, with the last one before it with the same trace.
    fn push(
        &mut self,
        trace: u64,
        before: Option<usize>,
        room: u64,
        pair: Compared,
    ) -> Result<(), AllocError>
        ensures { (steps : ℕ) (log : List Placed) → list_all (is_compared steps log) self.old.pairs.items ≡ true → is_compared steps log pair ≡ true → list_all (is_compared steps log) self.new.pairs.items ≡ true }
    {
        let place = self.pairs.len();
        self.before.push(before)?;
        self.pairs.push(pair)?;
        self.room = self.room.saturating_add(room);
        match self.last.insert(trace, place) {
            Ok(_) => Ok(()),
            Err(_) => Err(AllocError),
        }
    }

    // Forgets all pairs.
    fn clear(&mut self)
        ensures { self.new.pairs.items ≡ [] }
    {
        self.pairs.clear();
        self.before.clear();
        self.last.clear();
        self.room = 0;
    }

    // Puts the pair behind the others, or in the place of all of them where there is no room.
    fn add(&mut self, trace: u64, before: Option<usize>, pair: Compared) -> Result<(), AllocError>
        ensures { (steps : ℕ) (log : List Placed) → list_all (is_compared steps log) self.old.pairs.items ≡ true → is_compared steps log pair ≡ true → list_all (is_compared steps log) self.new.pairs.items ≡ true }
    {
        let room = room_of(&pair);
        if self.pairs.len() < MOST && self.room.saturating_add(room) <= ROOM {
            return self.push(trace, before, room, pair);
        }
        self.clear();
        self.push(trace, None, room, pair)
    }

    /// Remembers the pair, in the place of one with the same shapes.
    pub fn remember(&mut self, pair: Compared) -> Result<(), AllocError>
        ensures { (steps : ℕ) (log : List Placed) → list_all (is_compared steps log) self.old.pairs.items ≡ true → is_compared steps log pair ≡ true → list_all (is_compared steps log) self.new.pairs.items ≡ true }
    {
        let trace = trace_of_shapes(&pair.left, &pair.right);
        let last = self.last.get(&trace).copied();
        match place_of(
            self.pairs.as_slice(),
            self.before.as_slice(),
            last,
            &pair.left,
            &pair.right,
        ) {
            Some(place) => {
                self.put(place, pair);
                Ok(())
            }
            None => self.add(trace, last, pair),
        }
    }
}
