//! What is known on the way through a comparison.

ghost use Rattle.std.specs.Prelude.{◌≡◌, ◌<◌, ◌≤◌, true, List, [], length, IsTrue, IfOk, OnOk, IfSome};
ghost use Rattle.std.specs.List.{list_all};
ghost use Rattle.cc_core.specs.Contexts.{Context};
ghost use Rattle.cc_core.specs.TermViews.{shape_of, context_of};
ghost use Rattle.cc_checking.specs.Outcomes.{Placed};
ghost use Rattle.cc_known.specs.EndedDemands.{IsEndedIn, is_known_end};
ghost use Rattle.cc_core.specs.WellFormed.{IsWellFormedContext};
ghost use Rattle.cc_known.specs.KeptWalks.{IsKnown, StandsOn, is_keyed, is_matched, is_remembered, is_remembered_as};

use crate::ended::{EndedDemand, number_of};
use crate::keys::{self, KeyedPair};
use crate::names::Key;
use crate::pairs::{Pair, is_among, pair_of};
use crate::traces::trace_of;
use cc_capture::{CapSet, Var};
use cc_core::{Ctx, Shape};
use std::alloc::{AllocError, Global};
use std::collections::HashMap;
use std::rc::Rc;

// For so many places the ends of a set are known.
const PLACES: usize = 64;

/// A left set and a right set, and what fillings over the globals see of their demand.
#[derive(Drop)]
pub struct KnownEnds {
    pub left: CapSet,
    pub right: CapSet,
    pub demand: EndedDemand,
}

// Sets without members, which have no ends.
fn no_ends(alloc: Global) -> KnownEnds
    ensures { (context : Context) → is_known_end context result ≡ true }
{
    let left = CapSet::new(alloc);
    let upper = CapSet::new(alloc);
    let ends = CapSet::new(alloc);
    let right = CapSet::new(alloc);
    KnownEnds {
        left,
        right: upper,
        demand: EndedDemand { ends, right },
    }
}

// The same at all places.
fn no_ends_anywhere(alloc: Global) -> Result<Vec<KnownEnds>, AllocError>
    ensures known { IfOk result (λ s. (context : Context) → list_all (is_known_end context) s.items ≡ true) }
    ensures long { IfOk result (λ s. PLACES ≤ length s.items) }
{
    let mut sets = Vec::new(alloc);
    while sets.len() < PLACES {
        let known = no_ends(alloc);
        sets.push(known)?;
    }
    Ok(sets)
}

// A left set and a right set with the ends that they have in the context.
fn known_ends(base: &Ctx, left: CapSet, right: CapSet, demand: EndedDemand) -> KnownEnds
    requires { IsEndedIn (context_of base.now) left right demand }
    ensures { is_known_end (context_of base.now) result ≡ true }
{
    KnownEnds {
        left,
        right,
        demand,
    }
}

// The demand, where it is that of the two sets.
fn ends_if<'a>(known: &'a KnownEnds, left: &CapSet, right: &CapSet) -> Option<&'a EndedDemand>
    ensures { IfSome result (λ d. (context : Context) → is_known_end context known.now ≡ true → IsEndedIn context left.now right.now d.now) }
{
    if known.left == *left && known.right == *right {
        Some(&known.demand)
    } else {
        None
    }
}

// The number of the last member.
fn newest(set: &CapSet) -> u32 {
    match set.get(set.len().saturating_sub(1)) {
        Some(elem) => number_of(elem),
        None => 0,
    }
}

// The place of two sets, by their last members.
fn place_of(left: &CapSet, right: &CapSet) -> usize
    ensures { result < PLACES }
{
    let number = newest(left).wrapping_mul(31).wrapping_add(newest(right));
    number as usize % PLACES
}

/// Two sets of which the left one was found to be below the right one, pairs of a type variable and a shape that were
/// found to match, and sets whose ends were found, in the context in which a comparison began. So it is in each context
/// on top of that one.
#[derive(Drop)]
pub struct Known {
    pub base: Ctx,
    pub left: CapSet,
    pub right: CapSet,
    pub pairs: Vec<Pair>,
    // Where the last pair with a trace stands.
    pub last: HashMap<u64, usize>,
    pub sets: Vec<KnownEnds>,
    // The pairs that name more than the base has, and where the last one with a trace stands.
    pub keyed: Vec<KeyedPair>,
    pub last_keyed: HashMap<u64, usize>,
    pub ghost known: { IsKnown (context_of base) left right },
    pub ghost ended: { list_all (is_known_end (context_of base)) sets.items ≡ true },
}

impl Known {
    /// Nothing but that the set without elements is below itself.
    pub fn new(alloc: Global, base: Ctx) -> Known
        ensures base { result.base ≡ base }
        ensures pairs { result.pairs.items ≡ [] }
        ensures keyed { result.keyed.items ≡ [] }
    {
        Known {
            base,
            left: CapSet::new(alloc),
            right: CapSet::new(alloc),
            pairs: Vec::new(alloc),
            last: HashMap::new(alloc),
            sets: Vec::new(alloc),
            keyed: Vec::new(alloc),
            last_keyed: HashMap::new(alloc),
        }
    }

    /// Whether these are the two sets.
    pub fn has(&self, left: &CapSet, right: &CapSet) -> bool
        ensures { IsTrue result → IsKnown (context_of self.now.base) left.now right.now }
    {
        *left == self.left && *right == self.right
    }

    /// Keeps in mind that the left set is below the right one.
    pub fn learn(&mut self, left: CapSet, right: CapSet)
        requires { IsKnown (context_of self.old.base) left right }
        ensures base { self.new.base ≡ self.old.base }
        ensures pairs { self.new.pairs ≡ self.old.pairs }
        ensures keyed { self.new.keyed ≡ self.old.keyed }
    {
        self.left = left;
        self.right = right;
    }

    /// Whether the variable and the shape are remembered to match in so many steps.
    pub fn matches(&self, variable: Var, right: &Shape, steps: u32, lost: bool) -> bool
        ensures { IsTrue result → (log : List Placed) → list_all (is_remembered log (context_of self.now.base)) self.now.pairs.items ≡ true → IsTrue (is_remembered_as (length (context_of self.now.base)) log (context_of self.now.base) lost steps variable (shape_of right.now)) }
    {
        if self.pairs.is_empty() {
            return false;
        }
        let last = self.last.get(&trace_of(variable, right)).copied();
        is_among(self.pairs.as_slice(), last, variable, right, steps, lost)
    }

    /// Remembers that the variable and the shape match in so many steps.
    pub fn remember(
        &mut self,
        variable: Var,
        right: &Shape,
        steps: u32,
        lost: bool,
    ) -> Result<(), AllocError>
        ensures base { self.new.base ≡ self.old.base }
        ensures pairs { (log : List Placed) → list_all (is_remembered log (context_of self.old.base)) self.old.pairs.items ≡ true → IsTrue (is_remembered_as (length (context_of self.old.base)) log (context_of self.old.base) lost steps variable (shape_of right.now)) → list_all (is_remembered log (context_of self.old.base)) self.new.pairs.items ≡ true }
        ensures keyed { self.new.keyed ≡ self.old.keyed }
    {
        let trace = trace_of(variable, right);
        let before = self.last.get(&trace).copied();
        let place = self.pairs.len();
        let pair = pair_of(variable, right, steps, lost, before)?;
        self.pairs.push(pair)?;
        match self.last.insert(trace, place) {
            Ok(_) => Ok(()),
            Err(_) => Err(AllocError),
        }
    }

    /// Whether the variable and the shape of the context are remembered to match in so many steps, by their key.
    pub fn matches_keyed(
        &self,
        alloc: Global,
        ctx: &Ctx,
        key: &Key,
        variable: Var,
        right: &Rc<Shape>,
        steps: u32,
        lost: bool,
    ) -> Result<bool, AllocError>
        requires context { IsWellFormedContext (context_of ctx.now) }
        requires base { StandsOn (context_of self.now.base) (context_of ctx.now) }
        ensures { IfOk result (λ b. IsTrue b → (log : List Placed) → list_all (is_keyed log (context_of self.now.base)) self.now.keyed.items ≡ true → is_matched (length (context_of self.now.base)) log (context_of ctx.now) lost steps variable (shape_of right.now.value) ≡ true) }
    {
        let last = self.last_keyed.get(&key.trace).copied();
        keys::is_among(
            alloc,
            self.keyed.as_slice(),
            last,
            &self.base,
            ctx,
            key.places.as_slice(),
            variable,
            right,
            steps,
            lost,
        )
    }

    // Remembers the pair, by its trace.
    fn add_keyed(&mut self, trace: u64, pair: KeyedPair) -> Result<(), AllocError>
        ensures base { self.new.base ≡ self.old.base }
        ensures pairs { self.new.pairs ≡ self.old.pairs }
        ensures keyed { (log : List Placed) → list_all (is_keyed log (context_of self.old.base)) self.old.keyed.items ≡ true → is_keyed log (context_of self.old.base) pair ≡ true → list_all (is_keyed log (context_of self.old.base)) self.new.keyed.items ≡ true }
    {
        let place = self.keyed.len();
        self.keyed.push(pair)?;
        match self.last_keyed.insert(trace, place) {
            Ok(_) => Ok(()),
            Err(_) => Err(AllocError),
        }
    }

    /// Remembers by their key that the variable and the shape of the context match in so many steps.
    pub fn remember_keyed(
        &mut self,
        alloc: Global,
        ctx: &Ctx,
        key: &Key,
        variable: Var,
        right: &Rc<Shape>,
        steps: u32,
        lost: bool,
    ) -> Result<(), AllocError>
        requires context { IsWellFormedContext (context_of ctx.now) }
        requires base { StandsOn (context_of self.old.base) (context_of ctx.now) }
        ensures base { self.new.base ≡ self.old.base }
        ensures pairs { self.new.pairs ≡ self.old.pairs }
        ensures keyed { (log : List Placed) → list_all (is_keyed log (context_of self.old.base)) self.old.keyed.items ≡ true → is_matched (length (context_of self.old.base)) log (context_of ctx.now) lost steps variable (shape_of right.now.value) ≡ true → list_all (is_keyed log (context_of self.old.base)) self.new.keyed.items ≡ true }
    {
        let before = self.last_keyed.get(&key.trace).copied();
        match keys::pair_of(
            alloc, &self.base, ctx, key, variable, right, steps, lost, before,
        )? {
            Some(pair) => self.add_keyed(key.trace, pair),
            None => Ok(()),
        }
    }

    /// The demand of the two sets by its ends, where that is known.
    pub fn ended(&self, left: &CapSet, right: &CapSet) -> Option<&EndedDemand>
        ensures { IfSome result (λ d. IsEndedIn (context_of self.now.base) left.now right.now d.now) }
    {
        if self.sets.is_empty() {
            return None;
        }
        match self.sets.get(place_of(left, right)) {
            Some(known) => ends_if(known, left, right),
            None => None,
        }
    }

    // Makes room for all places.
    fn make_room(&mut self, alloc: Global) -> Result<(), AllocError>
        ensures base { self.new.base ≡ self.old.base }
        ensures pairs { self.new.pairs ≡ self.old.pairs }
        ensures keyed { self.new.keyed ≡ self.old.keyed }
        ensures room { OnOk result (PLACES ≤ length self.new.sets.items) }
    {
        if self.sets.len() >= PLACES {
            return Ok(());
        }
        self.sets = no_ends_anywhere(alloc)?;
        Ok(())
    }

    /// Keeps in mind which ends the left set has beyond the right one.
    pub fn learn_ends(
        &mut self,
        alloc: Global,
        left: CapSet,
        right: CapSet,
        demand: EndedDemand,
    ) -> Result<(), AllocError>
        requires { IsEndedIn (context_of self.old.base) left right demand }
        ensures base { self.new.base ≡ self.old.base }
        ensures pairs { self.new.pairs ≡ self.old.pairs }
        ensures keyed { self.new.keyed ≡ self.old.keyed }
    {
        self.make_room(alloc)?;
        let place = place_of(&left, &right);
        let known = known_ends(&self.base, left, right, demand);
        self.sets[place] = known;
        Ok(())
    }
}
