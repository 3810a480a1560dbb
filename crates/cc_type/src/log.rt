//! The log of inference: all that is kept of what was asked.

ghost use Rattle.std.specs.Prelude.{◌≡◌, ◌≢◌, ◌↔◌, false, ◌<◌, ◌≤◌, [], ◌∷◌, ◌++◌, ◌&&◌, ◌||◌, not, true, cond, length, Some, None, IsTrue, OnOk, IfOk};
ghost use Rattle.std.specs.HashSet.{spare};
ghost use Rattle.std.specs.List.{list_all};
ghost use Rattle.cc_capture.specs.Sets.{Set};
ghost use Rattle.cc_core.specs.Subcapturing.{SubcapturesSet};
ghost use Rattle.cc_base.specs.declared.place.Place.{Place};
ghost use Rattle.cc_core.specs.TermViews.{shape_of, context_of};
ghost use Rattle.cc_core.specs.WellFormed.{IsWellFormedContext, IsWellFormedSet};
ghost use Rattle.cc_checking.specs.Comparison.{demanded, comparison};
ghost use Rattle.cc_checking.specs.Outcomes.{IsBelow};
ghost use Rattle.cc_checking.specs.Inference.{demand_at};
ghost use Rattle.cc_sets.specs.Marked.{IsClear};
ghost use Rattle.cc_subty.specs.Demands.{demand_of, asked_of};
ghost use Rattle.cc_known.specs.EndsAgain as again;
ghost use Rattle.cc_known.specs.EndsAgain.{comes_again};
ghost use Rattle.cc_known.specs.KeptWalks.{is_remembered, is_keyed};
ghost use Rattle.cc_known.specs.EndedDemands.{HasEnds, AreThose, is_among, same_ended};
ghost use Rattle.cc_known.specs.Keeping as keeping;
ghost use Rattle.cc_known.specs.Keeping.{has_lost};
ghost use Rattle.cc_known.specs.ComparedPairs.{is_compared, is_compared_as, IsKept};
ghost use Rattle.cc_known.specs.FormedDemands.{IsWellFormedAsked};
ghost use Rattle.cc_type.specs.Comparing.{most_steps};

use crate::demand_ends::ended;
use crate::instances::Instances;
use cc_base::place::Place;
use cc_base::steps::Steps;
use cc_capture::{CapSet, Elem};
use cc_core::occurrences::set_has_hole;
use cc_core::{Ctx, Shape};
use cc_known::compared::{ComparedPairs, compared_in};
use cc_known::ended::EndedDemand;
use cc_known::known::Known;
use cc_known::needless::stays_fillable;
use cc_sets::marks::Marks;
use cc_sets::subcapturing::subcap;
use cc_solve::{Filling, is_served};
use cc_subty::{Demand, Demands};
use std::alloc::{AllocError, Global};
use std::collections::HashSet;
use std::marker::Brand;
use std::sync::ledger::{Blank, Ledger};

/// What is kept of what was asked, in order: each demand that may force an element into a hole, or may be the first to
/// fail under some filling.
#[derive(Drop)]
pub struct Log {
    pub demands: Demands,
    // Whether something that is kept is lost.
    lost: bool,
    // For the tests of a demand: they are clear between two tests.
    marks: Marks,
    // All that a comparison demanded, where that is asked for.
    pub(crate) whole: Demands,
    // What is kept without a hole on its right side, by its ends.
    ended: HashSet<EndedDemand>,
    // What was last found to be settled.
    pub(crate) known: Known,
    // Whether all that was demanded since it was last said so was settled.
    pub(crate) settled: bool,
    // What type functions gave.
    pub(crate) instances: Instances,
    // Shapes that were compared.
    compared: ComparedPairs,
    // How many parts of shapes were gone over since a front of a context was last copied to remember two of them.
    pub(crate) passed: u64,
    ghost clear: { IsClear marks },
    ghost told: { lost ≡ has_lost (asked_of demands) },
    ghost noted: { AreThose ended.keys (asked_of demands) },
    ghost remembered: { list_all (is_remembered (asked_of demands) (context_of known.base)) known.pairs.items ≡ true },
    ghost matched: { list_all (is_keyed (asked_of demands) (context_of known.base)) known.keyed.items ≡ true },
    ghost kept: { list_all (is_compared most_steps (asked_of demands)) compared.pairs.items ≡ true },
}

/// What became of something that was asked.
#[derive(Clone, Copy, Debug, PartialEq, Eq)]
pub(crate) enum Kept {
    /// It was settled as it stood.
    Settled,
    /// It is needless wherever it comes again.
    Again,
    /// Nothing more is told.
    Once,
}

impl Log {
    /// Nothing was asked. It takes no memory.
    pub fn new(alloc: Global) -> Log
        ensures { result.demands ≡ [] }
    {
        Log {
            demands: Demands::new(alloc),
            lost: false,
            marks: Marks::new(alloc),
            whole: Demands::new(alloc),
            ended: HashSet::new(alloc),
            known: Known::new(alloc, Ctx::new()),
            settled: false,
            instances: Instances::new(alloc),
            compared: ComparedPairs::new(alloc),
            passed: 0,
        }
    }

    // Whether something that is kept is lost.
    pub(crate) fn is_lost(&self) -> bool
        ensures { result ≡ has_lost (asked_of self.now.demands) }
    {
        self.lost
    }

    // Whether it has the ends of something that is kept.
    pub(crate) fn repeats(&self, demand: &EndedDemand) -> bool
        ensures { result ≡ keeping.has_ended_so (asked_of self.now.demands) demand.now.ends demand.now.right }
    {
        self.ended.contains(demand)
    }

    // Whether it is remembered that nothing of the comparison of the two shapes in the context has to be kept.
    pub(crate) fn has_compared(&self, ctx: &Ctx, left: &Shape, right: &Shape) -> bool
        requires { IsWellFormedContext (context_of ctx.now) }
        ensures { IsTrue result → (at : Place) → IsKept at (comparison most_steps (context_of ctx.now) (shape_of left.now) (shape_of right.now)) true (asked_of self.now.demands) (asked_of self.now.demands) }
    {
        self.compared.has(ctx, left, right)
    }

    // Remembers that.
    pub(crate) fn remember_compared(
        &mut self,
        alloc: Global,
        ctx: &Ctx,
        left: &Shape,
        right: &Shape,
    ) -> Result<(), AllocError>
        requires { is_compared_as most_steps (asked_of self.old.demands) (context_of ctx.now) (shape_of left.now) (shape_of right.now) ≡ true }
        ensures { self.new.demands ≡ self.old.demands }
    {
        let pair = compared_in(alloc, ctx, left, right)?;
        self.compared.remember(pair)
    }

    /// What is kept, in order.
    pub fn demands(&self) -> &Demands
        ensures { result.now ≡ self.now.demands }
    {
        &self.demands
    }
}

// Whether the left set is below the right one in the context. The steps are counted for no one.
fn decides<L: Ledger>(
    blank: Blank,
    ctx: &Ctx,
    marks: &mut Marks,
    left: &CapSet,
    right: &CapSet,
) -> bool
    requires name { blank.name ≡ L.name }
    requires parts { blank.parts ≡ L.parts }
    requires some { 0 < L.parts }
    requires context { IsWellFormedContext (context_of ctx.now) }
    requires left { IsWellFormedSet (context_of ctx.now) left.now }
    requires room { length ctx.now ≤ length marks.old }
    requires clear { IsClear marks.old }
    ensures decides { IsTrue result ↔ SubcapturesSet (context_of ctx.now) left.now right.now }
    ensures clear { marks.new ≡ marks.old }
{
    let mut steps = Steps::<L>::new(blank);
    subcap(ctx, marks, left, right, &mut steps)
}

// Whether the left set is below the right one in the context.
fn is_below(ctx: &Ctx, marks: &mut Marks, left: &CapSet, right: &CapSet) -> Result<bool, AllocError>
    requires context { IsWellFormedContext (context_of ctx.now) }
    requires left { IsWellFormedSet (context_of ctx.now) left.now }
    requires clear { IsClear marks.old }
    ensures below { IfOk result (λ b. b ≡ keeping.is_below (context_of ctx.now) left.now right.now) }
    ensures clear { IsClear marks.new }
{
    marks.reserve(ctx.len())?;
    Ok(decides::<Brand>(Blank::new(1), ctx, marks, left, right))
}

// Whether a hole is a member of the set.
pub(crate) fn has_hole(set: &CapSet) -> bool
    ensures { result ≡ keeping.has_hole set.now }
{
    set_has_hole(set)
}

// Whether the demand of the two sets is settled as it stands.
fn is_demand_settled(
    ctx: &Ctx,
    marks: &mut Marks,
    left: &CapSet,
    right: &CapSet,
) -> Result<bool, AllocError>
    requires context { IsWellFormedContext (context_of ctx.now) }
    requires left { IsWellFormedSet (context_of ctx.now) left.now }
    requires clear { IsClear marks.old }
    ensures settled { IfOk result (λ b. b ≡ keeping.is_demand_settled (record { context = context_of ctx.now; left = left.now; right = right.now })) }
    ensures clear { IsClear marks.new }
{
    if has_hole(right) {
        Ok(left.is_subset(right))
    } else {
        is_below(ctx, marks, left, right)
    }
}

// Whether what is asked is settled as it stands.
fn is_settled(marks: &mut Marks, demand: &Demand) -> Result<bool, AllocError>
    requires formed { IsWellFormedAsked (demand_of demand.now).asked }
    requires clear { IsClear marks.old }
    ensures settled { IfOk result (λ b. b ≡ keeping.is_settled (demand_of demand.now).asked) }
    ensures clear { IsClear marks.new }
{
    match demand {
        Demand::Sub {
            ctx,
            left,
            right,
            at: _,
        } => is_demand_settled(ctx, marks, left, right),
        Demand::NoCap { set, at: _ } => Ok(!(set.contains(Elem::Cap) || has_hole(set))),
    }
}

// The same demand. The context is shared.
fn copy(demand: &Demand) -> Result<Demand, AllocError>
    ensures { IfOk result (λ d. demand_of d ≡ demand_of demand.now) }
{
    match demand {
        Demand::Sub {
            ctx,
            left,
            right,
            at,
        } => {
            let ctx = ctx.clone()?;
            let left = left.clone()?;
            let right = right.clone()?;
            Ok(Demand::Sub {
                ctx,
                left,
                right,
                at: *at,
            })
        }
        Demand::NoCap { set, at } => {
            let set = set.clone()?;
            Ok(Demand::NoCap { set, at: *at })
        }
    }
}

// Whether what is asked may force an element into a hole.
fn may_force(demand: &Demand) -> bool
    ensures { result ≡ keeping.may_force (demand_of demand.now).asked }
{
    match demand {
        Demand::Sub {
            ctx: _,
            left: _,
            right,
            at: _,
        } => has_hole(right),
        Demand::NoCap { set: _, at: _ } => false,
    }
}

// Whether no filling serves what is asked.
fn is_lost(alloc: Global, marks: &mut Marks, demand: &Demand) -> Result<bool, AllocError>
    requires formed { IsWellFormedAsked (demand_of demand.now).asked }
    requires clear { IsClear marks.old }
    ensures lost { IfOk result (λ b. b ≡ keeping.is_lost (demand_of demand.now).asked) }
    ensures clear { IsClear marks.new }
{
    if may_force(demand) {
        return Ok(false);
    }
    let nothing = Filling::new(Vec::new(alloc));
    let served = is_served(alloc, demand, &nothing, marks)?;
    Ok(!served)
}

// Whether something is lost in a list with what is asked, where it is so in the list.
fn is_either_lost(
    alloc: Global,
    lost: bool,
    marks: &mut Marks,
    demand: &Demand,
) -> Result<bool, AllocError>
    requires formed { IsWellFormedAsked (demand_of demand.now).asked }
    requires clear { IsClear marks.old }
    ensures lost { IfOk result (λ b. b ≡ (lost || keeping.is_lost (demand_of demand.now).asked)) }
    ensures clear { IsClear marks.new }
{
    if lost {
        return Ok(true);
    }
    is_lost(alloc, marks, demand)
}

// Whether the demand of the two sets in the context repeats something that is kept.
fn is_repeated(
    alloc: Global,
    log: &Log,
    ctx: &Ctx,
    left: &CapSet,
    right: &CapSet,
) -> Result<bool, AllocError>
    requires context { IsWellFormedContext (context_of ctx.now) }
    requires left { IsWellFormedSet (context_of ctx.now) left.now }
    ensures { IfOk result (λ b. b ≡ keeping.is_repeated (asked_of log.now.demands) (IsBelow (demanded (context_of ctx.now) left.now right.now))) }
{
    if has_hole(right) {
        return Ok(false);
    }
    let demand = ended(alloc, ctx, left, right)?;
    Ok(log.repeats(&demand))
}

// Whether what is asked repeats something that is kept.
fn is_kept(alloc: Global, log: &Log, demand: &Demand) -> Result<bool, AllocError>
    requires { IsWellFormedAsked (demand_of demand.now).asked }
    ensures { IfOk result (λ b. b ≡ keeping.is_repeated (asked_of log.now.demands) (demand_of demand.now).asked) }
{
    match demand {
        Demand::Sub {
            ctx,
            left,
            right,
            at: _,
        } => is_repeated(alloc, log, ctx, left, right),
        Demand::NoCap { set: _, at: _ } => Ok(false),
    }
}

// Whether what is asked need not be kept behind what is kept.
fn is_needless(alloc: Global, log: &mut Log, demand: &Demand) -> Result<bool, AllocError>
    requires { IsWellFormedAsked (demand_of demand.now).asked }
    ensures needless { IfOk result (λ b. b ≡ keeping.is_needless (asked_of log.old.demands) (demand_of demand.now).asked) }
    ensures demands { log.new.demands ≡ log.old.demands }
{
    if log.lost && !may_force(demand) {
        return Ok(true);
    }
    if is_settled(&mut log.marks, demand)? {
        return Ok(true);
    }
    is_kept(alloc, log, demand)
}

// The ends of the demand of the two sets, where it has no hole on its right side.
fn ends_below(
    alloc: Global,
    ctx: &Ctx,
    left: &CapSet,
    right: &CapSet,
) -> Result<Option<EndedDemand>, AllocError>
    requires context { IsWellFormedContext (context_of ctx.now) }
    requires left { IsWellFormedSet (context_of ctx.now) left.now }
    ensures { IfOk result (λ e. HasEnds e (IsBelow (demanded (context_of ctx.now) left.now right.now))) }
{
    if has_hole(right) {
        return Ok(None);
    }
    let demand = ended(alloc, ctx, left, right)?;
    Ok(Some(demand))
}

// The same of what is asked.
fn ends_of(alloc: Global, demand: &Demand) -> Result<Option<EndedDemand>, AllocError>
    requires { IsWellFormedAsked (demand_of demand.now).asked }
    ensures { IfOk result (λ e. HasEnds e (demand_of demand.now).asked) }
{
    match demand {
        Demand::Sub {
            ctx,
            left,
            right,
            at: _,
        } => ends_below(alloc, ctx, left, right),
        Demand::NoCap { set: _, at: _ } => Ok(None),
    }
}

// Puts a demand to the others, for which there is room.
fn note(ended: &mut HashSet<EndedDemand>, demand: EndedDemand)
    requires { 0 < spare ended.old }
    ensures { (other : EndedDemand) → is_among ended.new.keys other ≡ cond (same_ended demand other) true (is_among ended.old.keys other) }
{
    match ended.insert(demand) {
        Ok(_) => {}
        Err(_) => unreachable!(),
    }
}

// Puts a demand with these ends behind the others.
fn add_ended(log: &mut Log, demand: Demand, lost: bool, ends: EndedDemand) -> Result<(), AllocError>
    requires lost { lost ≡ has_lost (asked_of log.old.demands ++ demand_of demand ∷ []) }
    requires ends { HasEnds (Some ends) (demand_of demand).asked }
    ensures added { OnOk result (asked_of log.new.demands ≡ asked_of log.old.demands ++ demand_of demand ∷ []) }
    ensures base { log.new.known.base ≡ log.old.known.base }
    ensures still { log.new.settled ≡ log.old.settled }
{
    log.ended.reserve(1)?;
    log.demands.push(demand)?;
    note(&mut log.ended, ends);
    log.lost = lost;
    Ok(())
}

// The same without ends.
fn add_other(log: &mut Log, demand: Demand, lost: bool) -> Result<(), AllocError>
    requires lost { lost ≡ has_lost (asked_of log.old.demands ++ demand_of demand ∷ []) }
    requires ends { HasEnds None (demand_of demand).asked }
    ensures added { OnOk result (asked_of log.new.demands ≡ asked_of log.old.demands ++ demand_of demand ∷ []) }
    ensures base { log.new.known.base ≡ log.old.known.base }
    ensures still { log.new.settled ≡ log.old.settled }
{
    log.demands.push(demand)?;
    log.lost = lost;
    Ok(())
}

// Puts a demand behind the others.
fn add(
    log: &mut Log,
    demand: Demand,
    lost: bool,
    ends: Option<EndedDemand>,
) -> Result<(), AllocError>
    requires lost { lost ≡ has_lost (asked_of log.old.demands ++ demand_of demand ∷ []) }
    requires ends { HasEnds ends (demand_of demand).asked }
    ensures added { OnOk result (asked_of log.new.demands ≡ asked_of log.old.demands ++ demand_of demand ∷ []) }
    ensures base { log.new.known.base ≡ log.old.known.base }
    ensures still { log.new.settled ≡ log.old.settled }
{
    match ends {
        Some(ends) => add_ended(log, demand, lost, ends),
        None => add_other(log, demand, lost),
    }
}

/// Keeps what is asked, unless that is needless.
pub(crate) fn keep(alloc: Global, log: &mut Log, demand: &Demand) -> Result<(), AllocError>
    requires { IsWellFormedAsked (demand_of demand.now).asked }
    ensures { OnOk result (asked_of log.new.demands ≡ keeping.with_one (asked_of log.old.demands) (demand_of demand.now)) }
{
    if is_needless(alloc, log, demand)? {
        return Ok(());
    }
    let lost = is_either_lost(alloc, log.lost, &mut log.marks, demand)?;
    let ends = ends_of(alloc, demand)?;
    let demand = copy(demand)?;
    add(log, demand, lost, ends)
}

// What is told of a demand that is kept, with this right set.
fn kept_with(ctx: &Ctx, right: &CapSet, oldest: u32) -> Kept
    ensures settled { result ≢ Kept.Settled }
    ensures again { result ≡ Kept.Again → (left : Set) → again.stays_fillable oldest (demanded (context_of ctx.now) left right.now) ≡ true }
    ensures again_hole { result ≡ Kept.Again → keeping.has_hole right.now ≡ false }
{
    if has_hole(right) {
        return Kept::Once;
    }
    if stays_fillable(ctx, right, oldest) {
        Kept::Again
    } else {
        Kept::Once
    }
}

// What asks that the left set is below the right one.
fn below(ctx: &Ctx, left: &CapSet, right: &CapSet, at: Place) -> Result<Demand, AllocError>
    ensures { IfOk result (λ d. demand_of d ≡ demand_at at (demanded (context_of ctx.now) left.now right.now)) }
{
    let ctx = ctx.clone()?;
    let left = left.clone()?;
    let right = right.clone()?;
    Ok(Demand::Sub {
        ctx,
        left,
        right,
        at,
    })
}

/// Keeps that the left set is below the right one in the context, unless that is needless. The sets are copied only
/// where it is kept.
pub(crate) fn keep_below(
    alloc: Global,
    ctx: &Ctx,
    left: &CapSet,
    right: &CapSet,
    at: Place,
    log: &mut Log,
) -> Result<Kept, AllocError>
    requires context { IsWellFormedContext (context_of ctx.now) }
    requires left { IsWellFormedSet (context_of ctx.now) left.now }
    ensures kept { OnOk result (asked_of log.new.demands ≡ keeping.with_one (asked_of log.old.demands) (demand_at at (demanded (context_of ctx.now) left.now right.now))) }
    ensures settled { IfOk result (λ k. k ≡ Kept.Settled → keeping.is_demand_settled (demanded (context_of ctx.now) left.now right.now) ≡ true) }
    ensures again { IfOk result (λ k. k ≡ Kept.Again → comes_again (length (context_of log.old.known.base)) (asked_of log.new.demands) (demanded (context_of ctx.now) left.now right.now) ≡ true) }
    ensures base { log.new.known.base ≡ log.old.known.base }
    ensures still { log.new.settled ≡ log.old.settled }
{
    if log.lost && !has_hole(right) {
        return Ok(Kept::Once);
    }
    let oldest = log.known.base.len();
    if is_demand_settled(ctx, &mut log.marks, left, right)? {
        return Ok(Kept::Settled);
    }
    if is_repeated(alloc, log, ctx, left, right)? {
        return Ok(kept_with(ctx, right, oldest));
    }
    let ends = ends_below(alloc, ctx, left, right)?;
    let demand = below(ctx, left, right, at)?;
    let lost = is_either_lost(alloc, log.lost, &mut log.marks, &demand)?;
    add(log, demand, lost, ends)?;
    Ok(kept_with(ctx, right, oldest))
}
