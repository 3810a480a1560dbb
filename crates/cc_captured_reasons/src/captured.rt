//! What was captured and is not below a set, and how it leads to an end.

ghost use Rattle.std.specs.Prelude.{◌≡◌, List, [], ◌∷◌, ◌++◌, length, map, IfOk, OnOk, if◌then◌else◌};
ghost use Rattle.std.specs.Option.{is_some};
ghost use Rattle.cc_capture.specs.declared.var.Elem.{Elem as AnyElem};
ghost use Rattle.cc_core.specs.Occurrences.{HasNoHoleInSet};
ghost use Rattle.cc_core.specs.Subcapturing.{Subcaptures};
ghost use Rattle.cc_core.specs.TermViews.{context_of};
ghost use Rattle.cc_core.specs.WellFormed.{IsWellFormedContext, IsWellFormedSet};
ghost use Rattle.cc_reasons.specs.ReasonTexts.{AreBeyond, is_end, LeadsOn};
ghost use Rattle.cc_reasons.specs.ShortestChains.{IsFirstShortestToEnd};
ghost use Rattle.cc_captured_reasons.specs.CapturedChains.{AreChains};
ghost use Rattle.cc_captured_reasons.specs.Nearness.{HasNoHoleInSets, StandsIn, AreTold};

use crate::nearness::nearness;
use crate::tellings::{first_of, telling};
use cc_capture::{CapSet, Elem};
use cc_core::Ctx;
use std::alloc::{AllocError, Global};

/// What was captured and is not allowed, in order, and for each of these elements the first of the shortest chains of declared
/// sets to an end. The chain of an end is the end alone.
#[derive(Drop)]
pub struct CapturedChains {
    pub elems: Vec<Elem>,
    pub chains: Vec<Vec<Elem>>,
}

// Puts the element behind the others, where a number is told of it.
fn push_numbered(
    captured: &mut Vec<Elem>,
    elem: Elem,
    number: Option<u32>,
) -> Result<(), AllocError>
    ensures { OnOk result (captured.new.items ≡ (if is_some number then captured.old.items ++ elem ∷ [] else captured.old.items)) }
{
    if number.is_some() {
        captured.push(elem)?;
    }
    Ok(())
}

/// The elements of the left set that are not below the right one, in order.
///
/// Fails only for want of memory.
pub fn beyond(
    alloc: Global,
    ctx: &Ctx,
    devices: u32,
    told: &[Option<u32>],
    left: &CapSet,
    right: &CapSet,
) -> Result<Vec<Elem>, AllocError>
    requires context { IsWellFormedContext (context_of ctx.now) }
    requires left { IsWellFormedSet (context_of ctx.now) left.now }
    requires closed { HasNoHoleInSet left.now }
    requires count { length told.now ≡ length ctx.now }
    requires told { AreTold devices (context_of ctx.now) right.now told.now }
    ensures { IfOk result (λ captured. AreBeyond (context_of ctx.now) right.now left.now.list captured.items) }
{
    let mut captured = Vec::new(alloc);
    for elem in left.iter() {
        let number = telling(told, right, elem);
        push_numbered(&mut captured, elem, number)?;
    }
    Ok(captured)
}

/// From an element that is not below the set, the first of the shortest chains of declared sets to an end.
///
/// Each declared set on the way is gone over once. Fails only for want of memory.
pub fn chain_to_end(
    alloc: Global,
    ctx: &Ctx,
    devices: u32,
    told: &[Option<u32>],
    right: &CapSet,
    from: Elem,
) -> Result<Vec<Elem>, AllocError>
    requires context { IsWellFormedContext (context_of ctx.now) }
    requires closed { HasNoHoleInSets (context_of ctx.now) }
    requires count { length told.now ≡ length ctx.now }
    requires told { AreTold devices (context_of ctx.now) right.now told.now }
    requires from { StandsIn (context_of ctx.now) from }
    requires beyond { Subcaptures (context_of ctx.now) from right.now → ⊥ }
    ensures { IfOk result (λ chain. (entry : AnyElem → List AnyElem) → LeadsOn devices (context_of ctx.now) right.now entry → IsFirstShortestToEnd entry (is_end devices) from chain.items) }
{
    let mut chain = Vec::new(alloc);
    chain.push(from)?;
    let mut number = telling(told, right, from).unwrap();
    let mut current = from;
    while number > 0 {
        let fewer = number - 1;
        let next = first_of(ctx, told, right, fewer, current).unwrap();
        chain.push(next)?;
        current = next;
        number = fewer;
    }
    Ok(chain)
}

// The chains of what was captured, in order.
fn chains_of(
    alloc: Global,
    ctx: &Ctx,
    devices: u32,
    told: &[Option<u32>],
    left: &CapSet,
    right: &CapSet,
    captured: &[Elem],
) -> Result<Vec<Vec<Elem>>, AllocError>
    requires context { IsWellFormedContext (context_of ctx.now) }
    requires closed { HasNoHoleInSets (context_of ctx.now) }
    requires left { IsWellFormedSet (context_of ctx.now) left.now }
    requires closed_left { HasNoHoleInSet left.now }
    requires count { length told.now ≡ length ctx.now }
    requires told { AreTold devices (context_of ctx.now) right.now told.now }
    requires captured { AreBeyond (context_of ctx.now) right.now left.now.list captured.now }
    ensures { IfOk result (λ chains. (entry : AnyElem → List AnyElem) → LeadsOn devices (context_of ctx.now) right.now entry → AreChains entry (is_end devices) captured.now (map (λ chain. chain.items) chains.items)) }
{
    let mut chains = Vec::new(alloc);
    for elem in captured {
        let chain = chain_to_end(alloc, ctx, devices, told, right, *elem)?;
        chains.push(chain)?;
    }
    Ok(chains)
}

/// What of the left set is not below the right one, and how it leads to an end, where the first positions of the context are
/// devices.
///
/// Each declared set of the context is gone over once, and each on the way of a chain once more. Fails only for want of memory.
pub fn captured_chains(
    alloc: Global,
    ctx: &Ctx,
    devices: u32,
    left: &CapSet,
    right: &CapSet,
) -> Result<CapturedChains, AllocError>
    requires context { IsWellFormedContext (context_of ctx.now) }
    requires closed { HasNoHoleInSets (context_of ctx.now) }
    requires left { IsWellFormedSet (context_of ctx.now) left.now }
    requires closed_left { HasNoHoleInSet left.now }
    ensures elems { IfOk result (λ it. AreBeyond (context_of ctx.now) right.now left.now.list it.elems.items) }
    ensures chains { IfOk result (λ it. (entry : AnyElem → List AnyElem) → LeadsOn devices (context_of ctx.now) right.now entry → AreChains entry (is_end devices) it.elems.items (map (λ chain. chain.items) it.chains.items)) }
{
    let told = nearness(alloc, ctx, devices, right)?;
    let elems = beyond(alloc, ctx, devices, told.as_slice(), left, right)?;
    let chains = chains_of(
        alloc,
        ctx,
        devices,
        told.as_slice(),
        left,
        right,
        elems.as_slice(),
    )?;
    Ok(CapturedChains { elems, chains })
}
