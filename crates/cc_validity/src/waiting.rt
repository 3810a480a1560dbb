//! Nodes that wait to be judged, the last ones first.

ghost use Rattle.std.specs.Prelude.{◌≡◌, ◌≢◌, ◌^◌, ◌<◌, ◌++◌, map, [], IfOk, OnOk, MatchBool, Some, None, if◌then◌else◌};
ghost use Rattle.cc_derivation.specs.DerivationViews.{premises_of, der_of};
ghost use Rattle.cc_derivation.specs.Broken.{broken};
ghost use Rattle.cc_derivation.specs.Rows.{Nowhere};
ghost use Rattle.cc_validity.specs.Spots.{place_of, places_of};
ghost use Rattle.cc_checking.specs.DerivationSizes.{nodes};
ghost use Rattle.cc_validity.specs.Waiting.{Passes, standing_of, standing_among, first_or};

use crate::counting::count;
use crate::instances::{is_instance, premise_places};
use crate::premises::{are_as_many, same_place};
use crate::{Spot, Spots};
use cc_derivation::{Der, Premises};
use std::alloc::{AllocError, Global};
use std::rc::Rc;

/// A derivation at its place.
#[derive(Drop)]
pub(crate) struct Waiting {
    pub(crate) spot: Spot,
    pub(crate) der: Rc<Der>,
}

/// How many nodes were passed, and whether the last one of them breaks its rule.
#[derive(Clone, Copy)]
pub(crate) struct Passed {
    pub(crate) nodes: u32,
    pub(crate) breaks: bool,
}

// Whether the place is none.
fn is_nowhere(spot: &Spot) -> bool
    ensures { MatchBool result (place_of spot.now ≡ Nowhere) (place_of spot.now ≢ Nowhere) }
{
    match spot {
        Spot::Nowhere => true,
        _ => false,
    }
}

// The premises wait at their places.
fn wait_for(
    places: &Spots,
    premises: &Premises,
    waiting: &mut Vec<Waiting>,
) -> Result<(), AllocError>
    ensures { OnOk result (map standing_of waiting.new.items ≡ map standing_of waiting.old.items ++ standing_among (places_of places.now) (premises_of premises.now)) }
{
    let mut spots = places;
    let mut left = premises;
    while let Spots::More(place, others) = spots {
        match left {
            Premises::End => return Ok(()),
            Premises::More(first, rest) => {
                let spot = same_place(place)?;
                let der = first.clone()?;
                waiting.push(Waiting { spot, der })?;
                spots = &**others;
                left = &**rest;
            }
        }
    }
    Ok(())
}

// A node is judged by itself. Its premises wait where they have places; else its nodes are passed with it.
fn pass(alloc: Global, next: &Waiting, waiting: &mut Vec<Waiting>) -> Result<Passed, AllocError>
    requires { nodes (der_of next.now.der.value) < 2 ^ 32 }
    ensures { IfOk result (λ p. Passes (place_of next.now.spot) (der_of next.now.der.value) (map standing_of waiting.old.items) (map standing_of waiting.new.items) p) }
{
    let Waiting { spot, der } = next;
    if is_nowhere(spot) {
        return Ok(Passed {
            nodes: count(alloc, der)?,
            breaks: false,
        });
    }
    match premise_places(alloc, spot, der)? {
        None => Ok(Passed {
            nodes: count(alloc, der)?,
            breaks: true,
        }),
        Some(places) => {
            if !are_as_many(&places, &der.premises) {
                return Ok(Passed {
                    nodes: count(alloc, der)?,
                    breaks: true,
                });
            }
            let holds = is_instance(alloc, spot, der)?;
            wait_for(&places, &der.premises, &mut *waiting)?;
            Ok(Passed {
                nodes: 1,
                breaks: !holds,
            })
        }
    }
}

// The number, where the test holds; else what was found before.
fn first_found(test: bool, number: u32, before: Option<u32>) -> Option<u32>
    ensures { result ≡ (if test then Some number else before) }
{
    if test { Some(number) } else { before }
}

/// The least number of a node that breaks its rule, if there is one.
///
/// Nodes are judged from the last number down, so that the least one is found last; what waits stands in a list.
pub(crate) fn least_broken(
    alloc: Global,
    spot: Spot,
    der: Rc<Der>,
) -> Result<Option<u32>, AllocError>
    requires { nodes (der_of der.value) < 2 ^ 32 }
    ensures { IfOk result (λ o. o ≡ first_or (broken 0 (place_of spot) (der_of der.value)) None) }
{
    let mut number = count(alloc, &der)?;
    let mut least = None;
    let mut waiting = Vec::new(alloc);
    waiting.push(Waiting { spot, der })?;
    while let Some(next) = waiting.pop() {
        let passed = pass(alloc, &next, &mut waiting)?;
        least = first_found(passed.breaks, number, least);
        number -= passed.nodes;
    }
    Ok(least)
}
