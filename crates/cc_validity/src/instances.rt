//! A node at its place: the places of its premises, and whether it is an instance of its rule.

ghost use Rattle.std.specs.Prelude.{◌≡◌, option_map, IfOk};
ghost use Rattle.cc_derivation.specs.DerivationViews.{rule_of, claim_of, premises_of};
ghost use Rattle.cc_validity.specs.ClaimedPremises.{instance_of};
ghost use Rattle.cc_derivation.specs.Broken.{claims_of};
ghost use Rattle.cc_derivation.specs.Rows.{row_at};
ghost use Rattle.cc_validity.specs.Spots.{place_of, places_of, places_in};

use crate::comparisons::{set_instance, shape_instance, type_instance};
use crate::premises::{set_places, shape_places, type_places, typing_places};
use crate::typings::typing_instance;
use crate::{Spot, Spots};
use cc_derivation::{Claim, Der};
use std::alloc::{AllocError, Global};

/// The places of the premises of the node, if it fits its place.
pub(crate) fn premise_places(
    alloc: Global,
    spot: &Spot,
    der: &Der,
) -> Result<Option<Spots>, AllocError>
    ensures { IfOk result (λ o. option_map places_of o ≡ places_in (row_at (place_of spot.now) (rule_of der.now.rule) (claim_of der.now.claim)) (claims_of (premises_of der.now.premises))) }
{
    match spot {
        Spot::Nowhere => Ok(None),
        Spot::TypeOf(ctx, term, entries) => match &der.claim {
            Claim::Typed(_) => typing_places(alloc, ctx, term, *entries, der.rule, &der.premises),
            _ => Ok(None),
        },
        Spot::Sets(ctx) => match &der.claim {
            Claim::SetBelow(left, _) => set_places(alloc, ctx, der.rule, left),
            _ => Ok(None),
        },
        Spot::Shapes(ctx) => match &der.claim {
            Claim::ShapeBelow(left, right) => shape_places(alloc, ctx, der.rule, left, right),
            _ => Ok(None),
        },
        Spot::Types(ctx) => match &der.claim {
            Claim::TypeBelow(_, _) => type_places(alloc, ctx, der.rule),
            _ => Ok(None),
        },
    }
}

/// Whether the node fits its place and is an instance of its rule.
pub(crate) fn is_instance(alloc: Global, spot: &Spot, der: &Der) -> Result<bool, AllocError>
    ensures { IfOk result (λ b. b ≡ instance_of (row_at (place_of spot.now) (rule_of der.now.rule) (claim_of der.now.claim)) (claims_of (premises_of der.now.premises))) }
{
    match spot {
        Spot::Nowhere => Ok(false),
        Spot::TypeOf(ctx, term, entries) => match &der.claim {
            Claim::Typed(ty) => typing_instance(
                alloc,
                ctx,
                term,
                *entries,
                der.rule,
                &der.premises,
                ty,
            ),
            _ => Ok(false),
        },
        Spot::Sets(ctx) => match &der.claim {
            Claim::SetBelow(left, right) => {
                set_instance(alloc, ctx, der.rule, &der.premises, left, right)
            }
            _ => Ok(false),
        },
        Spot::Shapes(ctx) => match &der.claim {
            Claim::ShapeBelow(left, right) => {
                shape_instance(alloc, ctx, der.rule, &der.premises, left, right)
            }
            _ => Ok(false),
        },
        Spot::Types(_) => match &der.claim {
            Claim::TypeBelow(left, right) => {
                Ok(type_instance(der.rule, &der.premises, left, right))
            }
            _ => Ok(false),
        },
    }
}
