//! The comparison of shapes and types, with all that it demands.

ghost use Rattle.std.specs.Prelude.{IfOk, OnErr};
ghost use Rattle.cc_core.specs.Subtyping.{Subtypes, SubtypesType};
ghost use Rattle.cc_core.specs.TermViews.{shape_of, type_of, context_of};
ghost use Rattle.cc_core.specs.WellFormed.{IsWellFormedShape, IsWellFormedType, IsWellFormedContext};
ghost use Rattle.cc_checking.specs.Comparison.{comparison, type_comparison};
ghost use Rattle.cc_type.specs.Comparing.{most_steps, Compares, AsksWhat, IsNoMatch, Demanded, HandsOn};
ghost use Rattle.cc_subty.specs.Demands.{asked_of};

use crate::log::Log;
use crate::walking::{keep_shapes, keep_types};
use cc_base::place::Place;
use cc_core::{Ctx, Shape, Ty};
use cc_known::known::Known;
use cc_subty::Demands;
use std::alloc::{AllocError, Global};
use std::mem::replace;

/// Why a comparison gives no demands.
#[derive(Clone, Copy, Debug, PartialEq, Eq)]
pub enum SubtypeError {
    /// There is no memory, as which it counts too that the comparison goes deeper than 2^32 - 1 levels.
    NoMemory,
    /// The shapes do not match, whatever the sets are.
    ShapeMismatch,
}

impl From<AllocError> for SubtypeError {
    ghost use Rattle.std.specs.Prelude.{◌≡◌};
    ghost use Rattle.cc_type.specs.declared.subtyping.SubtypeError.TheVariants.{NoMemory};

    ghost from_gives = { λ _ error. error ≡ NoMemory };

    fn from(_error: AllocError) -> SubtypeError {
        SubtypeError::NoMemory
    }
}

// Asks what was found: behind what was asked before, unless the two do not match.
fn hand_on(found: Option<Demands>, demands: &mut Demands) -> Result<(), SubtypeError>
    ensures { HandsOn found demands.old demands.new result }
{
    match found {
        Some(found) => Ok(demands.append(found)?),
        None => Err(SubtypeError::ShapeMismatch),
    }
}

// What comparing the types demands, if they match.
fn types_demanded(
    alloc: Global,
    ctx: &Ctx,
    left: &Ty,
    right: &Ty,
    at: Place,
) -> Result<Option<Demands>, AllocError>
    requires context { IsWellFormedContext (context_of ctx.now) }
    requires left { IsWellFormedType (context_of ctx.now) (type_of left.now) }
    requires right { IsWellFormedType (context_of ctx.now) (type_of right.now) }
    ensures { IfOk result (λ found. Demanded at (type_comparison most_steps (context_of ctx.now) (type_of left.now) (type_of right.now)) found) }
{
    let mut log = Log::new(alloc);
    log.known = Known::new(alloc, ctx.clone()?);
    log.whole = Demands::new(alloc);
    if keep_types(alloc, ctx, left, right, at, &mut log, u32::MAX, true)? {
        Ok(Some(replace(&mut log.whole, Demands::new(alloc))))
    } else {
        Ok(None)
    }
}

// What comparing the shapes demands, if they match.
fn shapes_demanded(
    alloc: Global,
    ctx: &Ctx,
    left: &Shape,
    right: &Shape,
    at: Place,
) -> Result<Option<Demands>, AllocError>
    requires context { IsWellFormedContext (context_of ctx.now) }
    requires left { IsWellFormedShape (context_of ctx.now) (shape_of left.now) }
    requires right { IsWellFormedShape (context_of ctx.now) (shape_of right.now) }
    ensures { IfOk result (λ found. Demanded at (comparison most_steps (context_of ctx.now) (shape_of left.now) (shape_of right.now)) found) }
{
    let mut log = Log::new(alloc);
    log.known = Known::new(alloc, ctx.clone()?);
    log.whole = Demands::new(alloc);
    if keep_shapes(alloc, ctx, left, right, at, &mut log, u32::MAX, true)? {
        Ok(Some(replace(&mut log.whole, Demands::new(alloc))))
    } else {
        Ok(None)
    }
}

/// Compares the types in the context. What their sets have to satisfy for the left one to be below the right one is
/// asked at the place, behind what was asked before.
///
/// Where the shapes do not match the left one is not below the right one, and nothing is asked. Whether two parts are one
/// is asked at each, which takes time that grows with the square of the height; inference goes by `below`, which does not.
pub fn subtype(
    alloc: Global,
    ctx: &Ctx,
    left: &Ty,
    right: &Ty,
    at: Place,
    demands: &mut Demands,
) -> Result<(), SubtypeError>
    requires context { IsWellFormedContext (context_of ctx.now) }
    requires left { IsWellFormedType (context_of ctx.now) (type_of left.now) }
    requires right { IsWellFormedType (context_of ctx.now) (type_of right.now) }
    ensures exact { Compares at (type_comparison most_steps (context_of ctx.now) (type_of left.now) (type_of right.now)) demands.old demands.new result }
    ensures below { IfOk result (λ _. AsksWhat at (asked_of demands.old) (asked_of demands.new) (SubtypesType (context_of ctx.now) (type_of left.now) (type_of right.now))) }
    ensures not_below { IsNoMatch result → SubtypesType (context_of ctx.now) (type_of left.now) (type_of right.now) → ⊥ }
{
    let found = types_demanded(alloc, ctx, left, right, at)?;
    hand_on(found, demands)
}

/// Compares the shapes, as `subtype` does types.
pub fn sub_shape(
    alloc: Global,
    ctx: &Ctx,
    left: &Shape,
    right: &Shape,
    at: Place,
    demands: &mut Demands,
) -> Result<(), SubtypeError>
    requires context { IsWellFormedContext (context_of ctx.now) }
    requires left { IsWellFormedShape (context_of ctx.now) (shape_of left.now) }
    requires right { IsWellFormedShape (context_of ctx.now) (shape_of right.now) }
    ensures exact { Compares at (comparison most_steps (context_of ctx.now) (shape_of left.now) (shape_of right.now)) demands.old demands.new result }
    ensures below { IfOk result (λ _. AsksWhat at (asked_of demands.old) (asked_of demands.new) (Subtypes (context_of ctx.now) (shape_of left.now) (shape_of right.now))) }
    ensures not_below { IsNoMatch result → Subtypes (context_of ctx.now) (shape_of left.now) (shape_of right.now) → ⊥ }
{
    let found = shapes_demanded(alloc, ctx, left, right, at)?;
    hand_on(found, demands)
}
