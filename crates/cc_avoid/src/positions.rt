//! Positions that are avoided together: what a set becomes, and whether a shape names one of them.

ghost use Rattle.std.specs.Prelude.{◌≡◌, ℕ, List, [], ◌∷◌, IfOk};
ghost use Rattle.std.specs.Option.{unwrap_or};
ghost use Rattle.cc_capture.specs.Sets.{Set};
ghost use Rattle.cc_core.specs.TermViews.{shape_of};
ghost use Rattle.cc_checking.specs.Avoidance.{avoided_set, is_free_in};
ghost use Rattle.cc_avoid.specs.Avoiding.{sign_of};
ghost use Rattle.cc_avoid.specs.AvoidedTogether.{set_avoiding, names_any};

use crate::sign::Sign;
use cc_core::occurrences::occurs_in_shape;
use cc_core::{CapSet, Elem, Shape, Var};
use std::alloc::{AllocError, Global};

/// Positions, each with its declared set.
pub trait Positions {
    /// What has to be so for them to be avoided.
    ghost can_avoid: { Self → Type 0 };

    /// The positions in the order in which they are avoided.
    ghost listed: { Self → List (ℕ × Set) };

    /// What the set becomes where they are avoided at a place of the sign, if it is another one. It fails only for want of
    /// memory.
    fn avoid_in_set(
        &self,
        alloc: Global,
        sign: Sign,
        set: &CapSet,
    ) -> Result<Option<CapSet>, AllocError>
        requires { can_avoid self.now }
        ensures { IfOk result (λ s. unwrap_or s set.now ≡ set_avoiding (sign_of sign) (listed self.now) set.now) };

    /// Whether one of them is free in the shape. It fails only for want of memory.
    fn are_free(&self, shape: &Shape) -> Result<bool, AllocError>
        requires { can_avoid self.now }
        ensures { IfOk result (λ b. b ≡ names_any (listed self.now) (shape_of shape.now)) };
}

/// One position with its declared set.
#[derive(Clone, Copy)]
pub struct One<'a> {
    pub position: u32,
    pub declared: &'a CapSet,
}

impl<'a> Positions for One<'a> {
    ghost can_avoid = { λ _. Unit {0} };

    ghost listed = { λ one. (one.position, one.declared.now) ∷ [] };

    fn avoid_in_set(
        &self,
        alloc: Global,
        sign: Sign,
        set: &CapSet,
    ) -> Result<Option<CapSet>, AllocError> {
        avoid_position(alloc, sign, self.position, self.declared, set)
    }

    fn are_free(&self, shape: &Shape) -> Result<bool, AllocError> {
        Ok(is_free(self.position, shape))
    }
}

/// What the set becomes where the position is avoided by its declared set, if it is another one.
pub fn avoid_position(
    alloc: Global,
    sign: Sign,
    position: u32,
    declared: &CapSet,
    set: &CapSet,
) -> Result<Option<CapSet>, AllocError>
    ensures { IfOk result (λ s. unwrap_or s set.now ≡ avoided_set (sign_of sign) position declared.now set.now) }
{
    let elem = Elem::Var(Var::Free(position));
    if !set.contains(elem) {
        return Ok(None);
    }
    let mut others = set.clone()?;
    others.remove(elem);
    match sign {
        Sign::Positive => Ok(Some(others.union(alloc, declared)?)),
        Sign::Negative => Ok(Some(others)),
    }
}

// Whether the position is free in the shape.
fn is_free(position: u32, shape: &Shape) -> bool
    ensures { result ≡ is_free_in position (shape_of shape.now) }
{
    occurs_in_shape(position, shape)
}
