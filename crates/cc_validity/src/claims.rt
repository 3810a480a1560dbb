//! What the premises of a node claim.

ghost use Rattle.std.specs.Prelude.{◌≡◌, [], ◌∷◌, MatchOption};
ghost use Rattle.cc_core.specs.Derivations.{ShapeBelow, TypeBelow, OfType};
ghost use Rattle.cc_core.specs.TermViews.{shape_of, type_of};
ghost use Rattle.cc_derivation.specs.DerivationViews.{premises_of};
ghost use Rattle.cc_validity.specs.ClaimLists.{AreNotOneType, AreNotTwoTypes, AreNotThreeTypes, AreNotTypeAndShapes, AreNotTypeAndTypes};
ghost use Rattle.cc_derivation.specs.Broken.{claims_of};

use cc_core::{Shape, Ty};
use cc_derivation::{Claim, Der, Premises};
use std::rc::Rc;

/// The type that the one premise claims.
pub fn one_type(premises: &Premises) -> Option<&Ty>
    ensures { MatchOption result (AreNotOneType (claims_of (premises_of premises.now))) (λ t. claims_of (premises_of premises.now) ≡ OfType (type_of t.now) ∷ []) }
{
    match premises {
        Premises::End => None,
        Premises::More(first, rest) => match &first.claim {
            Claim::Typed(ty) => match &**rest {
                Premises::End => Some(ty),
                Premises::More(_, _) => None,
            },
            _ => None,
        },
    }
}

/// The types that the two premises claim.
pub fn two_types(premises: &Premises) -> Option<(&Ty, &Ty)>
    ensures { MatchOption result (AreNotTwoTypes (claims_of (premises_of premises.now))) (λ t. claims_of (premises_of premises.now) ≡ OfType (type_of t.0.now) ∷ OfType (type_of t.1.now) ∷ []) }
{
    match premises {
        Premises::End => None,
        Premises::More(first, rest) => match &first.claim {
            Claim::Typed(ty) => match &**rest {
                Premises::End => None,
                Premises::More(second, rest) => match &second.claim {
                    Claim::Typed(other) => match &**rest {
                        Premises::End => Some((ty, other)),
                        Premises::More(_, _) => None,
                    },
                    _ => None,
                },
            },
            _ => None,
        },
    }
}

/// The types that the three premises claim.
pub fn three_types(premises: &Premises) -> Option<(&Ty, &Ty, &Ty)>
    ensures { MatchOption result (AreNotThreeTypes (claims_of (premises_of premises.now))) (λ t. claims_of (premises_of premises.now) ≡ OfType (type_of t.0.now) ∷ OfType (type_of t.1.now) ∷ OfType (type_of t.2.now) ∷ []) }
{
    match premises {
        Premises::End => None,
        Premises::More(first, rest) => match &first.claim {
            Claim::Typed(ty) => match &**rest {
                Premises::End => None,
                Premises::More(second, rest) => match &second.claim {
                    Claim::Typed(other) => match &**rest {
                        Premises::End => None,
                        Premises::More(third, rest) => match &third.claim {
                            Claim::Typed(last) => match &**rest {
                                Premises::End => Some((ty, other, last)),
                                Premises::More(_, _) => None,
                            },
                            _ => None,
                        },
                    },
                    _ => None,
                },
            },
            _ => None,
        },
    }
}

/// The type that the first of two premises claims, and the shapes of which the second one claims that they are below
/// each other.
pub fn type_and_shapes(premises: &Premises) -> Option<(&Ty, &Shape, &Shape)>
    ensures { MatchOption result (AreNotTypeAndShapes (claims_of (premises_of premises.now))) (λ t. claims_of (premises_of premises.now) ≡ OfType (type_of t.0.now) ∷ ShapeBelow (shape_of t.1.now) (shape_of t.2.now) ∷ []) }
{
    match premises {
        Premises::End => None,
        Premises::More(first, rest) => match &first.claim {
            Claim::Typed(ty) => match &**rest {
                Premises::End => None,
                Premises::More(second, rest) => match &second.claim {
                    Claim::ShapeBelow(left, right) => match &**rest {
                        Premises::End => Some((ty, &**left, &**right)),
                        Premises::More(_, _) => None,
                    },
                    _ => None,
                },
            },
            _ => None,
        },
    }
}

/// The type that the first of two premises claims, and the types of which the second one claims that they are below each
/// other.
pub fn type_and_types(premises: &Premises) -> Option<(&Ty, &Ty, &Ty)>
    ensures { MatchOption result (AreNotTypeAndTypes (claims_of (premises_of premises.now))) (λ t. claims_of (premises_of premises.now) ≡ OfType (type_of t.0.now) ∷ TypeBelow (type_of t.1.now) (type_of t.2.now) ∷ []) }
{
    match premises {
        Premises::End => None,
        Premises::More(first, rest) => match &first.claim {
            Claim::Typed(ty) => match &**rest {
                Premises::End => None,
                Premises::More(second, rest) => match &second.claim {
                    Claim::TypeBelow(left, right) => match &**rest {
                        Premises::End => Some((ty, left, right)),
                        Premises::More(_, _) => None,
                    },
                    _ => None,
                },
            },
            _ => None,
        },
    }
}
