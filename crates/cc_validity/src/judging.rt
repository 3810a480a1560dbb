//! Judging derivations: whether each node goes by its rule, or which is the first that does not.

ghost use Rattle.std.specs.Prelude.{◌≡◌, ◌^◌, ◌<◌, [], None, OnOk, IfOk, IfErr};
ghost use Rattle.cc_core.specs.Derivations.{IsValidTyping};
ghost use Rattle.cc_core.specs.TermViews.{term_of, context_of};
ghost use Rattle.cc_derivation.specs.DerivationViews.{der_of};
ghost use Rattle.cc_derivation.specs.Broken.{broken};
ghost use Rattle.cc_derivation.specs.Rows.{TypeOf};
ghost use Rattle.cc_checking.specs.DerivationSizes.{nodes};
ghost use Rattle.cc_validity.specs.Judged.{IsLeastBroken, Denies};
ghost use Rattle.cc_validity.specs.Waiting.{first_or};

use crate::error::ValidityError;
use crate::premises::typing;
use crate::waiting::least_broken;
use cc_core::{Ctx, Node};
use cc_derivation::Der;
use std::alloc::{AllocError, Global};
use std::rc::Rc;

// The least number of a node that breaks its rule, if there is one.
fn first_broken(
    alloc: Global,
    ctx: &Ctx,
    term: &Rc<Node>,
    der: &Rc<Der>,
) -> Result<Option<u32>, AllocError>
    requires { nodes (der_of der.now.value) < 2 ^ 32 }
    ensures { IfOk result (λ o. o ≡ first_or (broken 0 (TypeOf (context_of ctx.now) (term_of term.now.value)) (der_of der.now.value)) None) }
{
    let spot = typing(alloc, ctx, term)?;
    least_broken(alloc, spot, der.clone()?)
}

/// Judges whether the derivation is valid for the term in the context: whether each node is an instance of its rule, and
/// the last one concludes a type of the term. Contexts and terms of the other nodes follow from the root.
///
/// It is refused, as `BadNode`, with the least number in post-order, from 1, of a node that breaks its rule: one that
/// does not fit what is wanted at its place or has not as many premises as its rule, or else is no instance of it. Nodes
/// above one that does not fit have no place, and break no rule. A part that is shared is numbered at each of its places.
/// Else it fails only for want of memory.
///
/// Nodes are gone through by a loop, so the depth of calls grows with the height of terms and types and with the number
/// of elements of a set, and not with the number of nodes.
pub fn valid(alloc: Global, ctx: &Ctx, term: &Rc<Node>, der: &Rc<Der>) -> Result<(), ValidityError>
    requires { nodes (der_of der.now.value) < 2 ^ 32 }
    ensures whole { OnOk result (broken 0 (TypeOf (context_of ctx.now) (term_of term.now.value)) (der_of der.now.value) ≡ []) }
    ensures valid { OnOk result (IsValidTyping (context_of ctx.now) (term_of term.now.value) (der_of der.now.value)) }
    ensures bad { IfErr result (λ e. IsLeastBroken e (broken 0 (TypeOf (context_of ctx.now) (term_of term.now.value)) (der_of der.now.value))) }
    ensures invalid { IfErr result (λ e. Denies e (IsValidTyping (context_of ctx.now) (term_of term.now.value) (der_of der.now.value))) }
{
    match first_broken(alloc, ctx, term, der)? {
        None => Ok(()),
        Some(number) => Err(ValidityError::BadNode { number }),
    }
}
