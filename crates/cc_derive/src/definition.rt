//! The canonical derivation of an accepted definition.

ghost use Rattle.std.specs.Prelude.{◌≡◌, ◌-◌, ◌^◌, ℕ, ◌≤◌, min, nat_lt, IfOk};
ghost use Rattle.cc_core.specs.Derivations.{OfType, IsValidTyping, Concludes};
ghost use Rattle.cc_core.specs.TermViews.{type_of, note_of, term_of, context_of};
ghost use Rattle.cc_checking.specs.CanonicalDerivations.{definition_derived, shape_derived};
ghost use Rattle.cc_checking.specs.DerivationSizes.{nodes};
ghost use Rattle.cc_derivation.specs.DerivationViews.{der_of};
ghost use Rattle.cc_derive.specs.Trees.{IsTree, IsMade};
ghost use Rattle.cc_derive.specs.Accepting.{IsAcceptedIn, checked_derived};

use crate::ends::noted;
use crate::nodes::{Typing, raise_if};
use crate::terms::derive_term;
use crate::{Making, Tree};
use cc_core::{Checked, Ctx};
use cc_derivation::Der;
use std::alloc::{AllocError, Global};
use std::rc::Rc;

// The derivation of a filled right side as it stands in the context, made as it is to be.
fn derive_as(alloc: Global, build: Making, ctx: &Ctx, checked: &Checked) -> Result<Tree, AllocError>
    ensures { IfOk result (λ t. (m : ℕ) → 4294967295 ≤ m
        → IsMade build t (definition_derived (shape_derived m) (context_of ctx.now) (note_of checked.now.note)
        (term_of checked.now.filled.value) (type_of checked.now.sig))) }
{
    let found = derive_term(alloc, build, ctx, &checked.filled)?;
    let named = noted(alloc, build, ctx, &checked.note, found)?;
    let signed = raise_if(alloc, build, ctx, named, checked.sig.clone()?)?;
    let Typing { ty: _, tree } = signed;
    Ok(tree)
}

/// The derivation of a filled right side as it stands in the context, up to the type that others see, built or counted
/// alone. Where the definition is accepted there, it is the canonical one. What does not match has a node that is no
/// instance of its rule.
///
/// Fails only for want of memory, as which a comparison of more than 2^32 - 1 levels counts.
pub fn derive_filled(
    alloc: Global,
    build: bool,
    ctx: &Ctx,
    checked: &Checked,
) -> Result<Tree, AllocError>
    ensures { IfOk result (λ t. (m : ℕ) → 4294967295 ≤ m
        → IsTree build t (definition_derived (shape_derived m) (context_of ctx.now) (note_of checked.now.note)
        (term_of checked.now.filled.value) (type_of checked.now.sig))) }
{
    let making = Making {
        whole: build,
        limit: u64::MAX,
    };
    let tree = derive_as(alloc, making, ctx, checked)?;
    Ok(tree)
}

/// The canonical derivation of the definition that is accepted, up to the type that others see. The context is that of
/// its right side: where the definition is recursive, its own name is the last entry, with that type. Equal parts of
/// comparisons of sets are shared.
///
/// Fails only for want of memory, as which a comparison of more than 2^32 - 1 levels counts.
pub fn derive(alloc: Global, ctx: &Ctx, checked: &Checked) -> Result<Rc<Der>, AllocError>
    requires { IsAcceptedIn (context_of ctx.now) checked.now }
    ensures is { IfOk result (λ d. der_of d.value ≡ checked_derived (context_of ctx.now) checked.now) }
    ensures valid { IfOk result (λ d. IsValidTyping (context_of ctx.now) (term_of checked.now.filled.value)
        (der_of d.value)) }
    ensures concludes { IfOk result (λ d. Concludes (der_of d.value) (OfType (type_of checked.now.sig))) }
{
    let tree = derive_filled(alloc, true, ctx, checked)?;
    Ok(tree.der.unwrap())
}

/// How many nodes that derivation has, or the greatest number where that is less. No derivation is built, and what
/// would be shared is counted once for all its places.
///
/// Fails only for want of memory, as which a comparison of more than 2^32 - 1 levels counts.
pub fn der_size(alloc: Global, ctx: &Ctx, checked: &Checked) -> Result<u64, AllocError>
    requires { IsAcceptedIn (context_of ctx.now) checked.now }
    ensures { IfOk result (λ n. n ≡ min (nodes (checked_derived (context_of ctx.now) checked.now)) (2 ^ 64 - 1)) }
{
    let tree = derive_filled(alloc, false, ctx, checked)?;
    Ok(tree.nodes)
}

/// Whether that derivation has more nodes than so many. No derivation is built, and what would be shared is counted once
/// for all its places. Of a comparison of functions that has more by what they take, no more is counted.
///
/// Fails only for want of memory, as which a comparison of more than 2^32 - 1 levels counts.
pub fn has_more_nodes(
    alloc: Global,
    ctx: &Ctx,
    checked: &Checked,
    most: u32,
) -> Result<bool, AllocError>
    requires { IsAcceptedIn (context_of ctx.now) checked.now }
    ensures { IfOk result (λ b. b ≡ nat_lt most (nodes (checked_derived (context_of ctx.now) checked.now))) }
{
    let most = u64::from(most);
    let making = Making {
        whole: false,
        limit: most + 1,
    };
    let tree = derive_as(alloc, making, ctx, checked)?;
    Ok(tree.nodes > most)
}
