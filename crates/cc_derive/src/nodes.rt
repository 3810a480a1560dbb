//! Typing nodes, each with the type that it gives.

ghost use Rattle.std.specs.Prelude.{◌≡◌, ℕ, ◌≤◌, IfOk};
ghost use Rattle.cc_core.specs.Derivations.{Derivation, Node, NoPremise, one, two, three, OfType};
ghost use Rattle.cc_core.specs.TermViews.{type_of, context_of};
ghost use Rattle.cc_derivation.specs.DerivationViews.{rule_of};
ghost use Rattle.cc_derive.specs.Trees.{IsMade};
ghost use Rattle.cc_checking.specs.CanonicalDerivations as plain;
ghost use Rattle.cc_derive.specs.Typings.{IsTyping};

use crate::bases::base_type;
use crate::derive_types;
use crate::trees::{Making, Tree, no_parts, one_part, three_parts, two_parts, typing_node};
use cc_base::literal::Base;
use cc_core::same::same_type;
use cc_core::{Ctx, Ty};
use cc_derivation::Rule;
use std::alloc::{AllocError, Global};

/// What is made of a derivation that a term has a type, and the type.
#[derive(Drop)]
pub(crate) struct Typing {
    pub(crate) ty: Ty,
    pub(crate) tree: Tree,
}

/// A node without premises.
pub(crate) fn leaf(alloc: Global, build: Making, rule: Rule, ty: Ty) -> Result<Typing, AllocError>
    ensures { IfOk result (λ t. IsTyping build t (Node (rule_of rule) NoPremise (OfType (type_of ty)))) }
{
    let tree = typing_node(alloc, rule, no_parts(alloc, build), &ty)?;
    Ok(Typing { ty, tree })
}

/// A node over one premise.
pub(crate) fn over_one(
    alloc: Global,
    build: Making,
    rule: Rule,
    first: Tree,
    ty: Ty,
) -> Result<Typing, AllocError>
    ensures { IfOk result (λ t. (d : Derivation) → IsMade build first d
        → IsTyping build t (Node (rule_of rule) (one d) (OfType (type_of ty)))) }
{
    let parts = one_part(alloc, build, first)?;
    let tree = typing_node(alloc, rule, parts, &ty)?;
    Ok(Typing { ty, tree })
}

/// A node over two premises.
pub(crate) fn over_two(
    alloc: Global,
    build: Making,
    rule: Rule,
    first: Tree,
    second: Tree,
    ty: Ty,
) -> Result<Typing, AllocError>
    ensures { IfOk result (λ t. (d e : Derivation) → IsMade build first d → IsMade build second e
        → IsTyping build t (Node (rule_of rule) (two d e) (OfType (type_of ty)))) }
{
    let parts = two_parts(alloc, build, first, second)?;
    let tree = typing_node(alloc, rule, parts, &ty)?;
    Ok(Typing { ty, tree })
}

/// A node over three premises.
pub(crate) fn over_three(
    alloc: Global,
    build: Making,
    rule: Rule,
    first: Tree,
    second: Tree,
    third: Tree,
    ty: Ty,
) -> Result<Typing, AllocError>
    ensures { IfOk result (λ t. (d e f : Derivation) → IsMade build first d → IsMade build second e
        → IsMade build third f → IsTyping build t (Node (rule_of rule) (three d e f) (OfType (type_of ty)))) }
{
    let parts = three_parts(alloc, build, first, second, third)?;
    let tree = typing_node(alloc, rule, parts, &ty)?;
    Ok(Typing { ty, tree })
}

/// What is made of a term that has no derivation.
pub(crate) fn nothing(alloc: Global, build: Making) -> Result<Typing, AllocError>
    ensures { IfOk result (λ t. IsTyping build t plain.nothing_derived) }
{
    let ty = base_type(alloc, Base::Unit)?;
    leaf(alloc, build, Rule::Subsumption, ty)
}

/// The derivation of the term with its type widened.
pub(crate) fn raise(
    alloc: Global,
    build: Making,
    ctx: &Ctx,
    part: Typing,
    ty: Ty,
) -> Result<Typing, AllocError>
    ensures { IfOk result (λ t. (m : ℕ) → 4294967295 ≤ m → (d : Derivation) → IsTyping build part d
        → IsTyping build t (plain.raised (plain.shape_derived m) (context_of ctx.now) d (type_of ty))) }
{
    let Typing { ty: own, tree } = part;
    let below = derive_types(alloc, build, ctx, &own, &ty)?;
    over_two(alloc, build, Rule::Subsumption, tree, below, ty)
}

/// The same where the type differs.
pub(crate) fn raise_if(
    alloc: Global,
    build: Making,
    ctx: &Ctx,
    part: Typing,
    ty: Ty,
) -> Result<Typing, AllocError>
    ensures { IfOk result (λ t. (m : ℕ) → 4294967295 ≤ m → (d : Derivation) → IsTyping build part d
        → IsTyping build t (plain.raised_if (plain.shape_derived m) (context_of ctx.now) d (type_of ty))) }
{
    if same_type(&part.ty, &ty) {
        return Ok(part);
    }
    raise(alloc, build, ctx, part, ty)
}
