//! Whether a comparison is an instance of its rule.

ghost use Rattle.std.specs.Prelude.{◌≡◌, ◌+◌, Some, [], ◌∷◌, length, drop, map, IfOk, MatchOption};
ghost use Rattle.cc_core.specs.Contexts.{Context};
ghost use Rattle.cc_core.specs.Derivations.{SetBelow, ShapeBelow, TypeBelow};
ghost use Rattle.cc_core.specs.Substitution.{single, opened_type};
ghost use Rattle.cc_core.specs.TermViews.{shape_of, type_of, bind_of, context_of};
ghost use Rattle.cc_derivation.specs.DerivationViews.{rule_of, claim_of, premises_of};
ghost use Rattle.cc_validity.specs.ClaimedPremises.{instance_of};
ghost use Rattle.cc_derivation.specs.Broken.{claims_of};
ghost use Rattle.cc_derivation.specs.Rows as plain;
ghost use Rattle.cc_validity.specs.ClaimedPremises.{only_element, AreNotOne, AreNotTwo};

use cc_capture::{CapSet, Elem, Var};
use cc_core::same::{same_shape, same_type};
use cc_core::substitution::instantiate;
use cc_core::{Bind, Ctx, Shape, Ty};
use cc_derivation::{Claim, Premises, Rule};
use std::alloc::{AllocError, Global};

// Whether the claim is that the left set is below the right one.
fn claims_sets(claim: &Claim, left: &CapSet, right: &CapSet) -> bool
    ensures { result ≡ plain.same_claim (claim_of claim.now) (SetBelow left.now right.now) }
{
    match claim {
        Claim::SetBelow(lower, upper) => *lower == *left && *upper == *right,
        _ => false,
    }
}

// Whether it is that the left shape is.
fn claims_shapes(claim: &Claim, left: &Shape, right: &Shape) -> bool
    ensures { result ≡ plain.same_claim (claim_of claim.now) (ShapeBelow (shape_of left.now) (shape_of right.now)) }
{
    match claim {
        Claim::ShapeBelow(lower, upper) => same_shape(lower, left) && same_shape(upper, right),
        _ => false,
    }
}

// Whether it is that the left type is.
fn claims_types(claim: &Claim, left: &Ty, right: &Ty) -> bool
    ensures { result ≡ plain.same_claim (claim_of claim.now) (TypeBelow (type_of left.now) (type_of right.now)) }
{
    match claim {
        Claim::TypeBelow(lower, upper) => same_type(lower, left) && same_type(upper, right),
        _ => false,
    }
}

// What the one premise claims.
fn one_claim(premises: &Premises) -> Option<&Claim>
    ensures { MatchOption result (AreNotOne (claims_of (premises_of premises.now))) (λ p. claims_of (premises_of premises.now) ≡ claim_of p.now ∷ []) }
{
    match premises {
        Premises::End => None,
        Premises::More(first, rest) => match &**rest {
            Premises::End => Some(&first.claim),
            Premises::More(_, _) => None,
        },
    }
}

// What the two premises claim.
fn two_claims(premises: &Premises) -> Option<(&Claim, &Claim)>
    ensures { MatchOption result (AreNotTwo (claims_of (premises_of premises.now))) (λ p. claims_of (premises_of premises.now) ≡ claim_of p.0.now ∷ claim_of p.1.now ∷ []) }
{
    match premises {
        Premises::End => None,
        Premises::More(first, rest) => match &**rest {
            Premises::End => None,
            Premises::More(second, rest) => match &**rest {
                Premises::End => Some((&first.claim, &second.claim)),
                Premises::More(_, _) => None,
            },
        },
    }
}

/// The only element of the set, if it has one alone.
pub fn only_element(set: &CapSet) -> Option<Elem>
    ensures { result ≡ only_element set.now.list }
{
    match set.get(1) {
        Some(_) => None,
        None => set.get(0),
    }
}

// The set of an element is below a set that has it.
fn is_element(left: &CapSet, right: &CapSet) -> bool
    ensures { result ≡ plain.is_element left.now.list right.now }
{
    match only_element(left) {
        Some(elem) => right.contains(elem),
        None => false,
    }
}

// Whether the one premise claims that the left set is below the right one.
fn is_below(left: &CapSet, right: &CapSet, premises: &Premises) -> bool
    ensures { result ≡ plain.same_claims (claims_of (premises_of premises.now)) (SetBelow left.now right.now ∷ []) }
{
    match one_claim(premises) {
        Some(claim) => claims_sets(claim, left, right),
        None => false,
    }
}

// Whether the premise claims that the declared set of the entry is below the set.
fn is_declared_by(bind: &Bind, right: &CapSet, premises: &Premises) -> bool
    ensures { result ≡ plain.is_declared (Some (bind_of bind.now)) right.now (claims_of (premises_of premises.now)) }
{
    match bind {
        Bind::Var(ty) => is_below(&ty.set, right, premises),
        Bind::TVar(_) => false,
        Bind::Unread { set, .. } => is_below(set, right, premises),
    }
}

// Whether the premise claims that the declared set of the variable is below the set.
fn is_declared(ctx: &Ctx, variable: Var, right: &CapSet, premises: &Premises) -> bool
    ensures { result ≡ plain.is_declared (plain.entry_at (context_of ctx.now) variable) right.now (claims_of (premises_of premises.now)) }
{
    match variable {
        Var::Free(position) => match ctx.get(position) {
            Some(bind) => is_declared_by(bind, right, premises),
            None => false,
        },
        Var::Bound(_) => false,
    }
}

// The set of a variable is below a set that its declared set is below.
fn is_variable(ctx: &Ctx, left: &CapSet, right: &CapSet, premises: &Premises) -> bool
    ensures { result ≡ instance_of (plain.variable_row (context_of ctx.now) left.now.list right.now) (claims_of (premises_of premises.now)) }
{
    match only_element(left) {
        Some(elem) => match elem {
            Elem::Var(variable) => is_declared(ctx, variable, right, premises),
            Elem::Cap => false,
            Elem::Hole(_) => false,
        },
        None => false,
    }
}

// The set with the element alone.
fn single(alloc: Global, elem: Elem) -> Result<CapSet, AllocError>
    ensures { IfOk result (λ s. s ≡ single elem) }
{
    let mut set = CapSet::new(alloc);
    set.insert(elem)?;
    Ok(set)
}

/// The element of the set at the index, with the others behind it, if it has so many.
pub fn element_at(set: &CapSet, index: usize) -> Option<Elem>
    ensures { MatchOption result (drop index set.now.list ≡ []) (λ e. drop index set.now.list ≡ e ∷ drop (index + 1) set.now.list) }
{
    set.get(index)
}

// Whether the premises claim that the sets of the elements from the index on are below the right set.
fn are_below(
    alloc: Global,
    left: &CapSet,
    index: usize,
    right: &CapSet,
    premises: &Premises,
) -> Result<bool, AllocError>
    ensures { IfOk result (λ b. b ≡ plain.same_claims (claims_of (premises_of premises.now)) (map (λ e. SetBelow (single e) right.now) (drop index left.now.list))) }
{
    let mut at = index;
    let mut others = premises;
    while let Premises::More(first, rest) = others {
        match element_at(left, at) {
            None => return Ok(false),
            Some(elem) => {
                let set = single(alloc, elem)?;
                if !claims_sets(&first.claim, &set, right) {
                    return Ok(false);
                }
                at = at.checked_add(1).ok_or(AllocError)?;
                others = &**rest;
            }
        }
    }
    match element_at(left, at) {
        None => Ok(true),
        Some(_) => Ok(false),
    }
}

/// Whether a comparison of sets, by the rule and with these premises, is an instance of its rule.
pub fn set_instance(
    alloc: Global,
    ctx: &Ctx,
    rule: Rule,
    premises: &Premises,
    left: &CapSet,
    right: &CapSet,
) -> Result<bool, AllocError>
    ensures { IfOk result (λ b. b ≡ instance_of (plain.set_row (context_of ctx.now) (rule_of rule) left.now right.now) (claims_of (premises_of premises.now))) }
{
    match rule {
        Rule::ByElement => Ok(is_element(left, right)),
        Rule::ByVariable => Ok(is_variable(ctx, left, right, premises)),
        Rule::BySet => are_below(alloc, left, 0, right, premises),
        _ => Ok(false),
    }
}

// Whether the premises lead from the left shape to the right one by way of a third.
fn is_chain(left: &Shape, right: &Shape, premises: &Premises) -> bool
    ensures { result ≡ plain.is_chain (shape_of left.now) (shape_of right.now) (claims_of (premises_of premises.now)) }
{
    match two_claims(premises) {
        Some((first, second)) => match first {
            Claim::ShapeBelow(lower, middle) => match second {
                Claim::ShapeBelow(other, upper) => same_shape(lower, left)
                    && (same_shape(middle, other) && same_shape(upper, right)),
                _ => false,
            },
            _ => false,
        },
        None => false,
    }
}

// Whether the entry is a type variable with the bound.
fn is_bound(bind: &Bind, right: &Shape) -> bool
    ensures { result ≡ plain.is_bound (Some (bind_of bind.now)) (shape_of right.now) }
{
    match bind {
        Bind::Var(_) => false,
        Bind::TVar(bound) => same_shape(bound, right),
        Bind::Unread { .. } => false,
    }
}

// Whether the left shape is a type variable with the bound.
fn is_bounded(ctx: &Ctx, left: &Shape, right: &Shape) -> bool
    ensures { result ≡ plain.is_bounded (context_of ctx.now) (shape_of left.now) (shape_of right.now) }
{
    match left {
        Shape::TVar(variable) => match variable {
            Var::Free(position) => match ctx.get(*position) {
                Some(bind) => is_bound(bind, right),
                None => false,
            },
            Var::Bound(_) => false,
        },
        _ => false,
    }
}

// Whether the shape is the greatest one.
fn is_greatest(shape: &Shape) -> bool
    ensures { result ≡ plain.is_greatest (shape_of shape.now) }
{
    match shape {
        Shape::Any => true,
        _ => false,
    }
}

// How many entries the context has.
fn entries(ctx: &Ctx) -> u32
    ensures { result ≡ length (context_of ctx.now) }
{
    ctx.len()
}

// The type of what stands under the newest entry, which is not yet in the context.
fn opened(alloc: Global, ctx: &Ctx, ty: &Ty) -> Result<Ty, AllocError>
    ensures { IfOk result (λ t. type_of t ≡ opened_type (length (context_of ctx.now)) (type_of ty.now)) }
{
    instantiate(alloc, ty, entries(ctx))
}

// Functions, by what they take and give.
fn are_functions(
    alloc: Global,
    ctx: &Ctx,
    left: &Shape,
    right: &Shape,
    premises: &Premises,
) -> Result<bool, AllocError>
    ensures { IfOk result (λ b. b ≡ instance_of (plain.functions_row (context_of ctx.now) (shape_of left.now) (shape_of right.now)) (claims_of (premises_of premises.now))) }
{
    match left {
        Shape::Fun(takes, gives) => match right {
            Shape::Fun(other_takes, other_gives) => match two_claims(premises) {
                Some((first, second)) => {
                    let gives = opened(alloc, ctx, gives)?;
                    let other_gives = opened(alloc, ctx, other_gives)?;
                    Ok(
                        claims_types(first, other_takes, takes)
                            && claims_types(second, &gives, &other_gives),
                    )
                }
                None => Ok(false),
            },
            _ => Ok(false),
        },
        _ => Ok(false),
    }
}

// Type functions of one bound, by what they give.
fn are_type_functions(
    alloc: Global,
    ctx: &Ctx,
    left: &Shape,
    right: &Shape,
    premises: &Premises,
) -> Result<bool, AllocError>
    ensures { IfOk result (λ b. b ≡ instance_of (plain.type_functions_row (context_of ctx.now) (shape_of left.now) (shape_of right.now)) (claims_of (premises_of premises.now))) }
{
    match left {
        Shape::TFun(bound, gives) => match right {
            Shape::TFun(other_bound, other_gives) => {
                if !same_shape(bound, other_bound) {
                    return Ok(false);
                }
                match two_claims(premises) {
                    Some((first, second)) => {
                        let gives = opened(alloc, ctx, gives)?;
                        let other_gives = opened(alloc, ctx, other_gives)?;
                        Ok(
                            claims_shapes(first, bound, bound)
                                && claims_types(second, &gives, &other_gives),
                        )
                    }
                    None => Ok(false),
                }
            }
            _ => Ok(false),
        },
        _ => Ok(false),
    }
}

// Boxes, by their contents.
fn are_boxes(left: &Shape, right: &Shape, premises: &Premises) -> bool
    ensures { (g : Context) → result ≡ instance_of (plain.boxes_row g (shape_of left.now) (shape_of right.now)) (claims_of (premises_of premises.now)) }
{
    match left {
        Shape::Boxed(content) => match right {
            Shape::Boxed(other) => match one_claim(premises) {
                Some(claim) => claims_types(claim, content, other),
                None => false,
            },
            _ => false,
        },
        _ => false,
    }
}

/// Whether a comparison of shapes, by the rule and with these premises, is an instance of its rule.
pub fn shape_instance(
    alloc: Global,
    ctx: &Ctx,
    rule: Rule,
    premises: &Premises,
    left: &Shape,
    right: &Shape,
) -> Result<bool, AllocError>
    ensures { IfOk result (λ b. b ≡ instance_of (plain.shape_row (context_of ctx.now) (rule_of rule) (shape_of left.now) (shape_of right.now)) (claims_of (premises_of premises.now))) }
{
    match rule {
        Rule::ByReflexivity => Ok(same_shape(left, right)),
        Rule::ByTransitivity => Ok(is_chain(left, right, premises)),
        Rule::ByTypeVariable => Ok(is_bounded(ctx, left, right)),
        Rule::ByTop => Ok(is_greatest(right)),
        Rule::ByFunction => are_functions(alloc, ctx, left, right, premises),
        Rule::ByTypeFunction => are_type_functions(alloc, ctx, left, right, premises),
        Rule::ByBox => Ok(are_boxes(left, right, premises)),
        _ => Ok(false),
    }
}

// Whether the premises claim that the sets and the shapes of the types are below each other.
fn are_parts(left: &Ty, right: &Ty, premises: &Premises) -> bool
    ensures { result ≡ plain.same_claims (claims_of (premises_of premises.now)) (SetBelow (type_of left.now).set (type_of right.now).set ∷ ShapeBelow (type_of left.now).shape (type_of right.now).shape ∷ []) }
{
    match two_claims(premises) {
        Some((first, second)) => claims_sets(first, &left.set, &right.set)
            && claims_shapes(second, &left.shape, &right.shape),
        None => false,
    }
}

/// Whether a comparison of types, by the rule and with these premises, is an instance of its rule.
pub fn type_instance(rule: Rule, premises: &Premises, left: &Ty, right: &Ty) -> bool
    ensures { (g : Context) → result ≡ instance_of (plain.type_row g (rule_of rule) (type_of left.now) (type_of right.now)) (claims_of (premises_of premises.now)) }
{
    match rule {
        Rule::ByCapturing => are_parts(left, right, premises),
        _ => false,
    }
}
