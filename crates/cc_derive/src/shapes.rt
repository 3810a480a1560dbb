//! That a shape or a type is below another, as their comparison goes. What is made of each comparison is that of the
//! canonical derivation with any number of steps that is not below the number of levels that were allowed.

ghost use Rattle.std.specs.Prelude.{◌≡◌, ℕ, ◌≤◌, ◌∷◌, false, length, IfOk, IsTrue};
ghost use Rattle.cc_core.specs.Contexts.{TypeEntry, entry_of};
ghost use Rattle.cc_core.specs.Shapes.{FunctionShape, TypeFunctionShape, BoxShape, TypeVariable};
ghost use Rattle.cc_core.specs.Substitution.{opened_type};
ghost use Rattle.cc_core.specs.TermViews.{shape_of, type_of, context_of};
ghost use Rattle.cc_checking.specs.CanonicalDerivations as plain;
ghost use Rattle.cc_checking.specs.Comparison as compared;
ghost use Rattle.cc_derivation.specs.DerivationViews.{rule_of};
ghost use Rattle.cc_core.specs.Derivations.{Node, NoPremise, ShapeBelow};
ghost use Rattle.cc_derive.specs.Steps.{step_derived};
ghost use Rattle.cc_derive.specs.Trees.{IsMade};

use crate::sets::derive_sets;
use crate::trees::{Making, Tree, no_parts, one_part, shape_node, two_parts, type_node};
use cc_capture::Var;
use cc_core::same::same_shape;
use cc_core::substitution::instantiate;
use cc_core::{Bind, Ctx, Shape, Ty};
use cc_derivation::Rule;
use cc_subty::exposing::bound_of;
use std::alloc::{AllocError, Global};
use std::rc::Rc;

// A node without premises.
fn leaf(
    alloc: Global,
    build: Making,
    rule: Rule,
    left: &Rc<Shape>,
    right: &Rc<Shape>,
) -> Result<Tree, AllocError>
    ensures { IfOk result (λ t. IsMade build t (Node (rule_of rule) NoPremise (ShapeBelow (shape_of left.now.value) (shape_of right.now.value)))) }
{
    shape_node(alloc, rule, no_parts(alloc, build), left, right)
}

// Whether the shape is the greatest one.
fn is_any(shape: &Shape) -> bool
    ensures { result ≡ compared.is_any (shape_of shape.now) }
{
    match shape {
        Shape::Any => true,
        _ => false,
    }
}

// How many entries the context has.
fn entries(ctx: &Ctx) -> u32
    ensures { result ≡ length (context_of ctx.now) }
{
    ctx.len()
}

// The type of what stands under the newest entry, which is not yet in the context.
fn opened(alloc: Global, ctx: &Ctx, ty: &Ty) -> Result<Ty, AllocError>
    ensures { IfOk result (λ t. type_of t ≡ opened_type (length (context_of ctx.now)) (type_of ty.now)) }
{
    instantiate(alloc, ty, entries(ctx))
}

// The context with a variable of the type.
fn with_variable(alloc: Global, ctx: &Ctx, ty: &Ty) -> Result<Ctx, AllocError>
    ensures { IfOk result (λ c. context_of c ≡ entry_of (type_of ty.now) ∷ context_of ctx.now) }
{
    ctx.push(alloc, Bind::Var(ty.clone()?))
}

// The context with a type variable of the bound.
fn with_type_variable(alloc: Global, ctx: &Ctx, bound: &Rc<Shape>) -> Result<Ctx, AllocError>
    ensures { IfOk result (λ c. context_of c ≡ TypeEntry (shape_of bound.now.value) ∷ context_of ctx.now) }
{
    ctx.push(alloc, Bind::TVar(bound.clone()?))
}

// A type variable is below its bound, and that below the rest.
#[cycle(shapes)]
fn variable_below(
    alloc: Global,
    build: Making,
    ctx: &Ctx,
    left: &Rc<Shape>,
    variable: Var,
    right: &Rc<Shape>,
    steps: u32,
) -> Result<Tree, AllocError>
    requires { shape_of left.now.value ≡ TypeVariable variable }
    ensures { IfOk result (λ t. (m : ℕ) → steps ≤ m → IsMade build t (plain.bound_derived (plain.shape_derived m) (context_of ctx.now) variable (compared.bound_of (context_of ctx.now) variable) (shape_of right.now.value))) }
{
    match bound_of(ctx, variable) {
        Some(bound) => {
            let first = leaf(alloc, build, Rule::ByTypeVariable, left, bound)?;
            let rest = shapes_below(alloc, build, ctx, bound, right, steps)?;
            let parts = two_parts(alloc, build, first, rest)?;
            shape_node(alloc, Rule::ByTransitivity, parts, left, right)
        }
        None => leaf(alloc, build, Rule::ByReflexivity, left, right),
    }
}

// Whether the tree is counted alone, and its nodes have reached the limit.
fn has_enough(build: Making, tree: &Tree) -> bool
    ensures { IsTrue result → (build.whole ≡ false) × (build.limit ≤ tree.now.nodes) }
{
    !build.whole && build.limit <= tree.nodes
}

// What functions give, under what the right one takes.
#[cycle(shapes)]
fn given_below(
    alloc: Global,
    build: Making,
    ctx: &Ctx,
    others: &Ty,
    gives: &Ty,
    other_gives: &Ty,
    steps: u32,
) -> Result<Tree, AllocError>
    ensures { IfOk result (λ t. (m : ℕ) → steps ≤ m → IsMade build t (plain.type_derived (plain.shape_derived m) (entry_of (type_of others.now) ∷ context_of ctx.now) (opened_type (length (context_of ctx.now)) (type_of gives.now)) (opened_type (length (context_of ctx.now)) (type_of other_gives.now)))) }
{
    let under = with_variable(alloc, ctx, others)?;
    let gives = opened(alloc, ctx, gives)?;
    let other_gives = opened(alloc, ctx, other_gives)?;
    let given = types_below(alloc, build, &under, &gives, &other_gives, steps)?;
    Ok(given)
}

// Functions: what the right one takes is below what the left one does, and then what they give. Where the first are
// enough nodes, the others are not counted.
#[cycle(shapes)]
fn function_below(
    alloc: Global,
    build: Making,
    ctx: &Ctx,
    left: &Rc<Shape>,
    takes: &Ty,
    gives: &Ty,
    right: &Rc<Shape>,
    steps: u32,
) -> Result<Tree, AllocError>
    requires { shape_of left.now.value ≡ FunctionShape (type_of takes.now).shape (type_of takes.now).set (type_of gives.now).shape (type_of gives.now).set }
    ensures { IfOk result (λ t. (m : ℕ) → steps ≤ m → IsMade build t (plain.functions_derived (plain.shape_derived m) (context_of ctx.now) (type_of takes.now) (type_of gives.now) (shape_of right.now.value))) }
{
    match &**right {
        Shape::Fun(others, other_gives) => {
            let taken = types_below(alloc, build, ctx, others, takes, steps)?;
            if has_enough(build, &taken) {
                return Ok(Tree {
                    nodes: taken.nodes,
                    der: None,
                });
            }
            let given = given_below(alloc, build, ctx, others, gives, other_gives, steps)?;
            let parts = two_parts(alloc, build, taken, given)?;
            shape_node(alloc, Rule::ByFunction, parts, left, right)
        }
        _ => leaf(alloc, build, Rule::ByReflexivity, left, right),
    }
}

// What type functions give, under the bound of the left one.
#[cycle(shapes)]
fn results_below(
    alloc: Global,
    build: Making,
    ctx: &Ctx,
    bound: &Rc<Shape>,
    gives: &Ty,
    other_gives: &Ty,
    steps: u32,
) -> Result<Tree, AllocError>
    ensures { IfOk result (λ t. (m : ℕ) → steps ≤ m → IsMade build t (plain.type_derived (plain.shape_derived m) (TypeEntry (shape_of bound.now.value) ∷ context_of ctx.now) (opened_type (length (context_of ctx.now)) (type_of gives.now)) (opened_type (length (context_of ctx.now)) (type_of other_gives.now)))) }
{
    let under = with_type_variable(alloc, ctx, bound)?;
    let gives = opened(alloc, ctx, gives)?;
    let other_gives = opened(alloc, ctx, other_gives)?;
    let given = types_below(alloc, build, &under, &gives, &other_gives, steps)?;
    Ok(given)
}

#[cycle(shapes)]
fn type_function_below(
    alloc: Global,
    build: Making,
    ctx: &Ctx,
    left: &Rc<Shape>,
    bound: &Rc<Shape>,
    gives: &Ty,
    right: &Rc<Shape>,
    steps: u32,
) -> Result<Tree, AllocError>
    requires { shape_of left.now.value ≡ TypeFunctionShape (shape_of bound.now.value) (type_of gives.now).shape (type_of gives.now).set }
    ensures { IfOk result (λ t. (m : ℕ) → steps ≤ m → IsMade build t (plain.type_functions_derived (plain.shape_derived m) (context_of ctx.now) (shape_of bound.now.value) (type_of gives.now) (shape_of right.now.value))) }
{
    match &**right {
        Shape::TFun(other, other_gives) => {
            let bounds = leaf(alloc, build, Rule::ByReflexivity, bound, other)?;
            let given = results_below(alloc, build, ctx, bound, gives, other_gives, steps)?;
            let parts = two_parts(alloc, build, bounds, given)?;
            shape_node(alloc, Rule::ByTypeFunction, parts, left, right)
        }
        _ => leaf(alloc, build, Rule::ByReflexivity, left, right),
    }
}

#[cycle(shapes)]
fn box_below(
    alloc: Global,
    build: Making,
    ctx: &Ctx,
    left: &Rc<Shape>,
    content: &Ty,
    right: &Rc<Shape>,
    steps: u32,
) -> Result<Tree, AllocError>
    requires { shape_of left.now.value ≡ BoxShape (type_of content.now).shape (type_of content.now).set }
    ensures { IfOk result (λ t. (m : ℕ) → steps ≤ m → IsMade build t (plain.boxes_derived (plain.shape_derived m) (context_of ctx.now) (type_of content.now) (shape_of right.now.value))) }
{
    match &**right {
        Shape::Boxed(other) => {
            let contents = types_below(alloc, build, ctx, content, other, steps)?;
            let parts = one_part(alloc, build, contents)?;
            shape_node(alloc, Rule::ByBox, parts, left, right)
        }
        _ => leaf(alloc, build, Rule::ByReflexivity, left, right),
    }
}

// Two shapes that differ, by the form of the left one.
#[cycle(shapes)]
#[tactic(auto, unfolding(cc_checking::specs::CanonicalDerivations::form_derived))]
fn form_below(
    alloc: Global,
    build: Making,
    ctx: &Ctx,
    left: &Rc<Shape>,
    right: &Rc<Shape>,
    steps: u32,
) -> Result<Tree, AllocError>
    ensures { IfOk result (λ t. (m : ℕ) → steps ≤ m → IsMade build t (plain.form_derived (plain.shape_derived m) (context_of ctx.now) (shape_of left.now.value) (shape_of right.now.value))) }
{
    match &**left {
        Shape::Base(_) => leaf(alloc, build, Rule::ByReflexivity, left, right),
        Shape::Any => leaf(alloc, build, Rule::ByReflexivity, left, right),
        Shape::TVar(variable) => variable_below(alloc, build, ctx, left, *variable, right, steps),
        Shape::Fun(takes, gives) => {
            function_below(alloc, build, ctx, left, takes, gives, right, steps)
        }
        Shape::TFun(bound, gives) => {
            type_function_below(alloc, build, ctx, left, bound, gives, right, steps)
        }
        Shape::Boxed(content) => box_below(alloc, build, ctx, left, content, right, steps),
        Shape::Exit(_) => leaf(alloc, build, Rule::ByReflexivity, left, right),
    }
}

// Two shapes, where a level was entered for them.
#[cycle(shapes)]
fn step_below(
    alloc: Global,
    build: Making,
    ctx: &Ctx,
    left: &Rc<Shape>,
    right: &Rc<Shape>,
    steps: u32,
) -> Result<Tree, AllocError>
    ensures { IfOk result (λ t. (m : ℕ) → steps ≤ m → IsMade build t (step_derived (plain.shape_derived m) (context_of ctx.now) (shape_of left.now.value) (shape_of right.now.value))) }
{
    if same_shape(left, right) {
        return leaf(alloc, build, Rule::ByReflexivity, left, right);
    }
    if is_any(right) {
        return leaf(alloc, build, Rule::ByTop, left, right);
    }
    form_below(alloc, build, ctx, left, right, steps)
}

// Two shapes in so many levels at most.
#[cycle(shapes)]
fn shapes_below(
    alloc: Global,
    build: Making,
    ctx: &Ctx,
    left: &Rc<Shape>,
    right: &Rc<Shape>,
    steps: u32,
) -> Result<Tree, AllocError>
    ensures { IfOk result (λ t. (m : ℕ) → steps ≤ m → IsMade build t (plain.shape_derived m (context_of ctx.now) (shape_of left.now.value) (shape_of right.now.value))) }
{
    if steps == 0 {
        return Err(AllocError);
    }
    step_below(alloc, build, ctx, left, right, steps - 1)
}

// Two types in so many levels at most.
#[cycle(shapes)]
fn types_below(
    alloc: Global,
    build: Making,
    ctx: &Ctx,
    left: &Ty,
    right: &Ty,
    steps: u32,
) -> Result<Tree, AllocError>
    ensures { IfOk result (λ t. (m : ℕ) → steps ≤ m → IsMade build t (plain.type_derived (plain.shape_derived m) (context_of ctx.now) (type_of left.now) (type_of right.now))) }
{
    let sets = derive_sets(alloc, build, ctx, &left.set, &right.set)?;
    let shapes = shapes_below(alloc, build, ctx, &left.shape, &right.shape, steps)?;
    let parts = two_parts(alloc, build, sets, shapes)?;
    type_node(alloc, parts, left, right)
}

/// The canonical derivation that the left shape is below the right one, built or counted alone.
///
/// Fails only for want of memory, as which more than 2^32 - 1 levels count.
pub fn derive_shapes(
    alloc: Global,
    build: Making,
    ctx: &Ctx,
    left: &Rc<Shape>,
    right: &Rc<Shape>,
) -> Result<Tree, AllocError>
    ensures { IfOk result (λ t. (m : ℕ) → 4294967295 ≤ m → IsMade build t (plain.shape_derived m (context_of ctx.now) (shape_of left.now.value) (shape_of right.now.value))) }
{
    shapes_below(alloc, build, ctx, left, right, u32::MAX)
}

/// The canonical derivation that the left type is below the right one, built or counted alone.
///
/// Fails only for want of memory, as which more than 2^32 - 1 levels count.
pub fn derive_types(
    alloc: Global,
    build: Making,
    ctx: &Ctx,
    left: &Ty,
    right: &Ty,
) -> Result<Tree, AllocError>
    ensures { IfOk result (λ t. (m : ℕ) → 4294967295 ≤ m → IsMade build t (plain.type_derived (plain.shape_derived m) (context_of ctx.now) (type_of left.now) (type_of right.now))) }
{
    types_below(alloc, build, ctx, left, right, u32::MAX)
}
