//! The first parts of two shapes that do not match, by going down from parts to parts inside them.

ghost use Rattle.std.specs.Prelude.{◌≡◌, ◌∷◌, length, Some, IfOk};
ghost use Rattle.std.specs.Option.{option_map};
ghost use Rattle.cc_capture.specs.Sets.{empty};
ghost use Rattle.cc_core.specs.Contexts.{TypeEntry, entry_of};
ghost use Rattle.cc_core.specs.Equality.{same_shape};
ghost use Rattle.cc_core.specs.Shapes.{FunctionShape, TypeFunctionShape, BoxShape, TypeVariable};
ghost use Rattle.cc_core.specs.Substitution.{opened_type};
ghost use Rattle.cc_core.specs.TermViews.{shape_of, type_of, context_of};
ghost use Rattle.cc_core.specs.WellFormed.{IsWellFormedContext, IsWellFormedShape, IsWellFormedType};
ghost use Rattle.cc_checking.specs.Comparison.{IsMismatch, Mismatch, comparison};
ghost use Rattle.cc_type.specs.Comparing.{most_steps};
ghost use Rattle.cc_reasons.specs.Mismatches.{pair};
ghost use Rattle.cc_mismatch.specs.Descents.{LeadsTo, AreFirstParts, IsMatched, IsWellFormedPair, pair_compared};
ghost use Rattle.cc_mismatch.specs.Views.{pair_of};

use crate::parts::Parts;
use cc_base::place::Place;
use cc_capture::{CapSet, Var};
use cc_core::same::same_shape;
use cc_core::substitution::instantiate;
use cc_core::{Ctx, Shape, Ty};
use cc_known::stop::Stop;
use cc_subty::exposing::bound_of;
use cc_type::Log;
use cc_type::comparing::below;
use cc_type::contexts::{with_type_variable, with_variable};
use std::alloc::{AllocError, Global};
use std::rc::Rc;

// The type of the shape that captures nothing.
fn pure_type(alloc: Global, shape: &Rc<Shape>) -> Result<Ty, AllocError>
    ensures { IfOk result (λ t. type_of t ≡ record { shape = shape_of shape.now.value; set = empty }) }
{
    let shape = shape.clone()?;
    Ok(Ty {
        shape,
        set: CapSet::new(alloc),
    })
}

// Whether the shapes match. What is compared of them is remembered as in inference.
fn matches(
    alloc: Global,
    ctx: &Ctx,
    left: &Rc<Shape>,
    right: &Rc<Shape>,
) -> Result<bool, AllocError>
    requires context { IsWellFormedContext (context_of ctx.now) }
    requires left { IsWellFormedShape (context_of ctx.now) (shape_of left.now.value) }
    requires right { IsWellFormedShape (context_of ctx.now) (shape_of right.now.value) }
    ensures { IfOk result (λ m. IsMatched (comparison most_steps (context_of ctx.now) (shape_of left.now.value) (shape_of right.now.value)) m) }
{
    let left = pure_type(alloc, left)?;
    let right = pure_type(alloc, right)?;
    let at = Place { line: 0, col: 0 };
    let mut log = Log::new(alloc);
    match below(alloc, ctx, &left, &right, at, &mut log) {
        Ok(()) => Ok(true),
        Err(Stop::Refused(_)) => Ok(false),
        Err(Stop::NoMemory) => Err(AllocError),
    }
}

// How many entries the context has.
fn entries(ctx: &Ctx) -> u32
    ensures { result ≡ length (context_of ctx.now) }
{
    ctx.len()
}

// The type of what stands under the newest entry, which is not yet in the context.
fn opened(alloc: Global, ctx: &Ctx, ty: &Ty) -> Result<Ty, AllocError>
    ensures { IfOk result (λ t. type_of t ≡ opened_type (length (context_of ctx.now)) (type_of ty.now)) }
{
    instantiate(alloc, ty, entries(ctx))
}

// The shapes in the context.
fn parts_in(ctx: &Ctx, found: &Rc<Shape>, wanted: &Rc<Shape>) -> Result<Parts, AllocError>
    ensures { IfOk result (λ p. pair_of p ≡ pair (context_of ctx.now) (shape_of found.now.value) (shape_of wanted.now.value)) }
{
    let ctx = ctx.clone()?;
    let found = found.clone()?;
    let wanted = wanted.clone()?;
    Ok(Parts { ctx, found, wanted })
}

// Into the bound of a type variable.
fn into_bound(ctx: &Ctx, variable: Var, right: &Rc<Shape>) -> Result<Option<Parts>, AllocError>
    requires context { IsWellFormedContext (context_of ctx.now) }
    requires right { IsWellFormedShape (context_of ctx.now) (shape_of right.now.value) }
    ensures { IfOk result (λ inner. LeadsTo (pair (context_of ctx.now) (TypeVariable variable) (shape_of right.now.value)) (option_map pair_of inner)) }
{
    match bound_of(ctx, variable) {
        Some(bound) => Ok(Some(parts_in(ctx, bound, right)?)),
        None => Ok(None),
    }
}

// What functions give, under the parameter of the right one.
fn given(
    alloc: Global,
    ctx: &Ctx,
    others: &Ty,
    gives: &Ty,
    other_gives: &Ty,
) -> Result<Parts, AllocError>
    requires context { IsWellFormedContext (context_of ctx.now) }
    requires others { IsWellFormedType (context_of ctx.now) (type_of others.now) }
    ensures { let g = context_of ctx.now in
        IfOk result (λ p. pair_of p ≡ pair (entry_of (type_of others.now) ∷ g) (opened_type (length g) (type_of gives.now)).shape (opened_type (length g) (type_of other_gives.now)).shape) }
{
    let under = with_variable(alloc, ctx, others)?;
    let found = opened(alloc, ctx, gives)?;
    let wanted = opened(alloc, ctx, other_gives)?;
    parts_in(&under, &found.shape, &wanted.shape)
}

// Into what functions take, where that does not match, and else into what they give.
fn into_functions(
    alloc: Global,
    ctx: &Ctx,
    takes: &Ty,
    gives: &Ty,
    others: &Ty,
    other_gives: &Ty,
) -> Result<Parts, AllocError>
    requires context { IsWellFormedContext (context_of ctx.now) }
    requires left { let t = type_of takes.now in let g = type_of gives.now in
        IsWellFormedShape (context_of ctx.now) (FunctionShape t.shape t.set g.shape g.set) }
    requires right { let t = type_of others.now in let g = type_of other_gives.now in
        IsWellFormedShape (context_of ctx.now) (FunctionShape t.shape t.set g.shape g.set) }
    ensures { let t = type_of takes.now in let g = type_of gives.now in let t' = type_of others.now in let g' = type_of other_gives.now in
        IfOk result (λ inner. LeadsTo (pair (context_of ctx.now) (FunctionShape t.shape t.set g.shape g.set) (FunctionShape t'.shape t'.set g'.shape g'.set)) (Some (pair_of inner))) }
{
    if matches(alloc, ctx, &others.shape, &takes.shape)? {
        given(alloc, ctx, others, gives, other_gives)
    } else {
        parts_in(ctx, &others.shape, &takes.shape)
    }
}

// What type functions give, under the bound.
fn given_below(
    alloc: Global,
    ctx: &Ctx,
    bound: &Rc<Shape>,
    gives: &Ty,
    other_gives: &Ty,
) -> Result<Parts, AllocError>
    requires context { IsWellFormedContext (context_of ctx.now) }
    requires bound { IsWellFormedShape (context_of ctx.now) (shape_of bound.now.value) }
    ensures { let g = context_of ctx.now in
        IfOk result (λ p. pair_of p ≡ pair (TypeEntry (shape_of bound.now.value) ∷ g) (opened_type (length g) (type_of gives.now)).shape (opened_type (length g) (type_of other_gives.now)).shape) }
{
    let under = with_type_variable(alloc, ctx, bound)?;
    let found = opened(alloc, ctx, gives)?;
    let wanted = opened(alloc, ctx, other_gives)?;
    parts_in(&under, &found.shape, &wanted.shape)
}

// Into what type functions give, where they have one bound.
fn into_type_functions(
    alloc: Global,
    ctx: &Ctx,
    bound: &Rc<Shape>,
    gives: &Ty,
    other: &Rc<Shape>,
    other_gives: &Ty,
) -> Result<Option<Parts>, AllocError>
    requires context { IsWellFormedContext (context_of ctx.now) }
    requires left { let g = type_of gives.now in
        IsWellFormedShape (context_of ctx.now) (TypeFunctionShape (shape_of bound.now.value) g.shape g.set) }
    requires right { let g = type_of other_gives.now in
        IsWellFormedShape (context_of ctx.now) (TypeFunctionShape (shape_of other.now.value) g.shape g.set) }
    ensures { let g = type_of gives.now in let g' = type_of other_gives.now in
        IfOk result (λ inner. LeadsTo (pair (context_of ctx.now) (TypeFunctionShape (shape_of bound.now.value) g.shape g.set) (TypeFunctionShape (shape_of other.now.value) g'.shape g'.set)) (option_map pair_of inner)) }
{
    if same_shape(bound, other) {
        Ok(Some(given_below(alloc, ctx, bound, gives, other_gives)?))
    } else {
        Ok(None)
    }
}

// Into the contents of boxes.
fn into_contents(ctx: &Ctx, content: &Ty, other: &Ty) -> Result<Parts, AllocError>
    requires context { IsWellFormedContext (context_of ctx.now) }
    requires left { let t = type_of content.now in IsWellFormedShape (context_of ctx.now) (BoxShape t.shape t.set) }
    requires right { let t = type_of other.now in IsWellFormedShape (context_of ctx.now) (BoxShape t.shape t.set) }
    ensures { let t = type_of content.now in let t' = type_of other.now in
        IfOk result (λ inner. LeadsTo (pair (context_of ctx.now) (BoxShape t.shape t.set) (BoxShape t'.shape t'.set)) (Some (pair_of inner))) }
{
    parts_in(ctx, &content.shape, &other.shape)
}

// Into functions, where the right shape is one too.
fn into_function(
    alloc: Global,
    ctx: &Ctx,
    takes: &Ty,
    gives: &Ty,
    right: &Shape,
) -> Result<Option<Parts>, AllocError>
    requires context { IsWellFormedContext (context_of ctx.now) }
    requires left { let t = type_of takes.now in let g = type_of gives.now in
        IsWellFormedShape (context_of ctx.now) (FunctionShape t.shape t.set g.shape g.set) }
    requires right { IsWellFormedShape (context_of ctx.now) (shape_of right.now) }
    ensures { let t = type_of takes.now in let g = type_of gives.now in
        IfOk result (λ inner. LeadsTo (pair (context_of ctx.now) (FunctionShape t.shape t.set g.shape g.set) (shape_of right.now)) (option_map pair_of inner)) }
{
    match right {
        Shape::Fun(others, other_gives) => {
            let inner = into_functions(alloc, ctx, takes, gives, others, other_gives)?;
            Ok(Some(inner))
        }
        _ => Ok(None),
    }
}

// Into type functions, where the right shape is one too.
fn into_type_function(
    alloc: Global,
    ctx: &Ctx,
    bound: &Rc<Shape>,
    gives: &Ty,
    right: &Shape,
) -> Result<Option<Parts>, AllocError>
    requires context { IsWellFormedContext (context_of ctx.now) }
    requires left { let g = type_of gives.now in
        IsWellFormedShape (context_of ctx.now) (TypeFunctionShape (shape_of bound.now.value) g.shape g.set) }
    requires right { IsWellFormedShape (context_of ctx.now) (shape_of right.now) }
    ensures { let g = type_of gives.now in
        IfOk result (λ inner. LeadsTo (pair (context_of ctx.now) (TypeFunctionShape (shape_of bound.now.value) g.shape g.set) (shape_of right.now)) (option_map pair_of inner)) }
{
    match right {
        Shape::TFun(other, other_gives) => {
            into_type_functions(alloc, ctx, bound, gives, other, other_gives)
        }
        _ => Ok(None),
    }
}

// Into boxes, where the right shape is one too.
fn into_box(ctx: &Ctx, content: &Ty, right: &Shape) -> Result<Option<Parts>, AllocError>
    requires context { IsWellFormedContext (context_of ctx.now) }
    requires left { let t = type_of content.now in IsWellFormedShape (context_of ctx.now) (BoxShape t.shape t.set) }
    requires right { IsWellFormedShape (context_of ctx.now) (shape_of right.now) }
    ensures { let t = type_of content.now in
        IfOk result (λ inner. LeadsTo (pair (context_of ctx.now) (BoxShape t.shape t.set) (shape_of right.now)) (option_map pair_of inner)) }
{
    match right {
        Shape::Boxed(other) => {
            let inner = into_contents(ctx, content, other)?;
            Ok(Some(inner))
        }
        _ => Ok(None),
    }
}

// The parts inside two shapes that do not match, which are looked at next, if the two are not the first parts themselves.
fn inside(
    alloc: Global,
    ctx: &Ctx,
    left: &Rc<Shape>,
    right: &Rc<Shape>,
) -> Result<Option<Parts>, AllocError>
    requires context { IsWellFormedContext (context_of ctx.now) }
    requires left { IsWellFormedShape (context_of ctx.now) (shape_of left.now.value) }
    requires right { IsWellFormedShape (context_of ctx.now) (shape_of right.now.value) }
    ensures { IfOk result (λ inner. LeadsTo (pair (context_of ctx.now) (shape_of left.now.value) (shape_of right.now.value)) (option_map pair_of inner)) }
{
    match &**left {
        Shape::Base(_) => Ok(None),
        Shape::Any => Ok(None),
        Shape::TVar(variable) => into_bound(ctx, *variable, right),
        Shape::Fun(takes, gives) => into_function(alloc, ctx, takes, gives, right),
        Shape::TFun(bound, gives) => into_type_function(alloc, ctx, bound, gives, right),
        Shape::Boxed(content) => into_box(ctx, content, right),
        Shape::Exit(_) => Ok(None),
    }
}

// Goes down from parts that do not match, in so many steps, to the first ones.
fn descend(alloc: Global, from: Parts, steps: u32) -> Result<Parts, AllocError>
    requires formed { IsWellFormedPair (pair_of from) }
    requires apart { pair_compared steps (pair_of from) ≡ Mismatch }
    ensures { IfOk result (λ first. AreFirstParts (pair_of from) (pair_of first)) }
{
    let mut parts = from;
    let mut left = steps;
    while let Some(inner) = inside(alloc, &parts.ctx, &parts.found, &parts.wanted)? {
        parts = inner;
        left -= 1;
    }
    Ok(parts)
}

/// The first parts of two shapes that do not match, in the order in which they are compared, with the context in which they
/// are. They are to be shapes that do not match. Fails for want of memory alone, as which a context of more than 2^32 - 1
/// entries counts.
///
/// It goes down one level at a time, and compares what functions take to see which way to go, so it takes as many
/// comparisons as there are levels at most.
pub fn mismatch(
    alloc: Global,
    ctx: &Ctx,
    left: &Rc<Shape>,
    right: &Rc<Shape>,
) -> Result<Parts, AllocError>
    requires context { IsWellFormedContext (context_of ctx.now) }
    requires left { IsWellFormedShape (context_of ctx.now) (shape_of left.now.value) }
    requires right { IsWellFormedShape (context_of ctx.now) (shape_of right.now.value) }
    requires apart { IsMismatch (context_of ctx.now) (shape_of left.now.value) (shape_of right.now.value) }
    ensures { IfOk result (λ first. AreFirstParts (pair (context_of ctx.now) (shape_of left.now.value) (shape_of right.now.value)) (pair_of first)) }
{
    if matches(alloc, ctx, left, right)? {
        unreachable!();
    }
    let parts = parts_in(ctx, left, right)?;
    descend(alloc, parts, u32::MAX)
}
