//! Signatures in one walk: at each set of a type, the definitions that it names are avoided, the latest first. What they
//! are declared with stands for them at positive places, and at negative ones they are left out. In a bound or in the
//! shape of an exit none may be named.

ghost use Rattle.std.specs.Prelude.{◌≡◌, IfOk};
ghost use Rattle.std.specs.Option.{option_map, unwrap_or};
ghost use Rattle.cc_avoid.specs.AvoidedTogether.{set_avoiding, names_any, shape_avoiding, type_avoiding};
ghost use Rattle.cc_avoid.specs.Avoiding.{sign_of, given_shape, given_type};
ghost use Rattle.cc_core.specs.Contexts.{lookup};
ghost use Rattle.cc_core.specs.TermViews.{shape_of, type_of, bind_of, context_of};
ghost use Rattle.cc_core.specs.WellFormed.{IsWellFormedContext};
ghost use Rattle.cc_checking.specs.Avoidance as plain;
ghost use Rattle.cc_known.specs.Measures.{IsClearAlong, IsMeasuredFrom};
ghost use Rattle.cc_check.specs.SignedParts.{declared_sets, AvoidsBind, AvoidsEntry};

use crate::signature::{greatest_in, greatest_in_set};
use cc_avoid::positions::{Positions, avoid_position};
use cc_avoid::sign::Sign;
use cc_avoid::walking::{
    AvoidedShape, AvoidedType, avoid_in_shape, avoid_in_type, box_of, function_of, set_or_same,
    type_function_of, type_of_parts, whole_of,
};
use cc_capture::CapSet;
use cc_core::{Bind, Ctx, Shape, Ty};
use cc_known::Measure;
use std::alloc::{AllocError, Global};

// The definitions of a context with so many devices.
#[derive(Clone, Copy)]
struct Definitions<'a> {
    ctx: &'a Ctx,
    devices: u32,
}

impl<'a> Positions for Definitions<'a> {
    ghost can_avoid = { λ d. IsWellFormedContext (context_of d.ctx.now) };

    ghost listed = { λ d. declared_sets d.devices (context_of d.ctx.now) };

    fn avoid_in_set(
        &self,
        alloc: Global,
        sign: Sign,
        set: &CapSet,
    ) -> Result<Option<CapSet>, AllocError> {
        sign_set(alloc, self.ctx, self.devices, sign, set)
    }

    fn are_free(&self, shape: &Shape) -> Result<bool, AllocError> {
        names_definition(self.ctx, self.devices, shape)
    }
}

// The set in which the position is avoided, by its declared set.
fn avoid_declared(
    alloc: Global,
    sign: Sign,
    position: u32,
    declared: &CapSet,
    set: &CapSet,
) -> Result<CapSet, AllocError>
    ensures { IfOk result (λ s. s ≡ plain.avoided_set (sign_of sign) position declared.now set.now) }
{
    let became = avoid_position(alloc, sign, position, declared, set)?;
    set_or_same(became, set)
}

// The set in which the position is avoided whose entry it is. It is none where no memory is wanting.
fn avoid_bind(
    alloc: Global,
    sign: Sign,
    position: u32,
    bind: &Bind,
    set: &CapSet,
) -> Result<CapSet, AllocError>
    ensures { IfOk result (λ s. AvoidsBind (sign_of sign) position (bind_of bind.now) set.now s) }
{
    match bind {
        Bind::Var(own) => avoid_declared(alloc, sign, position, &own.set, set),
        Bind::TVar(_) => Err(AllocError),
        Bind::Unread { set: declared, .. } => avoid_declared(alloc, sign, position, declared, set),
    }
}

// The same of a position of the context.
fn avoid_entry(
    alloc: Global,
    ctx: &Ctx,
    sign: Sign,
    position: u32,
    set: &CapSet,
) -> Result<CapSet, AllocError>
    ensures { IfOk result (λ s. AvoidsEntry (sign_of sign) position (lookup (context_of ctx.now) position) set.now s) }
{
    match ctx.get(position) {
        Some(bind) => avoid_bind(alloc, sign, position, bind, set),
        None => Err(AllocError),
    }
}

// The set in which each definition is avoided.
fn avoid_each(
    alloc: Global,
    ctx: &Ctx,
    devices: u32,
    sign: Sign,
    set: &CapSet,
) -> Result<CapSet, AllocError>
    requires { IsWellFormedContext (context_of ctx.now) }
    ensures { IfOk result (λ s. s ≡ set_avoiding (sign_of sign) (declared_sets devices (context_of ctx.now)) set.now) }
{
    let mut left = set.clone()?;
    while let Some(position) = greatest_in_set(devices, &left) {
        let next = avoid_entry(alloc, ctx, sign, position, &left)?;
        left = next;
    }
    Ok(left)
}

// What the set becomes, if it is another one.
fn sign_set(
    alloc: Global,
    ctx: &Ctx,
    devices: u32,
    sign: Sign,
    set: &CapSet,
) -> Result<Option<CapSet>, AllocError>
    requires { IsWellFormedContext (context_of ctx.now) }
    ensures { IfOk result (λ s. unwrap_or s set.now ≡ set_avoiding (sign_of sign) (declared_sets devices (context_of ctx.now)) set.now) }
{
    match greatest_in_set(devices, set) {
        Some(_) => Ok(Some(avoid_each(alloc, ctx, devices, sign, set)?)),
        None => Ok(None),
    }
}

// Whether a definition is free in the shape. It is none where no memory is wanting.
fn names_definition(ctx: &Ctx, devices: u32, shape: &Shape) -> Result<bool, AllocError>
    ensures { IfOk result (λ b. b ≡ names_any (declared_sets devices (context_of ctx.now)) (shape_of shape.now)) }
{
    match greatest_in(devices, shape) {
        Some(position) => {
            if position < ctx.len() {
                Ok(true)
            } else {
                Err(AllocError)
            }
        }
        None => Ok(false),
    }
}

/// The type in which each definition is avoided, the latest first, if they can be. What stays is shared, and what is
/// known to name none is not gone over.
pub(crate) fn sign_whole(
    alloc: Global,
    ctx: &Ctx,
    devices: u32,
    known: Option<Measure>,
    ty: &Ty,
) -> Result<Option<Ty>, AllocError>
    requires context { IsWellFormedContext (context_of ctx.now) }
    requires measured { IsMeasuredFrom devices known (shape_of ty.now.shape.value) }
    ensures { IfOk result (λ t. option_map type_of t ≡ type_avoiding plain.Positive (declared_sets devices (context_of ctx.now)) (type_of ty.now)) }
{
    let shape = sign_measured(alloc, ctx, devices, known, &ty.shape)?;
    let set = sign_set(alloc, ctx, devices, Sign::Positive, &ty.set)?;
    whole_of(ty, shape, set)
}

// What a shape becomes at a positive place, so many steps from which there is one that names no definition.
#[cycle(signs_along)]
fn sign_along(
    alloc: Global,
    ctx: &Ctx,
    devices: u32,
    steps: u32,
    shape: &Shape,
) -> Result<AvoidedShape, AllocError>
    requires context { IsWellFormedContext (context_of ctx.now) }
    requires clear { IsClearAlong devices steps (shape_of shape.now) }
    ensures { IfOk result (λ a. given_shape (shape_of shape.now) a ≡ shape_avoiding plain.Positive (declared_sets devices (context_of ctx.now)) (shape_of shape.now)) }
{
    if steps == 0 {
        return Ok(AvoidedShape::Kept);
    }
    let definitions = Definitions { ctx, devices };
    match shape {
        Shape::Fun(takes, gives) => {
            let taken = avoid_in_type(alloc, &definitions, Sign::Negative, takes)?;
            let given = sign_type_along(alloc, ctx, devices, steps - 1, gives)?;
            function_of(alloc, takes, gives, taken, given)
        }
        Shape::TFun(bound, gives) => {
            let given = sign_type_along(alloc, ctx, devices, steps - 1, gives)?;
            type_function_of(alloc, &definitions, bound, gives, given)
        }
        Shape::Boxed(content) => {
            let inside = sign_type_along(alloc, ctx, devices, steps - 1, content)?;
            box_of(alloc, content, inside)
        }
        _ => avoid_in_shape(alloc, &definitions, Sign::Positive, shape),
    }
}

// What a type becomes whose shape is so.
#[cycle(signs_along)]
fn sign_type_along(
    alloc: Global,
    ctx: &Ctx,
    devices: u32,
    steps: u32,
    ty: &Ty,
) -> Result<AvoidedType, AllocError>
    requires context { IsWellFormedContext (context_of ctx.now) }
    requires clear { IsClearAlong devices steps (shape_of ty.now.shape.value) }
    ensures { IfOk result (λ a. given_type (type_of ty.now) a ≡ type_avoiding plain.Positive (declared_sets devices (context_of ctx.now)) (type_of ty.now)) }
{
    let shape = sign_along(alloc, ctx, devices, steps, &ty.shape)?;
    let set = sign_set(alloc, ctx, devices, Sign::Positive, &ty.set)?;
    type_of_parts(alloc, ty, shape, set)
}

// What a shape of which this is known becomes at a positive place.
fn sign_measured(
    alloc: Global,
    ctx: &Ctx,
    devices: u32,
    known: Option<Measure>,
    shape: &Shape,
) -> Result<AvoidedShape, AllocError>
    requires context { IsWellFormedContext (context_of ctx.now) }
    requires measured { IsMeasuredFrom devices known (shape_of shape.now) }
    ensures { IfOk result (λ a. given_shape (shape_of shape.now) a ≡ shape_avoiding plain.Positive (declared_sets devices (context_of ctx.now)) (shape_of shape.now)) }
{
    match known {
        Some(measure) => sign_along(alloc, ctx, devices, measure.steps, shape),
        None => avoid_in_shape(alloc, &Definitions { ctx, devices }, Sign::Positive, shape),
    }
}
