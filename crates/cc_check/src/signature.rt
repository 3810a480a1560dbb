//! The type that others see.

ghost use Rattle.std.specs.Prelude.{◌≡◌, Some, IfOk, IfSome, option_map};
ghost use Rattle.cc_core.specs.Shapes.{Shape as PlainShape};
ghost use Rattle.cc_core.specs.TermViews.{shape_of, type_of, context_of};
ghost use Rattle.cc_core.specs.WellFormed.{IsWellFormedContext};
ghost use Rattle.cc_checking.specs.Verdicts.{signature_of};
ghost use Rattle.cc_known.specs.Measures.{IsMeasuredBy, IsMeasuredFrom, IsSize};
ghost use Rattle.cc_known.specs.Signatures as plain;

use crate::signing::sign_whole;
use cc_capture::{CapSet, Elem, Var};
use cc_core::{Ctx, Shape, Ty};
use cc_known::Measure;
use cc_known::measures::measured_size;
use std::alloc::{AllocError, Global};

/// The type that others see of a definition of the type: each position from the first definition on is avoided, the
/// greatest first. There is none where a position is free in a bound or in the shape of an exit.
///
/// The type is gone over once. Fails only for want of memory.
pub fn signature(alloc: Global, ctx: &Ctx, devices: u32, ty: &Ty) -> Result<Option<Ty>, AllocError>
    requires { IsWellFormedContext (context_of ctx.now) }
    ensures { IfOk result (λ t. option_map type_of t ≡ signature_of devices (context_of ctx.now) (type_of ty.now)) }
{
    let signed = sign_whole(alloc, ctx, devices, None, ty)?;
    Ok(signed)
}

// What is known of a shape, if it is that no position from this one on is free at the end.
fn known_from(first: u32, known: Option<Measure>) -> Option<Measure>
    ensures from { (shape : PlainShape) → IsMeasuredBy known shape → IsMeasuredFrom first result shape }
    ensures by_it { (shape : PlainShape) → IsMeasuredFrom first result shape → IsMeasuredBy result shape }
{
    match known {
        Some(measure) => { if measure.first == first { known } else { None } }
        None => None,
    }
}

/// The same of a type of whose shape this is known, with the size of the shape of that type, or the greatest number where
/// that is less.
pub(crate) fn measured_signature(
    alloc: Global,
    ctx: &Ctx,
    devices: u32,
    ty: &Ty,
    known: Option<Measure>,
) -> Result<Option<(Ty, u64)>, AllocError>
    requires context { IsWellFormedContext (context_of ctx.now) }
    requires measured { IsMeasuredBy known (shape_of ty.now.shape.value) }
    ensures is { IfOk result (λ t. option_map (λ s. type_of s.0) t ≡ signature_of devices (context_of ctx.now) (type_of ty.now)) }
    ensures size { IfOk result (λ t. IfSome t (λ s. IsSize s.1 (shape_of s.0.shape.value))) }
{
    let known = known_from(devices, known);
    match sign_whole(alloc, ctx, devices, known, ty)? {
        Some(sig) => {
            let size = measured_size(known, &sig.shape);
            Ok(Some((sig, size)))
        }
        None => Ok(None),
    }
}

// The greatest position that is free in the type, from the first one on. It takes no memory.
#[cycle(positions)]
fn greatest_position(first: u32, ty: &Ty) -> Option<u32>
    ensures { result ≡ plain.greatest_position first (type_of ty.now) }
{
    greater_of(
        greatest_in(first, &ty.shape),
        greatest_in_set(first, &ty.set),
    )
}

/// The same of a shape.
#[cycle(positions)]
pub(crate) fn greatest_in(first: u32, shape: &Shape) -> Option<u32>
    ensures { result ≡ plain.greatest_in first (shape_of shape.now) }
{
    match shape {
        Shape::Base(_) => None,
        Shape::Any => None,
        Shape::TVar(variable) => position_from(first, *variable),
        Shape::Fun(takes, gives) => greater_of(
            greatest_position(first, takes),
            greatest_position(first, gives),
        ),
        Shape::TFun(bound, gives) => greater_of(
            greatest_in(first, bound),
            greatest_position(first, gives),
        ),
        Shape::Boxed(content) => greatest_position(first, content),
        Shape::Exit(gives) => greatest_in(first, gives),
    }
}

/// The same of a set.
pub(crate) fn greatest_in_set(first: u32, set: &CapSet) -> Option<u32>
    ensures { result ≡ plain.greatest_in_set first set.now }
{
    let mut greatest = None;
    for elem in set.iter() {
        greatest = greater_of(greatest, element_position(first, elem));
    }
    greatest
}

// The position of an element, from the first one on.
fn element_position(first: u32, elem: Elem) -> Option<u32>
    ensures { result ≡ plain.element_position first elem }
{
    match elem {
        Elem::Var(variable) => position_from(first, variable),
        Elem::Cap => None,
        Elem::Hole(_) => None,
    }
}

// The position of a variable, from the first one on.
fn position_from(first: u32, variable: Var) -> Option<u32>
    ensures { result ≡ plain.position_from first variable }
{
    match variable {
        Var::Free(position) => {
            if position < first {
                None
            } else {
                Some(position)
            }
        }
        Var::Bound(_) => None,
    }
}

// The greater of two positions, where there are any.
fn greater_of(one: Option<u32>, other: Option<u32>) -> Option<u32>
    ensures { result ≡ plain.greater_of one other }
{
    match one {
        Some(first) => match other {
            Some(second) => {
                if first < second {
                    Some(second)
                } else {
                    Some(first)
                }
            }
            None => one,
        },
        None => other,
    }
}
