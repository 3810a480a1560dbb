//! What nodes conclude.

ghost use Rattle.std.specs.Prelude.{◌≡◌, ◌≤◌, ◌||◌, is_some, length, option_map};
ghost use Rattle.cc_core.specs.Derivations as plain;
ghost use Rattle.cc_core.specs.TermViews.{shape_of, type_of};
ghost use Rattle.cc_derivation.specs.DerivationViews.{claim_of};
ghost use Rattle.cc_certificate_text.specs.LocalNames.{has_binder};
ghost use Rattle.cc_certificate_text.specs.Certificates.{binder_number};
ghost use Rattle.cc_certificate_text.specs.Reading.{Printed, number_at, shape_at, type_at};
ghost use Rattle.cc_certificate_text.specs.LineReading.{
  first_at,
  value_of,
  either_number,
  same_truth,
  first_behind,
  numbered_claim,
  set_claim_at,
  right_at,
  below_at,
  type_has_binder,
  typing_claim_at,
  claim_at,
};
ghost use Rattle.cc_certificate_reading.specs.Agreement.{Agrees};
ghost use Rattle.cc_certificate_reading.specs.CertificateViews.{numbered_of, kind_of};

use crate::sets::{Locals, read_set};
use crate::stop::{Reading, Stop};
use crate::types::{read_shape, read_type};
use crate::words::{read_exact, word_at};
use cc_core::{Shape, Ty};
use cc_derivation::Claim;
use cc_names::Names;
use cc_words::words::{behind, number_of};
use std::alloc::Global;
use std::rc::Rc;

/// Which of its four kinds a claim is of.
#[derive(Clone, Copy)]
pub enum ClaimKind {
    OfSets,
    OfShapes,
    OfTypes,
    OfTerms,
}

// The number at the front.
#[tactic(auto, unfolding(cc_certificate_text::specs::Reading::number_at))]
fn number_here(bytes: &[u8]) -> Option<u32>
    ensures { result ≡ value_of (number_at bytes.now) }
{
    let (word, _) = word_at(bytes);
    match number_of(word, 4_294_967_295) {
        Some(number) => Some(number as u32),
        None => None,
    }
}

// The number of a binder under no other, in a text that begins with a shape or a type.
#[tactic(auto, using(crate::proofs::Firsts::first_above, crate::proofs::Firsts::first_nowhere), unfolding(cc_certificate_text::specs::LineReading::first_over, cc_certificate_text::specs::Reading::begun))]
fn first_at(room: u32, bytes: &[u8]) -> Option<u32>
    ensures { result ≡ value_of (first_at room bytes.now) }
{
    let mut room = room;
    let mut here = bytes;
    while room > 0 {
        room -= 1;
        if let Some(rest) = behind(here, "((_") {
            return number_here(rest);
        }
        if let Some(rest) = behind(here, "([_T") {
            return number_here(rest);
        }
        if let Some(rest) = behind(here, "(_") {
            return number_here(rest);
        }
        if let Some(rest) = behind(here, "[_T") {
            return number_here(rest);
        }
        if let Some(rest) = behind(here, "Box[") {
            here = rest;
            continue;
        }
        if let Some(rest) = behind(here, "Exit[") {
            here = rest;
            continue;
        }
        return None;
    }
    None
}

// The first number, or that in what is left where there is none.
fn first_behind(first: Option<u32>, bytes: &[u8]) -> Option<u32>
    ensures { result ≡ first_behind first bytes.now }
{
    match first {
        Some(number) => Some(number),
        None => first_at(5000, bytes),
    }
}

// The number, or 0 where there is none.
fn binder_number(first: Option<u32>) -> u64
    ensures value { result ≡ binder_number first }
    ensures low { result ≤ 4294967296 }
{
    match first {
        Some(number) => u64::from(number),
        None => 0,
    }
}

// Whether the shape has a binder.
fn has_binder(shape: &Shape) -> bool
    ensures { result ≡ has_binder (shape_of shape.now) }
{
    let mut inner = shape;
    loop {
        match inner {
            Shape::Base(_) => return false,
            Shape::Any => return false,
            Shape::TVar(_) => return false,
            Shape::Fun(_, _) => return true,
            Shape::TFun(_, _) => return true,
            Shape::Boxed(content) => inner = &content.shape,
            Shape::Exit(gives) => inner = gives,
        }
    }
}

fn same_truth(left: bool, right: bool) -> bool
    ensures { result ≡ same_truth left right }
{
    if left { right } else { !right }
}

// Whether there is a number exactly where there are binders.
fn is_numbered(first: Option<u32>, binders: bool) -> bool
    ensures { result ≡ same_truth binders (is_some first) }
{
    same_truth(binders, first.is_some())
}

fn either(one: bool, other: bool) -> bool
    ensures { result ≡ (one || other) }
{
    one || other
}

// That a set is below another.
#[tactic(auto, unfolding(cc_certificate_text::specs::LineReading::set_claim_at))]
fn read_set_claim<'a>(
    alloc: Global,
    names: &Names,
    bytes: &'a [u8],
) -> Reading<'a, (Option<u32>, Claim)>
    requires { length names.now ≤ 4294967296 }
    ensures { Agrees numbered_of result (set_claim_at names.now bytes.now) }
{
    let (_, rest) = read_exact("{", bytes)?;
    let (left, rest) = read_set(alloc, Locals::Printed, names, 0, rest)?;
    let (_, rest) = read_exact(" <: {", rest)?;
    let (right, rest) = read_set(alloc, Locals::Printed, names, 0, rest)?;
    Ok(((None, Claim::SetBelow(left, right)), rest))
}

// The shape that another is below.
#[tactic(auto, unfolding(cc_certificate_text::specs::LineReading::right_at))]
fn read_right_shape<'a>(
    alloc: Global,
    names: &Names,
    left: Shape,
    first: Option<u32>,
    bytes: &'a [u8],
) -> Reading<'a, (Option<u32>, Claim)>
    requires { length names.now ≤ 4294967296 }
    ensures { Agrees numbered_of result (right_at (shape_at Printed names.now 5000) has_binder plain.ShapeBelow (shape_of left) first bytes.now) }
{
    let depth = binder_number(first);
    let (right, rest) = read_shape(alloc, Locals::Printed, names, 5000, depth, bytes)?;
    if !is_numbered(first, either(has_binder(&left), has_binder(&right))) {
        return Err(Stop::Misfit);
    }
    let left = Rc::new(alloc, left)?;
    let right = Rc::new(alloc, right)?;
    Ok(((first, Claim::ShapeBelow(left, right)), rest))
}

// That a shape is below another.
#[tactic(auto, unfolding(cc_certificate_text::specs::LineReading::below_at))]
fn read_shape_claim<'a>(
    alloc: Global,
    names: &Names,
    bytes: &'a [u8],
) -> Reading<'a, (Option<u32>, Claim)>
    requires { length names.now ≤ 4294967296 }
    ensures { Agrees numbered_of result (below_at (shape_at Printed names.now 5000) has_binder plain.ShapeBelow bytes.now) }
{
    let first = first_at(5000, bytes);
    let depth = binder_number(first);
    let (left, rest) = read_shape(alloc, Locals::Printed, names, 5000, depth, bytes)?;
    let (_, rest) = read_exact(" <: ", rest)?;
    let first = first_behind(first, rest);
    read_right_shape(alloc, names, left, first, rest)
}

// The type that another is below.
#[tactic(auto, unfolding(cc_certificate_text::specs::LineReading::right_at, cc_certificate_text::specs::Reading::type_at))]
fn read_right_type<'a>(
    alloc: Global,
    names: &Names,
    left: Ty,
    first: Option<u32>,
    bytes: &'a [u8],
) -> Reading<'a, (Option<u32>, Claim)>
    requires { length names.now ≤ 4294967296 }
    ensures { Agrees numbered_of result (right_at (type_at Printed names.now 5000) type_has_binder plain.TypeBelow (type_of left) first bytes.now) }
{
    let depth = binder_number(first);
    let (right, rest) = read_type(alloc, Locals::Printed, names, 5000, depth, bytes)?;
    if !is_numbered(
        first,
        either(has_binder(&left.shape), has_binder(&right.shape)),
    ) {
        return Err(Stop::Misfit);
    }
    Ok(((first, Claim::TypeBelow(left, right)), rest))
}

// That a type is below another.
#[tactic(auto, unfolding(cc_certificate_text::specs::LineReading::below_at, cc_certificate_text::specs::Reading::type_at))]
fn read_type_claim<'a>(
    alloc: Global,
    names: &Names,
    bytes: &'a [u8],
) -> Reading<'a, (Option<u32>, Claim)>
    requires { length names.now ≤ 4294967296 }
    ensures { Agrees numbered_of result (below_at (type_at Printed names.now 5000) type_has_binder plain.TypeBelow bytes.now) }
{
    let first = first_at(5000, bytes);
    let depth = binder_number(first);
    let (left, rest) = read_type(alloc, Locals::Printed, names, 5000, depth, bytes)?;
    let (_, rest) = read_exact(" <: ", rest)?;
    let first = first_behind(first, rest);
    read_right_type(alloc, names, left, first, rest)
}

// That a term has a type.
#[tactic(auto, unfolding(cc_certificate_text::specs::LineReading::typing_claim_at, cc_certificate_text::specs::Reading::type_at))]
fn read_typing_claim<'a>(
    alloc: Global,
    names: &Names,
    bytes: &'a [u8],
) -> Reading<'a, (Option<u32>, Claim)>
    requires { length names.now ≤ 4294967296 }
    ensures { Agrees numbered_of result (typing_claim_at names.now bytes.now) }
{
    let (_, rest) = read_exact(": ", bytes)?;
    let first = first_at(5000, rest);
    let depth = binder_number(first);
    let (ty, rest) = read_type(alloc, Locals::Printed, names, 5000, depth, rest)?;
    if !is_numbered(first, has_binder(&ty.shape)) {
        return Err(Stop::Misfit);
    }
    Ok(((first, Claim::Typed(ty)), rest))
}

/// A claim of the kind, with the number of its outermost binders.
#[tactic(auto, unfolding(cc_certificate_text::specs::LineReading::claim_at))]
pub fn read_claim<'a>(
    alloc: Global,
    names: &Names,
    kind: ClaimKind,
    bytes: &'a [u8],
) -> Reading<'a, (Option<u32>, Claim)>
    requires { length names.now ≤ 4294967296 }
    ensures { Agrees numbered_of result (claim_at names.now (kind_of kind) bytes.now) }
{
    match kind {
        ClaimKind::OfSets => read_set_claim(alloc, names, bytes),
        ClaimKind::OfShapes => read_shape_claim(alloc, names, bytes),
        ClaimKind::OfTypes => read_type_claim(alloc, names, bytes),
        ClaimKind::OfTerms => read_typing_claim(alloc, names, bytes),
    }
}
