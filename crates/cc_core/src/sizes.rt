//! Sizes of types. They take no memory, and stop at the greatest number.

ghost use Rattle.std.specs.Prelude.{◌≡◌, ℕ, suc, ◌+◌, ◌-◌, ◌^◌, ◌≤◌, min};
ghost use Rattle.cc_core.specs.Sizes as plain;
ghost use Rattle.cc_core.specs.Depths.{counted_depth};
ghost use Rattle.cc_core.specs.TermViews.{shape_of, type_of};

use crate::types::{Shape, Ty};
use cc_capture::{CapSet, Var};

fn set_size(set: &CapSet) -> u64
    ensures { result ≡ plain.set_size set.now }
{
    set.len() as u64
}

/// The size of the shape, or the greatest number where that is less.
#[cycle(sizes)]
pub fn shape_size(shape: &Shape) -> u64
    ensures { result ≡ min (plain.shape_size (shape_of shape.now)) (2 ^ 64 - 1) }
{
    match shape {
        Shape::Base(_) => 1,
        Shape::Any => 1,
        Shape::TVar(_) => 1,
        Shape::Fun(takes, gives) => 1u64.saturating_add(size(takes)).saturating_add(size(gives)),
        Shape::TFun(bound, gives) => 1u64
            .saturating_add(shape_size(bound))
            .saturating_add(size(gives)),
        Shape::Boxed(content) => 1u64.saturating_add(size(content)),
        Shape::Exit(gives) => 1u64.saturating_add(shape_size(gives)),
    }
}

/// The size of the type, or the greatest number where that is less.
#[cycle(sizes)]
pub fn size(ty: &Ty) -> u64
    ensures { result ≡ min (plain.type_size (type_of ty.now)) (2 ^ 64 - 1) }
{
    shape_size(&ty.shape).saturating_add(set_size(&ty.set))
}

/// The size that the type has with the shape put for the outermost index, or the greatest number where that is less.
/// Nothing is built for it.
pub fn subst_size(ty: &Ty, by: &Shape) -> u64
    ensures { result ≡ min (plain.size_with (shape_of by.now) (type_of ty.now)) (2 ^ 64 - 1) }
{
    type_size_with(shape_size(by), 0, ty)
}

// One more than the greatest index: no index counts as many binders.
const GREATEST_DEPTH: u64 = 4294967296;

// The depth under one binder more.
fn deeper(depth: u64) -> u64
    requires { depth ≤ 4294967296 }
    ensures within { result ≤ 4294967296 }
    ensures deeper { (binders : ℕ) → depth ≡ counted_depth binders → result ≡ counted_depth (suc binders) }
{
    if depth < GREATEST_DEPTH {
        depth + 1
    } else {
        depth
    }
}

fn variable_size_with(size: u64, depth: u64, variable: Var) -> u64
    ensures { (binders : ℕ) → depth ≡ counted_depth binders → result ≡ plain.counted_variable size binders variable }
{
    match variable {
        Var::Bound(index) => { if u64::from(index) == depth { size } else { 1 } }
        Var::Free(_) => 1,
    }
}

#[cycle(sizes_with)]
fn shape_size_with(size: u64, depth: u64, shape: &Shape) -> u64
    requires { depth ≤ 4294967296 }
    ensures { (binders : ℕ) → depth ≡ counted_depth binders
        → result ≡ min (plain.counted_shape size binders (shape_of shape.now)) (2 ^ 64 - 1) }
{
    match shape {
        Shape::Base(_) => 1,
        Shape::Any => 1,
        Shape::TVar(variable) => variable_size_with(size, depth, *variable),
        Shape::Fun(takes, gives) => {
            let takes = type_size_with(size, depth, takes);
            let gives = type_size_with(size, deeper(depth), gives);
            1u64.saturating_add(takes).saturating_add(gives)
        }
        Shape::TFun(bound, gives) => {
            let bound = shape_size_with(size, depth, bound);
            let gives = type_size_with(size, deeper(depth), gives);
            1u64.saturating_add(bound).saturating_add(gives)
        }
        Shape::Boxed(content) => 1u64.saturating_add(type_size_with(size, depth, content)),
        Shape::Exit(gives) => 1u64.saturating_add(shape_size_with(size, depth, gives)),
    }
}

#[cycle(sizes_with)]
fn type_size_with(size: u64, depth: u64, ty: &Ty) -> u64
    requires { depth ≤ 4294967296 }
    ensures { (binders : ℕ) → depth ≡ counted_depth binders
        → result ≡ min (plain.counted_shape size binders (shape_of ty.now.shape.value) + plain.set_size ty.now.set) (2 ^ 64 - 1) }
{
    shape_size_with(size, depth, &ty.shape).saturating_add(set_size(&ty.set))
}
