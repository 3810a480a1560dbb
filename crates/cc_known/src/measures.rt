//! What is known of shapes that were found before, so that what is shared is not gone over again.

ghost use Rattle.std.specs.Prelude.{◌≡◌, ◌++◌, ◌∷◌, [], ◌-◌, ◌^◌, ◌≤◌, min, false, OnOk};
ghost use Rattle.cc_core.specs.Occurrences.{Meets, MeetsInType, without};
ghost use Rattle.cc_core.specs.Questions.{occurs, occurs_in_type};
ghost use Rattle.cc_core.specs.Shapes.{Shape as PlainShape, FunctionShape, TypeFunctionShape, BoxShape};
ghost use Rattle.cc_capture.specs.Sets.{Set};
ghost use Rattle.cc_core.specs.Sizes as plain;
ghost use Rattle.cc_core.specs.TermViews.{shape_of, type_of};
ghost use Rattle.cc_known.specs.Measures as known_of;
ghost use Rattle.cc_known.specs.Measures.{IsSize, IsClearAlong, IsSizedAlong, IsMeasuredBy, position_question};

use cc_capture::Var;
use cc_core::occurrences::{occurs_in_set, occurs_in_shape, occurs_in_type};
use cc_core::sizes::{shape_size, size};
use cc_core::{Shape, Ty};
use std::alloc::{AllocError, Global};

/// What is known of a shape: so many steps from it to what functions and type functions give and what boxes hold, there
/// is a shape of the size in which no position from the first one on is free.
#[derive(Clone, Copy)]
pub struct Measure {
    pub first: u32,
    pub steps: u32,
    pub size: u64,
}

/// The sizes of the shapes of entries, from one position of a context on, in which no position from the first one on is
/// free.
#[derive(Drop)]
pub struct Measures {
    pub first: u32,
    pub before: u32,
    pub sizes: Vec<u64>,
}

impl Measures {
    /// Nothing is known of so many entries.
    pub fn new(alloc: Global, first: u32, before: u32) -> Measures
        ensures first { result.first ≡ first }
        ensures before { result.before ≡ before }
        ensures sizes { result.sizes.items ≡ [] }
    {
        Measures {
            first,
            before,
            sizes: Vec::new(alloc),
        }
    }

    /// Keeps the size of the shape of the next entry.
    pub fn keep(&mut self, size: u64) -> Result<(), AllocError>
        ensures first { self.new.first ≡ self.old.first }
        ensures before { self.new.before ≡ self.old.before }
        ensures sizes { OnOk result (self.new.sizes.items ≡ self.old.sizes.items ++ size ∷ []) }
    {
        self.sizes.push(size)?;
        Ok(())
    }
}

// What is known of the shape of the entry at a position.
fn measure_at(measures: &Measures, position: u32) -> Option<Measure>
    ensures { result ≡ known_of.measure_at measures.now position }
{
    if position < measures.before {
        return None;
    }
    match measures.sizes.get((position - measures.before) as usize) {
        Some(size) => Some(Measure {
            first: measures.first,
            steps: 0,
            size: *size,
        }),
        None => None,
    }
}

/// What is known of the shape of a variable.
pub fn measure_of(measures: &Measures, variable: Var) -> Option<Measure>
    ensures { result ≡ known_of.measure_of measures.now variable }
{
    match variable {
        Var::Free(position) => measure_at(measures, position),
        Var::Bound(_) => None,
    }
}

/// What is known of a shape of functions that give types of a shape of which this is known, and so of type functions
/// and of boxes.
pub fn measure_around(known: Option<Measure>) -> Option<Measure>
    ensures function { (takes : PlainShape) (c : Set) (gives : PlainShape) (e : Set) → IsMeasuredBy known gives → IsMeasuredBy result (FunctionShape takes c gives e) }
    ensures type_function { (bound : PlainShape) (gives : PlainShape) (e : Set) → IsMeasuredBy known gives → IsMeasuredBy result (TypeFunctionShape bound gives e) }
    ensures boxed { (content : PlainShape) (c : Set) → IsMeasuredBy known content → IsMeasuredBy result (BoxShape content c) }
{
    match known {
        Some(measure) => match measure.steps.checked_add(1) {
            Some(steps) => Some(Measure {
                first: measure.first,
                steps,
                size: measure.size,
            }),
            None => None,
        },
        None => None,
    }
}

// The size of a shape of which this is known.
#[cycle(measured_sizes)]
fn size_along(steps: u32, end: u64, shape: &Shape) -> u64
    requires { IsSizedAlong end steps (shape_of shape.now) }
    ensures { result ≡ min (plain.shape_size (shape_of shape.now)) (2 ^ 64 - 1) }
{
    if steps == 0 {
        return end;
    }
    match shape {
        Shape::Fun(takes, gives) => 1u64
            .saturating_add(size(takes))
            .saturating_add(type_size_along(steps - 1, end, gives)),
        Shape::TFun(bound, gives) => 1u64
            .saturating_add(shape_size(bound))
            .saturating_add(type_size_along(steps - 1, end, gives)),
        Shape::Boxed(content) => 1u64.saturating_add(type_size_along(steps - 1, end, content)),
        _ => shape_size(shape),
    }
}

// The size of a type whose shape is so.
#[cycle(measured_sizes)]
fn type_size_along(steps: u32, end: u64, ty: &Ty) -> u64
    requires { IsSizedAlong end steps (shape_of ty.now.shape.value) }
    ensures { result ≡ min (plain.type_size (type_of ty.now)) (2 ^ 64 - 1) }
{
    size_along(steps, end, &ty.shape).saturating_add(ty.set.len() as u64)
}

/// The size of the shape, or the greatest number where that is less.
pub fn measured_size(known: Option<Measure>, shape: &Shape) -> u64
    requires { IsMeasuredBy known (shape_of shape.now) }
    ensures { IsSize result (shape_of shape.now) }
{
    match known {
        Some(measure) => size_along(measure.steps, measure.size, shape),
        None => shape_size(shape),
    }
}

// Whether the position, which is not below the first one, occurs in a shape of which this is known.
#[cycle(measured_occurrences)]
fn occurs_along(first: u32, steps: u32, position: u32, shape: &Shape) -> bool
    requires from { first ≤ position }
    requires clear { IsClearAlong first steps (shape_of shape.now) }
    ensures { result ≡ false → occurs (position_question position) (shape_of shape.now) ≡ false }
{
    if steps == 0 {
        return false;
    }
    match shape {
        Shape::Fun(takes, gives) => {
            occurs_in_type(position, takes)
                || occurs_in_type_along(first, steps - 1, position, gives)
        }
        Shape::TFun(bound, gives) => {
            occurs_in_shape(position, bound)
                || occurs_in_type_along(first, steps - 1, position, gives)
        }
        Shape::Boxed(content) => occurs_in_type_along(first, steps - 1, position, content),
        _ => occurs_in_shape(position, shape),
    }
}

// The same of a type whose shape is so.
#[cycle(measured_occurrences)]
fn occurs_in_type_along(first: u32, steps: u32, position: u32, ty: &Ty) -> bool
    requires from { first ≤ position }
    requires clear { IsClearAlong first steps (shape_of ty.now.shape.value) }
    ensures { result ≡ false → occurs_in_type (position_question position) (type_of ty.now) ≡ false }
{
    occurs_along(first, steps, position, &ty.shape) || occurs_in_set(position, &ty.set)
}

/// Whether the position occurs in the shape, of which this is known.
pub fn occurs_in_measured(position: u32, known: Option<Measure>, shape: &Shape) -> bool
    requires { IsMeasuredBy known (shape_of shape.now) }
    ensures { result ≡ false → Meets (without position) 0 (shape_of shape.now) }
{
    match known {
        Some(measure) => {
            if measure.first <= position {
                occurs_along(measure.first, measure.steps, position, shape)
            } else {
                occurs_in_shape(position, shape)
            }
        }
        None => occurs_in_shape(position, shape),
    }
}

/// The same of a type, of whose shape this is known.
pub fn occurs_in_measured_type(position: u32, known: Option<Measure>, ty: &Ty) -> bool
    requires { IsMeasuredBy known (shape_of ty.now.shape.value) }
    ensures { result ≡ false → MeetsInType (without position) 0 (type_of ty.now) }
{
    occurs_in_measured(position, known, &ty.shape) || occurs_in_set(position, &ty.set)
}
