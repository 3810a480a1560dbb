//! What type functions gave for shapes, and functions for variables, so that it is not made again.

ghost use Rattle.std.specs.Prelude.{◌≡◌, true, false, nat_le, IfOk, IfSome, IfNone};
ghost use Rattle.cc_core.specs.Equality.{same_type};
ghost use Rattle.cc_core.specs.Sizes.{type_size, size_with};
ghost use Rattle.cc_core.specs.Substitution.{replaced_type, replaced_type_by_shape};
ghost use Rattle.cc_core.specs.TermViews.{shape_of, type_of};
ghost use Rattle.cc_checking.specs.Inference.{greatest_size};

use crate::log::Log;
use crate::sizes::fits_with;
use cc_capture::{Var, same_var};
use cc_core::same::{same_shape, same_type};
use cc_core::sizes::size;
use cc_core::substitution::{subst_type, subst_var};
use cc_core::{Shape, Ty};
use std::alloc::{AllocError, Global};
use std::mem::swap;
use std::rc::Rc;

// So many instances are remembered, and so many results of calls.
const GREATEST_COUNT: usize = 16;

// A smaller result of a call is made again.
const SMALL: u64 = 64;

// A type that stands under the binder of a type variable, a shape, and the type with the shape in the place of that
// variable, which is not too large.
#[derive(Drop)]
struct Instance {
    gives: Rc<Ty>,
    by: Rc<Shape>,
    ty: Ty,
    ghost is: { same_type (type_of ty) (replaced_type_by_shape (shape_of by.value) (type_of gives.value)) ≡ true },
    ghost fits: { nat_le (type_size (type_of ty)) greatest_size ≡ true },
}

// A type that stands under the binder of a parameter, a variable, and the type with that variable in the place of the
// parameter.
#[derive(Drop)]
struct Call {
    gives: Rc<Ty>,
    by: Var,
    ty: Ty,
    ghost is: { same_type (type_of ty) (replaced_type by (type_of gives.value)) ≡ true },
}

/// The last instances of type functions that were made, and the last large results of calls, the newest last. They are
/// remembered so that what is given again is shared.
#[derive(Drop)]
pub struct Instances {
    made: Vec<Instance>,
    calls: Vec<Call>,
}

impl Instances {
    /// None was made. It takes no memory.
    pub fn new(alloc: Global) -> Instances {
        Instances {
            made: Vec::new(alloc),
            calls: Vec::new(alloc),
        }
    }
}

/// Exchanges what the log remembers of type functions and calls for these. What is kept of what was asked stays.
pub fn exchange(log: &mut Log, instances: &mut Instances)
    ensures { log.new.demands ≡ log.old.demands }
{
    swap(&mut log.instances, instances);
}

// Whether the instance is that of the type and the shape. Most others do not share the type, and are told by that.
fn is_of(instance: &Instance, gives: &Rc<Ty>, by: &Rc<Shape>) -> bool
    ensures { result ≡ true → replaced_type_by_shape (shape_of by.now.value) (type_of gives.now.value) ≡ type_of instance.now.ty }
{
    if !Rc::ptr_eq(&instance.gives, gives) {
        return false;
    }
    if !same_shape(&instance.by, by) {
        return false;
    }
    same_type(&instance.gives, gives)
}

// The type of the instance, shared, where it is that of the type and the shape.
fn shared_if_of(
    instance: &Instance,
    gives: &Rc<Ty>,
    by: &Rc<Shape>,
) -> Result<Option<Ty>, AllocError>
    ensures is { IfOk result (λ t. IfSome t (λ t. type_of t ≡ replaced_type_by_shape (shape_of by.now.value) (type_of gives.now.value))) }
    ensures fits { IfOk result (λ t. IfSome t (λ t. nat_le (type_size (type_of t)) greatest_size ≡ true)) }
{
    if is_of(instance, gives, by) {
        Ok(Some(instance.ty.clone()?))
    } else {
        Ok(None)
    }
}

// The type with the shape put for the variable, shared, where that is remembered.
fn remembered(
    instances: &Instances,
    gives: &Rc<Ty>,
    by: &Rc<Shape>,
) -> Result<Option<Ty>, AllocError>
    ensures is { IfOk result (λ t. IfSome t (λ t. type_of t ≡ replaced_type_by_shape (shape_of by.now.value) (type_of gives.now.value))) }
    ensures fits { IfOk result (λ t. IfSome t (λ t. nat_le (type_size (type_of t)) greatest_size ≡ true)) }
{
    for instance in &instances.made {
        if let Some(ty) = shared_if_of(instance, gives, by)? {
            return Ok(Some(ty));
        }
    }
    Ok(None)
}

// What the type function gave for the shape, as it is remembered. All is shared.
fn kept(gives: &Rc<Ty>, by: &Rc<Shape>, ty: &Ty) -> Result<Instance, AllocError>
    requires is { type_of ty.now ≡ replaced_type_by_shape (shape_of by.now.value) (type_of gives.now.value) }
    requires fits { nat_le (type_size (type_of ty.now)) greatest_size ≡ true }
{
    let gives = gives.clone()?;
    let by = by.clone()?;
    let ty = ty.clone()?;
    Ok(Instance { gives, by, ty })
}

// Remembers the instance, and forgets the first one where there are too many.
fn remember(instances: &mut Instances, instance: Instance) -> Result<(), AllocError> {
    if instances.made.len() >= GREATEST_COUNT {
        let _forgotten = instances.made.remove(0);
    }
    instances.made.push(instance)?;
    Ok(())
}

// The type with the shape put for the variable, and remembered. One that is too large is not made.
fn make(
    alloc: Global,
    gives: &Rc<Ty>,
    by: &Rc<Shape>,
    instances: &mut Instances,
) -> Result<Option<Ty>, AllocError>
    ensures is { IfOk result (λ t. IfSome t (λ t. type_of t ≡ replaced_type_by_shape (shape_of by.now.value) (type_of gives.now.value))) }
    ensures fits { IfOk result (λ t. IfSome t (λ t. nat_le (type_size (type_of t)) greatest_size ≡ true)) }
    ensures large { IfOk result (λ t. IfNone t (nat_le (size_with (shape_of by.now.value) (type_of gives.now.value)) greatest_size ≡ false)) }
{
    if !fits_with(gives, by) {
        return Ok(None);
    }
    let ty = subst_type(alloc, gives, by)?;
    remember(instances, kept(gives, by, &ty)?)?;
    Ok(Some(ty))
}

/// The type that stands under the binder of a type variable, with the shape put for that variable, or none where it is
/// too large. One that was made before is shared.
pub(crate) fn instantiated(
    alloc: Global,
    gives: &Rc<Ty>,
    by: &Rc<Shape>,
    instances: &mut Instances,
) -> Result<Option<Ty>, AllocError>
    ensures is { IfOk result (λ t. IfSome t (λ t. type_of t ≡ replaced_type_by_shape (shape_of by.now.value) (type_of gives.now.value))) }
    ensures fits { IfOk result (λ t. IfSome t (λ t. nat_le (type_size (type_of t)) greatest_size ≡ true)) }
    ensures large { IfOk result (λ t. IfNone t (nat_le (size_with (shape_of by.now.value) (type_of gives.now.value)) greatest_size ≡ false)) }
{
    match remembered(instances, gives, by)? {
        Some(ty) => Ok(Some(ty)),
        None => make(alloc, gives, by, instances),
    }
}

// Whether the result is that of the type and the variable. Most others do not share the type, and are told by that.
fn is_call_of(call: &Call, gives: &Rc<Ty>, by: Var) -> bool
    ensures { result ≡ true → replaced_type by (type_of gives.now.value) ≡ type_of call.now.ty }
{
    if !Rc::ptr_eq(&call.gives, gives) {
        return false;
    }
    if !same_var(call.by, by) {
        return false;
    }
    same_type(&call.gives, gives)
}

// The result, shared, where it is that of the type and the variable.
fn shared_if_call_of(call: &Call, gives: &Rc<Ty>, by: Var) -> Result<Option<Ty>, AllocError>
    ensures { IfOk result (λ t. IfSome t (λ t. type_of t ≡ replaced_type by (type_of gives.now.value))) }
{
    if is_call_of(call, gives, by) {
        Ok(Some(call.ty.clone()?))
    } else {
        Ok(None)
    }
}

// The type with the variable put for the parameter, shared, where that is remembered.
fn remembered_call(instances: &Instances, gives: &Rc<Ty>, by: Var) -> Result<Option<Ty>, AllocError>
    ensures { IfOk result (λ t. IfSome t (λ t. type_of t ≡ replaced_type by (type_of gives.now.value))) }
{
    for call in &instances.calls {
        if let Some(ty) = shared_if_call_of(call, gives, by)? {
            return Ok(Some(ty));
        }
    }
    Ok(None)
}

// What the function gave for the variable, as it is remembered. All is shared.
fn kept_call(gives: &Rc<Ty>, by: Var, ty: &Ty) -> Result<Call, AllocError>
    requires { type_of ty.now ≡ replaced_type by (type_of gives.now.value) }
{
    let gives = gives.clone()?;
    let ty = ty.clone()?;
    Ok(Call { gives, by, ty })
}

// Remembers the result, and forgets the first one where there are too many.
fn remember_call(instances: &mut Instances, call: Call) -> Result<(), AllocError> {
    if instances.calls.len() >= GREATEST_COUNT {
        let _forgotten = instances.calls.remove(0);
    }
    instances.calls.push(call)?;
    Ok(())
}

// The type with the variable put for the parameter, and remembered where it is large.
fn make_call(
    alloc: Global,
    gives: &Rc<Ty>,
    by: Var,
    instances: &mut Instances,
) -> Result<Ty, AllocError>
    ensures { IfOk result (λ t. type_of t ≡ replaced_type by (type_of gives.now.value)) }
{
    let ty = subst_var(alloc, gives, by)?;
    if size(gives) < SMALL {
        return Ok(ty);
    }
    remember_call(instances, kept_call(gives, by, &ty)?)?;
    Ok(ty)
}

/// The type that stands under the binder of a parameter, with the variable put for that parameter. One that was made
/// before is shared.
pub(crate) fn called(
    alloc: Global,
    gives: &Rc<Ty>,
    by: Var,
    instances: &mut Instances,
) -> Result<Ty, AllocError>
    ensures { IfOk result (λ t. type_of t ≡ replaced_type by (type_of gives.now.value)) }
{
    match remembered_call(instances, gives, by)? {
        Some(ty) => Ok(ty),
        None => make_call(alloc, gives, by, instances),
    }
}
