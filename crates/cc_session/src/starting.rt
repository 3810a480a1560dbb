//! What an entry needs beside its modules: the shapes of its devices, whether its definition takes a unit, and the
//! devices that it may operate.
ghost use Rattle.std.specs.Prelude.{◌≡◌, ◌++◌, ◌∷◌, [], IfOk, OnOk, if◌then◌else◌};
ghost use Rattle.cc_core.specs.Stores as stores;
ghost use Rattle.cc_core.specs.TermViews.{shape_of};
ghost use Rattle.cc_device.specs.Declarations.{declared_base, declared_bases};
ghost use Rattle.cc_entry_laws.specs.PresentEntries as plain;

use cc_base::device::{DeviceDecl, Kind};
use cc_capture::{CapSet, Elem, Var};
use cc_core::{Base, Shape};
use std::alloc::{AllocError, Global};

// The base shape of a device.
fn shape_of_kind(kind: &Kind) -> Base
    ensures { result ≡ declared_base kind.now }
{
    match kind {
        Kind::Console => Base::Console,
        Kind::File(_) => Base::File,
        Kind::Counter => Base::Counter,
    }
}

/// The base shapes of declared devices, in order. Fails only for want of memory.
pub fn shapes_of_devices(alloc: Global, devices: &[DeviceDecl]) -> Result<Vec<Base>, AllocError>
    ensures { IfOk result (λ shapes. shapes.items ≡ declared_bases devices.now) }
{
    let mut shapes = Vec::with_capacity(alloc, devices.len())?;
    for device in devices {
        shapes.push(shape_of_kind(&device.kind))?;
    }
    Ok(shapes)
}

// Whether the shape is that of unit.
fn is_unit(shape: &Shape) -> bool
    ensures { result ≡ plain.is_unit (shape_of shape.now) }
{
    match shape {
        Shape::Base(base) => *base == Base::Unit,
        Shape::Any
        | Shape::TVar(_)
        | Shape::Fun(_, _)
        | Shape::TFun(_, _)
        | Shape::Boxed(_)
        | Shape::Exit(_) => false,
    }
}

/// Whether values of the shape are functions that take a unit. It takes no memory.
pub fn takes_unit(shape: &Shape) -> bool
    ensures { result ≡ plain.takes_unit (shape_of shape.now) }
{
    match shape {
        Shape::Fun(takes, _) => is_unit(&takes.shape),
        Shape::Base(_)
        | Shape::Any
        | Shape::TVar(_)
        | Shape::TFun(_, _)
        | Shape::Boxed(_)
        | Shape::Exit(_) => false,
    }
}

// Whether the set gives leave to use the device.
fn is_permitted(set: &CapSet, device: u32) -> bool
    ensures { result ≡ stores.is_permitted set.now device }
{
    if set.contains(Elem::Cap) {
        true
    } else {
        set.contains(Elem::Var(Var::Free(device)))
    }
}

// Puts the device behind the others, if the set gives leave to use it.
fn add_permitted(devices: &mut Vec<u32>, set: &CapSet, device: u32) -> Result<(), AllocError>
    ensures { OnOk result (devices.new.items ≡ devices.old.items ++ (if stores.is_permitted set.now device then device ∷ [] else [])) }
{
    if is_permitted(set, device) {
        devices.push(device)?;
    }
    Ok(())
}

/// The devices, of so many, that the set gives leave to use, rising. Fails only for want of memory.
pub fn authority_of(alloc: Global, count: u32, set: &CapSet) -> Result<Vec<u32>, AllocError>
    ensures { IfOk result (λ devices. devices.items ≡ stores.authority count set.now) }
{
    let mut devices = Vec::new(alloc);
    for device in 0..count {
        add_permitted(&mut devices, set, device)?;
    }
    Ok(devices)
}
