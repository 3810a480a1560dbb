//! What is known before the definitions of a module: its devices, and what is found for its imports.

ghost use Rattle.std.specs.Prelude.{◌≡◌, [], ◌∷◌, ◌++◌, map, IfOk, OnOk};
ghost use Rattle.cc_capture.specs.declared.var.Elem.TheVariants.{Cap};
ghost use Rattle.cc_core.specs.Shapes.{BaseShape, capturing};
ghost use Rattle.cc_core.specs.Substitution.{single};
ghost use Rattle.cc_core.specs.TermViews.{type_of};
ghost use Rattle.cc_device.specs.Declarations.{declared_base};
ghost use Rattle.cc_parse.specs.Trees.{import_syntax};
ghost use Rattle.cc_vouching.specs.VouchedDefinitions as plain;
ghost use Rattle.cc_vouch.specs.BindViews.{bind_of, binds_of};
ghost use Rattle.cc_module_vouching.specs.KnownImports.{AddsImport, AddsImports, AreKnownBefore};

use crate::answered::AnsweredModules;
use cc_base::code::Diag;
use cc_base::device::{DeviceDecl, Kind};
use cc_base::literal::Import;
use cc_base::name::Name;
use cc_capture::{CapSet, Elem};
use cc_core::{Base, Shape, Ty};
use std::alloc::{AllocError, Global};
use std::rc::Rc;

// The base shape of a device.
fn base_of(kind: &Kind) -> Base
    ensures { result ≡ declared_base kind.now }
{
    match kind {
        Kind::Console => Base::Console,
        Kind::File(_) => Base::File,
        Kind::Counter => Base::Counter,
    }
}

// The type of a device of the base shape.
fn device_type(alloc: Global, base: Base) -> Result<Ty, AllocError>
    ensures { IfOk result (λ t. type_of t ≡ capturing (BaseShape base) (single Cap)) }
{
    let shape = Rc::new(alloc, Shape::Base(base))?;
    let mut set = CapSet::new(alloc);
    set.insert(Elem::Cap)?;
    Ok(Ty { shape, set })
}

// What is known of a device.
fn device_bind(alloc: Global, device: &DeviceDecl) -> Result<(Name, Ty), AllocError>
    ensures { IfOk result (λ bind. bind_of bind ≡ plain.device_bind device.now) }
{
    let name = device.name.clone()?;
    let ty = device_type(alloc, base_of(&device.kind))?;
    Ok((name, ty))
}

// What is known of the devices, in order.
fn device_binds(alloc: Global, devices: &[DeviceDecl]) -> Result<Vec<(Name, Ty)>, AllocError>
    ensures { IfOk result (λ binds. binds_of binds.items ≡ map plain.device_bind devices.now) }
{
    let mut binds = Vec::with_capacity(alloc, devices.len())?;
    for device in devices {
        let bind = device_bind(alloc, device)?;
        binds.push(bind)?;
    }
    Ok(binds)
}

// Puts the bind of the name and the type behind the others.
fn add_bind(known: &mut Vec<(Name, Ty)>, name: &Name, ty: &Ty) -> Result<(), AllocError>
    ensures { OnOk result (binds_of known.new.items ≡ binds_of known.old.items ++ (name.now, type_of ty.now) ∷ []) }
{
    let name = name.clone()?;
    let ty = ty.clone()?;
    known.push((name, ty))?;
    Ok(())
}

// Puts the bind of the import behind the others, if a definition is found for it, and else answers its refusal.
fn add_import(
    known: &mut Vec<(Name, Ty)>,
    modules: &AnsweredModules,
    import: &Import,
) -> Result<Option<Diag>, AllocError>
    ensures { IfOk result (λ missing. AddsImport modules.now (import_syntax import.now) known.old.items known.new.items missing) }
{
    match modules.signature(&import.module, &import.def) {
        Ok(ty) => {
            add_bind(known, &import.def, ty)?;
            Ok(None)
        }
        Err(code) => Ok(Some(Diag {
            code,
            place: import.at,
        })),
    }
}

// Puts the binds of the imports behind the others, if a definition is found for each, and else answers the refusal of the
// first for which none is.
fn add_imports(
    known: &mut Vec<(Name, Ty)>,
    modules: &AnsweredModules,
    imports: &[Import],
) -> Result<Option<Diag>, AllocError>
    ensures { IfOk result (λ missing. AddsImports modules.now (map import_syntax imports.now) known.old.items known.new.items missing) }
{
    for import in imports {
        let missing = add_import(known, modules, import)?;
        if let Some(diag) = missing {
            return Ok(Some(diag));
        }
    }
    Ok(None)
}

/// The binds of the devices and of the imports, if a definition is found for each, and else the refusal of the first for
/// which none is. Fails only for want of memory.
pub(crate) fn known_before(
    alloc: Global,
    devices: &[DeviceDecl],
    modules: &AnsweredModules,
    imports: &[Import],
) -> Result<Result<Vec<(Name, Ty)>, Diag>, AllocError>
    ensures { IfOk result (λ known. AreKnownBefore devices.now modules.now (map import_syntax imports.now) known) }
{
    let mut known = device_binds(alloc, devices)?;
    let missing = add_imports(&mut known, modules, imports)?;
    match missing {
        Some(diag) => Ok(Err(diag)),
        None => Ok(Ok(known)),
    }
}
