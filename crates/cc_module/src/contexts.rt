//! The context that the definitions of a module are checked in: the devices, and what is found for the imports.

ghost use Rattle.std.specs.Prelude.{◌≡◌, ◌∷◌, map, IfOk};
ghost use Rattle.cc_core.specs.Contexts.{entry_of};
ghost use Rattle.cc_core.specs.Programs.{device_entry};
ghost use Rattle.cc_core.specs.TermViews.{type_of, context_of};
ghost use Rattle.cc_device.specs.Declarations.{declared_base};
ghost use Rattle.cc_verdicts.specs.ModuleVerdicts as plain;
ghost use Rattle.cc_module.specs.Findings.{finding_of};

use crate::finding::Finding;
use cc_base::device::{DeviceDecl, Kind};
use cc_capture::{CapSet, Elem};
use cc_core::{Base, Bind, Ctx, Shape, Ty};
use std::alloc::{AllocError, Global};
use std::rc::Rc;

// The base shape of a device.
fn base_of(kind: &Kind) -> Base
    ensures { result ≡ declared_base kind.now }
{
    match kind {
        Kind::Console => Base::Console,
        Kind::File(_) => Base::File,
        Kind::Counter => Base::Counter,
    }
}

// The type of a device of the base shape.
fn device_type(alloc: Global, base: Base) -> Result<Ty, AllocError>
    ensures { IfOk result (λ t. entry_of (type_of t) ≡ device_entry base) }
{
    let shape = Rc::new(alloc, Shape::Base(base))?;
    let mut set = CapSet::new(alloc);
    set.insert(Elem::Cap)?;
    Ok(Ty { shape, set })
}

// The context with one device more.
fn with_device(alloc: Global, ctx: &Ctx, kind: &Kind) -> Result<Ctx, AllocError>
    ensures { IfOk result (λ c. context_of c ≡ device_entry (declared_base kind.now) ∷ context_of ctx.now) }
{
    let ty = device_type(alloc, base_of(kind))?;
    let more = ctx.push(alloc, Bind::Var(ty))?;
    Ok(more)
}

/// The context of the devices, in order.
pub fn declared_context(alloc: Global, devices: &[DeviceDecl]) -> Result<Ctx, AllocError>
    ensures { IfOk result (λ c. context_of c ≡ plain.declared_context devices.now) }
{
    let mut ctx = Ctx::new();
    for device in devices {
        ctx = with_device(alloc, &ctx, &device.kind)?;
    }
    Ok(ctx)
}

/// The context with one variable of the type more.
pub fn with_signature(alloc: Global, ctx: &Ctx, ty: &Ty) -> Result<Ctx, AllocError>
    ensures { IfOk result (λ c. context_of c ≡ entry_of (type_of ty.now) ∷ context_of ctx.now) }
{
    let more = ctx.push(alloc, Bind::Var(ty.clone()?))?;
    Ok(more)
}

// The context with one import more, if a definition is found for it.
fn with_finding(alloc: Global, ctx: Ctx, finding: &Finding) -> Result<Ctx, AllocError>
    ensures { IfOk result (λ c. context_of c ≡ plain.with_finding (context_of ctx) (finding_of finding.now)) }
{
    match finding {
        Finding::Found(ty) => with_signature(alloc, &ctx, ty),
        Finding::Unknown | Finding::Cycle | Finding::RefusedModule | Finding::NoDef => Ok(ctx),
    }
}

/// The context with the signatures that are found, in order.
pub fn with_findings(alloc: Global, ctx: Ctx, findings: &[Finding]) -> Result<Ctx, AllocError>
    ensures { IfOk result (λ c. context_of c ≡ plain.with_findings (context_of ctx) (map finding_of findings.now)) }
{
    let mut more = ctx;
    for finding in findings {
        more = with_finding(alloc, more, finding)?;
    }
    Ok(more)
}
