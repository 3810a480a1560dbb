//! Definitions of a module where they stand: the context of their right sides, and the names of its positions.

ghost use Rattle.std.specs.Prelude.{◌≡◌, ◌++◌, ◌∷◌, [], map, IfOk, OnOk, if◌then◌else◌};
ghost use Rattle.cc_core.specs.Contexts.{entry_of};
ghost use Rattle.cc_core.specs.TermViews.{type_of, context_of};
ghost use Rattle.cc_verdicts.specs.StandingDefinitions as plain;
ghost use Rattle.cc_mnf.specs.ElaboratedModules.{import_names, device_names};
ghost use Rattle.cc_module.specs.Findings.{finding_of};
ghost use Rattle.cc_module.specs.Judgements.{checked_definition_of};
ghost use Rattle.cc_parse.specs.Trees.{import_syntax};

use crate::contexts::{declared_context, with_findings, with_signature};
use crate::finding::Finding;
use crate::judgement::CheckedDef;
use cc_base::device::DeviceDecl;
use cc_base::literal::Import;
use cc_base::name::Name;
use cc_core::Ctx;
use std::alloc::{AllocError, Global};

// The context with the signatures of the definitions, in order.
fn with_definitions(alloc: Global, ctx: Ctx, defs: &[CheckedDef]) -> Result<Ctx, AllocError>
    ensures { IfOk result (λ c. context_of c ≡ plain.with_definitions (context_of ctx) (map checked_definition_of defs.now)) }
{
    let mut more = ctx;
    for def in defs {
        more = with_signature(alloc, &more, &def.checked.sig)?;
    }
    Ok(more)
}

// The context with the definition itself, where it is recursive.
fn with_own(alloc: Global, ctx: Ctx, one: &CheckedDef) -> Result<Ctx, AllocError>
    ensures { IfOk result (λ c. context_of c ≡ (if one.now.recursive then entry_of (type_of one.now.checked.sig) ∷ context_of ctx else context_of ctx)) }
{
    if one.recursive {
        with_signature(alloc, &ctx, &one.checked.sig)
    } else {
        Ok(ctx)
    }
}

/// The context of the right side of a definition of a module: the devices, what is found for the imports of the module,
/// the definitions before it, and itself where it is recursive. Fails only for want of memory.
pub fn context_behind(
    alloc: Global,
    devices: &[DeviceDecl],
    findings: &[Finding],
    before: &[CheckedDef],
    one: &CheckedDef,
) -> Result<Ctx, AllocError>
    ensures { IfOk result (λ c. context_of c ≡ plain.context_behind devices.now (map finding_of findings.now) (map checked_definition_of before.now) (checked_definition_of one.now)) }
{
    let declared = declared_context(alloc, devices)?;
    let found = with_findings(alloc, declared, findings)?;
    let globals = with_definitions(alloc, found, before)?;
    with_own(alloc, globals, one)
}

// Puts the names of the devices behind the others.
fn put_devices(names: &mut Vec<Name>, devices: &[DeviceDecl]) -> Result<(), AllocError>
    ensures { OnOk result (names.new.items ≡ names.old.items ++ device_names devices.now) }
{
    for device in devices {
        names.push(device.name.clone()?)?;
    }
    Ok(())
}

// Puts the names of the imports behind the others.
fn put_imports(names: &mut Vec<Name>, imports: &[Import]) -> Result<(), AllocError>
    ensures { OnOk result (names.new.items ≡ names.old.items ++ import_names (map import_syntax imports.now)) }
{
    for import in imports {
        names.push(import.def.clone()?)?;
    }
    Ok(())
}

// Puts the names of the definitions behind the others.
fn put_definitions(names: &mut Vec<Name>, defs: &[CheckedDef]) -> Result<(), AllocError>
    ensures { OnOk result (names.new.items ≡ names.old.items ++ map (λ one. one.name) (map checked_definition_of defs.now)) }
{
    for def in defs {
        names.push(def.name.clone()?)?;
    }
    Ok(())
}

// Puts the name of the definition behind the others, where it is recursive.
fn put_own(names: &mut Vec<Name>, one: &CheckedDef) -> Result<(), AllocError>
    ensures { OnOk result (names.new.items ≡ names.old.items ++ (if one.now.recursive then one.now.name ∷ [] else [])) }
{
    if one.recursive {
        names.push(one.name.clone()?)?;
    }
    Ok(())
}

/// The names of the positions of that context, in order. Fails only for want of memory.
pub fn names_behind(
    alloc: Global,
    devices: &[DeviceDecl],
    imports: &[Import],
    before: &[CheckedDef],
    one: &CheckedDef,
) -> Result<Vec<Name>, AllocError>
    ensures { IfOk result (λ names. names.items ≡ plain.names_behind devices.now (map import_syntax imports.now) (map checked_definition_of before.now) (checked_definition_of one.now)) }
{
    let mut names = Vec::new(alloc);
    put_devices(&mut names, devices)?;
    put_imports(&mut names, imports)?;
    put_definitions(&mut names, before)?;
    put_own(&mut names, one)?;
    Ok(names)
}
