//! Why a definition is refused.

ghost use Rattle.std.specs.Prelude.{◌≡◌, ◌++◌, ◌∷◌, [], length, map, slice_get, Some, IfOk, OnOk};
ghost use Rattle.cc_mnf.specs.CoreModules.{definition_of};
ghost use Rattle.cc_mnf.specs.ElaboratedModules.{import_names, device_names};
ghost use Rattle.cc_module.specs.Findings.{finding_of};
ghost use Rattle.cc_module_reasoning.specs.RefusedDefinitions.{names_inside_at};
ghost use Rattle.cc_parse.specs.Trees.{def_syntax, import_syntax};
ghost use Rattle.cc_reasons.specs.RefusedDefinitions.{names_of_binders};
ghost use Rattle.cc_verdicts.specs.ModuleVerdicts as plain;
ghost use Rattle.cc_verdicts.specs.ReadyDefinitions.{AreReady};
ghost use Rattle.cc_why.specs.ToldReasons.{own_name, TellsDefinitions};

use crate::why::ReasonLines;
use cc_base::device::DeviceDecl;
use cc_base::literal::Import;
use cc_base::name::Name;
use cc_core::CoreDef;
use cc_module::contexts::{declared_context, with_findings};
use cc_module::finding::Finding;
use cc_module_reasoning::definitions::first_refused;
use cc_parse::tree::Module;
use cc_print::Names;
use cc_reason_lines::reason_lines::reason_lines;
use cc_replies::signatures::names_of;
use std::alloc::{AllocError, Global};

// Puts the names of the imports behind the others.
fn put_imports(names: &mut Vec<Name>, imports: &[Import]) -> Result<(), AllocError>
    ensures { OnOk result (names.new.items ≡ names.old.items ++ import_names (map import_syntax imports.now)) }
{
    for import in imports {
        names.push(import.def.clone()?)?;
    }
    Ok(())
}

// Puts the names of the definitions behind the others.
fn put_definitions(names: &mut Vec<Name>, defs: &[CoreDef]) -> Result<(), AllocError>
    ensures { OnOk result (names.new.items ≡ names.old.items ++ map (λ one. one.name) (map definition_of defs.now)) }
{
    for def in defs {
        names.push(def.name.clone()?)?;
    }
    Ok(())
}

// Puts the name of the definition behind the others, where it is recursive.
fn put_if_recursive(names: &mut Vec<Name>, def: &CoreDef) -> Result<(), AllocError>
    ensures { OnOk result (names.new.items ≡ names.old.items ++ own_name (Some (definition_of def.now))) }
{
    if def.recursive {
        names.push(def.name.clone()?)?;
    }
    Ok(())
}

// Puts the name of the definition at the place behind the others, if one stands there and it is recursive.
fn put_own(names: &mut Vec<Name>, defs: &[CoreDef], at: usize) -> Result<(), AllocError>
    ensures { OnOk result (names.new.items ≡ names.old.items ++ own_name (slice_get (map definition_of defs.now) at)) }
{
    match defs.get(at) {
        Some(def) => put_if_recursive(names, def),
        None => Ok(()),
    }
}

// The names of the positions in the right side of the definition behind so many. Fails only for want of memory.
fn names_inside(
    alloc: Global,
    devices: &[DeviceDecl],
    imports: &[Import],
    defs: &[CoreDef],
    before: usize,
) -> Result<Vec<Name>, AllocError>
    ensures { IfOk result (λ names. names.items ≡ names_inside_at (device_names devices.now ++ import_names (map import_syntax imports.now)) (map definition_of defs.now) before) }
{
    let Names {
        mut names,
        locals: _,
    } = names_of(alloc, devices)?;
    let end = before.min(defs.len());
    put_imports(&mut names, imports)?;
    put_definitions(&mut names, &defs[..end])?;
    put_own(&mut names, defs, before)?;
    Ok(names)
}

/// The lines of the reason of the first definition that is refused, if one is. These are the definitions of the tree, and what is
/// found for its imports. Fails only for want of memory, as which a size of 2^64 - 1 or more, where sizes are told, counts.
pub(crate) fn definition_lines(
    alloc: Global,
    devices: &[DeviceDecl],
    findings: &[Finding],
    tree: &Module,
    defs: &[CoreDef],
) -> Result<Option<ReasonLines>, AllocError>
    requires ready { AreReady (plain.with_findings (plain.declared_context devices.now) (map finding_of findings.now)) (map definition_of defs.now) }
    requires even { length tree.now.defs.items ≡ length defs.now }
    ensures { IfOk result (TellsDefinitions (length devices.now) (plain.with_findings (plain.declared_context devices.now) (map finding_of findings.now))
        (device_names devices.now ++ import_names (map import_syntax tree.now.imports.items)) (map definition_of defs.now)
        (names_of_binders (map def_syntax tree.now.defs.items))) }
{
    let declared = declared_context(alloc, devices)?;
    let count = declared.len();
    let globals = with_findings(alloc, declared, findings)?;
    match first_refused(alloc, globals, count, defs, &tree.defs)? {
        Some(found) => {
            let names = names_inside(alloc, devices, &tree.imports, defs, found.before)?;
            let lines = reason_lines(alloc, &names, count, &found.reason)?;
            Ok(Some(ReasonLines::Labelled(lines)))
        }
        None => Ok(None),
    }
}
