//! Copies of what a checked module has. The terms and shapes in them are shared.
ghost use Rattle.std.specs.Prelude.{◌≡◌, map, IfOk};
ghost use Rattle.cc_check.specs.Definitions.{accepted_of};
ghost use Rattle.cc_module.specs.Judgements.{checked_definition_of};
ghost use Rattle.cc_parse.specs.Trees.{import_syntax};

use cc_base::literal::Import;
use cc_core::Checked;
use cc_module::judgement::CheckedDef;
use std::alloc::{AllocError, Global};

/// The same import. Fails only for want of memory.
pub fn copy_import(import: &Import) -> Result<Import, AllocError>
    ensures { IfOk result (λ copy. import_syntax copy ≡ import_syntax import.now) }
{
    let module = import.module.clone()?;
    let def = import.def.clone()?;
    Ok(Import {
        module,
        def,
        at: import.at,
        def_at: import.def_at,
    })
}

/// The same imports, in order. Fails only for want of memory.
pub fn copy_imports(alloc: Global, imports: &[Import]) -> Result<Vec<Import>, AllocError>
    ensures { IfOk result (λ copies. map import_syntax copies.items ≡ map import_syntax imports.now) }
{
    let mut copies = Vec::with_capacity(alloc, imports.len())?;
    for import in imports {
        let copy = copy_import(import)?;
        copies.push(copy)?;
    }
    Ok(copies)
}

// What the definition is accepted as, once more.
fn copy_checked(checked: &Checked) -> Result<Checked, AllocError>
    ensures { IfOk result (λ copy. accepted_of copy ≡ accepted_of checked.now) }
{
    let note = checked.note.clone()?;
    let filled = checked.filled.clone()?;
    let ty = checked.ty.clone()?;
    let sig = checked.sig.clone()?;
    Ok(Checked {
        note,
        filled,
        ty,
        sig,
    })
}

/// The same definition. Fails only for want of memory.
pub fn copy_def(def: &CheckedDef) -> Result<CheckedDef, AllocError>
    ensures { IfOk result (λ copy. checked_definition_of copy ≡ checked_definition_of def.now) }
{
    let name = def.name.clone()?;
    let checked = copy_checked(&def.checked)?;
    Ok(CheckedDef {
        name,
        recursive: def.recursive,
        checked,
    })
}

/// The same definitions, in order. Fails only for want of memory.
pub fn copy_defs(alloc: Global, defs: &[CheckedDef]) -> Result<Vec<CheckedDef>, AllocError>
    ensures { IfOk result (λ copies. map checked_definition_of copies.items ≡ map checked_definition_of defs.now) }
{
    let mut copies = Vec::with_capacity(alloc, defs.len())?;
    for def in defs {
        let copy = copy_def(def)?;
        copies.push(copy)?;
    }
    Ok(copies)
}
