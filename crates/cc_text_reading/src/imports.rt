//! The imports of a text.

ghost use Rattle.std.specs.Prelude.{◌≡◌, IfOk, option_map};
ghost use Rattle.cc_verdicts.specs.Readings as readings;
ghost use Rattle.cc_text_reading.specs.TextReadings.{text_reading_of};
ghost use Rattle.cc_parse.specs.Trees.{imports_syntax};

use crate::reading::{TextReading, read};
use cc_base::literal::Import;
use cc_parse::tree::Module;
use std::alloc::{AllocError, Global};

/// The imports of the text, in order, where it is a module; `None` exactly where it is none, and so is refused for its
/// tokens or for what they read as. Fails only for want of memory.
pub fn imports_of(alloc: Global, text: &[u8]) -> Result<Option<Vec<Import>>, AllocError>
    ensures { IfOk result (λ imports. option_map imports_syntax imports ≡ readings.imports_of text.now) }
{
    match read(alloc, text)? {
        TextReading::Tree(tree) => {
            let Module { imports, defs: _ } = tree;
            Ok(Some(imports))
        }
        TextReading::NoModule(_) => Ok(None),
    }
}

// The same import. Its names are shared.
fn copy_import(import: &Import) -> Result<Import, AllocError>
    ensures { IfOk result (λ copy. copy ≡ import.now) }
{
    Ok(Import {
        module: import.module.clone()?,
        def: import.def.clone()?,
        at: import.at,
        def_at: import.def_at,
    })
}

// The same imports, in order.
fn copy_imports(alloc: Global, imports: &[Import]) -> Result<Vec<Import>, AllocError>
    ensures { IfOk result (λ copies. copies.items ≡ imports.now) }
{
    let mut copies = Vec::with_capacity(alloc, imports.len())?;
    for import in imports {
        copies.push(copy_import(import)?)?;
    }
    Ok(copies)
}

/// The imports of a text that was read, in order, where it is a module, and `None` exactly where it is none. Fails only
/// for want of memory.
pub fn imports_read(alloc: Global, reading: &TextReading) -> Result<Option<Vec<Import>>, AllocError>
    ensures { IfOk result (λ imports. option_map imports_syntax imports ≡ readings.imports_in (text_reading_of reading.now)) }
{
    match reading {
        TextReading::Tree(tree) => Ok(Some(copy_imports(alloc, &tree.imports)?)),
        TextReading::NoModule(_) => Ok(None),
    }
}
