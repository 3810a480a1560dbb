//! What the positions of a module stand for, but for its own definitions.

ghost use Rattle.std.specs.Prelude.{◌≡◌, map, reverse, IfOk};
ghost use Rattle.cc_link.specs.Tables.{module_position};
ghost use Rattle.cc_link.specs.ModuleLinks.{device_positions, with_imports, imported_target};
ghost use Rattle.cc_parse.specs.Trees.{import_syntax};

use crate::table::ModuleTable;
use cc_base::literal::Import;
use cc_explain::target::Target;
use std::alloc::{AllocError, Global};

// What an import names, where the table finds it.
fn imported(table: &ModuleTable, import: &Import) -> Option<Target>
    ensures { result ≡ imported_target (module_position table.now) (import_syntax import.now) }
{
    match table.position(&import.module, &import.def) {
        Some(number) => Some(Target::Definition(number)),
        None => None,
    }
}

/// What the positions before a module's definitions stand for: so many devices, and what its imports name.
///
/// Fails only for want of memory.
pub fn outer_positions(
    alloc: Global,
    devices: u32,
    table: &ModuleTable,
    imports: &[Import],
) -> Result<Vec<Option<Target>>, AllocError>
    ensures { IfOk result (λ positions. reverse positions.items ≡ with_imports (module_position table.now) (device_positions devices) (map import_syntax imports.now)) }
{
    let mut positions = Vec::new(alloc);
    for device in 0..devices {
        positions.push(Some(Target::Device(device)))?;
    }
    for import in imports {
        let target = imported(table, import);
        positions.push(target)?;
    }
    Ok(positions)
}
