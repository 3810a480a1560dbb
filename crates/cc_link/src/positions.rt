//! Where the positions of a module's context stand in the store, and where its definitions do.
ghost use Rattle.std.specs.Prelude.{◌≡◌, ◌+◌, ◌<◌, ℕ, List, map, reverse, length, IfOk};
ghost use Rattle.cc_core.specs.Programs.{Module};
ghost use Rattle.cc_runs.specs.Links.{count_definitions, position_among};
ghost use Rattle.cc_link.specs.Linking.{definition_of, module_in_program, ArePositions};
ghost use Rattle.cc_link.specs.Tables.{definition_position, Finds};

use crate::table::{DefinitionTable, ModuleTable};
use cc_module::judgement::CheckedDef;
use cc_session::EntryModule;
use std::alloc::{AllocError, Global};

/// The position that stands so many behind another. Fails where it is 2^32 - 1 or more.
pub fn position_behind(first: usize, count: usize) -> Result<u32, AllocError>
    ensures { IfOk result (λ position. (position ≡ first + count) × (position < 4294967295)) }
{
    let position = first.saturating_add(count);
    if position < 4294967295 {
        Ok(position as u32)
    } else {
        Err(AllocError)
    }
}

/// The positions of definitions that stand one behind the other from a position on. Where two have one name, it is the
/// later one's. Fails for want of memory, and where a position is 2^32 - 1 or more.
pub fn table_of(
    alloc: Global,
    defs: &[CheckedDef],
    first: u32,
) -> Result<DefinitionTable, AllocError>
    ensures { IfOk result (λ table. (name : List ℕ) → definition_position table name ≡ position_among first name (reverse (map definition_of defs.now))) }
{
    let mut table = DefinitionTable::new(alloc);
    for (index, def) in defs.iter().enumerate() {
        let position = position_behind(first as usize, index)?;
        table.add(&def.name, position)?;
    }
    Ok(table)
}

/// Where the positions stand that the definitions of a module name, beside so many devices and earlier modules whose
/// definitions a table finds: devices where they are, imports where what they name stands, and the module's own
/// definitions one behind the other from a position on. Fails for want of memory, and where a position is 2^32 - 1 or
/// more.
pub fn linked_positions(
    alloc: Global,
    devices: usize,
    table: &ModuleTable,
    current: &EntryModule,
    first: u32,
) -> Result<Vec<u32>, AllocError>
    ensures count { IfOk result (λ to. length to.items ≡ devices + length (module_in_program current.now).imports + length (module_in_program current.now).definitions) }
    ensures positions { (earlier : List Module) → Finds devices earlier table.now → first ≡ devices + count_definitions earlier → IfOk result (λ to. ArePositions devices earlier (module_in_program current.now).imports to.items) }
{
    let mut to = Vec::new(alloc);
    for device in 0..devices {
        let position = position_behind(device, 0)?;
        to.push(position)?;
    }
    for (index, import) in current.imports.iter().enumerate() {
        let here = position_behind(devices, index)?;
        let place = table.position(&import.module, &import.def).unwrap_or(here);
        to.push(place)?;
    }
    for own in 0..current.defs.len() {
        let own_place = position_behind(first as usize, own)?;
        to.push(own_place)?;
    }
    Ok(to)
}
