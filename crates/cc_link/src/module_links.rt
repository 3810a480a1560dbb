//! The links of modules.

ghost use Rattle.std.specs.Prelude.{◌≡◌, ◌++◌, ℕ, List, map, length, IfOk, OnOk};
ghost use Rattle.cc_core.specs.Programs.{Module};
ghost use Rattle.cc_session.specs.Modules.{module_of};
ghost use Rattle.cc_link.specs.EntryLists.{entry_lists, AddsModule};
ghost use Rattle.cc_link.specs.ModuleLinks.{module_entries, links_in};

use crate::entries::add_definitions;
use crate::imported_positions::outer_positions;
use crate::positions::{position_behind, table_of};
use crate::table::ModuleTable;
use cc_explain::links::Links;
use cc_explain::target::Target;
use cc_session::modules::EntryModule;
use std::alloc::{AllocError, Global};

// Puts the entries of a module's definitions, which are numbered from the first on, behind those of the earlier modules.
// The number of the next definition is answered.
fn add_module(
    alloc: Global,
    devices: u32,
    table: &mut ModuleTable,
    first: u32,
    module: &EntryModule,
    entries: &mut Vec<Vec<Target>>,
) -> Result<u32, AllocError>
    ensures { (earlier : List Module) → IfOk result (λ next. AddsModule devices earlier first (module_of «module».now) table.old (entry_lists entries.old.items) table.new (entry_lists entries.new.items) next) }
{
    let next = position_behind(first as usize, module.defs.len())?;
    let mut positions = outer_positions(alloc, devices, &*table, module.imports.as_slice())?;
    add_definitions(
        alloc,
        &mut positions,
        first,
        module.defs.as_slice(),
        entries,
    )?;
    let definitions = table_of(alloc, module.defs.as_slice(), first)?;
    table.add(&module.name, definitions)?;
    Ok(next)
}

/// The links of all definitions of modules, beside so many devices. The definitions of earlier modules stand first, and
/// those of one module in their order. An entry has what the elements of the outermost set of the definition's type
/// stand for, in order.
///
/// Fails for want of memory, and where there are 2^32 - 1 definitions or more.
pub fn links_of(alloc: Global, devices: u32, modules: &[EntryModule]) -> Result<Links, AllocError>
    ensures { IfOk result (λ links. links ≡ links_in devices (map module_of modules.now)) }
{
    let mut entries = Vec::new(alloc);
    let mut table = ModuleTable::new(alloc);
    let mut first = 0;
    for module in modules {
        first = add_module(alloc, devices, &mut table, first, module, &mut entries)?;
    }
    Ok(Links::new(entries))
}
