//! Linking the modules of an entry.
ghost use Rattle.std.specs.Prelude.{◌≡◌, ◌+◌, ◌<◌, ◌++◌, map, reverse, length, IfOk, OnOk};
ghost use Rattle.cc_capture.specs.declared.var.Var.TheVariants.{Free};
ghost use Rattle.cc_core.specs.Actions.{renamed_by};
ghost use Rattle.cc_core.specs.Contexts.{entry_of as bind_of};
ghost use Rattle.cc_core.specs.Terms.{Application};
ghost use Rattle.cc_core.specs.TermViews.{term_of};
ghost use Rattle.cc_session.specs.Entries.{entry_of};
ghost use Rattle.cc_entry_laws.specs.PresentEntries.{program_entry};
ghost use Rattle.cc_link.specs.Linking.{definition_of, modules_before, types_in, IsLinked};
ghost use Rattle.cc_runs.specs.Links.{linked_cell, program_start, program_context};
ghost use Rattle.cc_machine.specs.Programs.{shapes_of, start_of};
ghost use Rattle.cc_machine.specs.Starts.{value_cell, value_entry};

use crate::positions::{linked_positions, position_behind, table_of};
use crate::table::ModuleTable;
use cc_base::place::Place;
use cc_capture::Var;
use cc_core::substitution::rename;
use cc_core::{Form, Node};
use cc_machine::{Program, TypedValue};
use cc_module::judgement::CheckedDef;
use cc_session::Entry;
use std::alloc::{AllocError, Global};
use std::rc::Rc;

// The value of the definition with its type, where the list says where each position stands. Fails only for want of
// memory.
fn linked_value(alloc: Global, def: &CheckedDef, to: &[u32]) -> Result<TypedValue, AllocError>
    ensures cell { IfOk result (λ value. value_cell value ≡ linked_cell (renamed_by to.now) (definition_of def.now)) }
    ensures entry { IfOk result (λ value. value_entry value ≡ bind_of (definition_of def.now).signature) }
{
    let value = rename(alloc, &def.checked.filled, to)?;
    let ty = def.checked.sig.clone()?;
    Ok(TypedValue { value, ty })
}

// Puts the values of the definitions behind the others, in order. Fails only for want of memory.
fn add_values(
    alloc: Global,
    defs: &[CheckedDef],
    to: &[u32],
    values: &mut Vec<TypedValue>,
) -> Result<(), AllocError>
    ensures cells { OnOk result (map value_cell (reverse values.new.items) ≡ map (linked_cell (renamed_by to.now)) (reverse (map definition_of defs.now)) ++ map value_cell (reverse values.old.items)) }
    ensures entries { OnOk result (map value_entry (reverse values.new.items) ≡ map (λ definition. bind_of definition.signature) (reverse (map definition_of defs.now)) ++ map value_entry (reverse values.old.items)) }
{
    for def in defs {
        let value = linked_value(alloc, def, to)?;
        values.push(value)?;
    }
    Ok(())
}

// Links the module at the index behind those before it. Fails for want of memory, and where a position is 2^32 - 1 or
// more.
fn add_module(
    alloc: Global,
    entry: &Entry,
    index: usize,
    values: &mut Vec<TypedValue>,
    table: &mut ModuleTable,
) -> Result<(), AllocError>
    requires within { index < length entry.now.modules.items }
    requires linked { IsLinked entry.now.devices.items (modules_before entry.now index) values.old.items table.old }
    ensures { OnOk result (IsLinked entry.now.devices.items (modules_before entry.now (index + 1)) values.new.items table.new) }
{
    let current = &entry.modules[index];
    let first = position_behind(entry.devices.len(), values.len())?;
    let to = linked_positions(alloc, entry.devices.len(), table, current, first)?;
    add_values(alloc, &current.defs, &to, values)?;
    let definitions = table_of(alloc, &current.defs, first)?;
    table.add(&current.name, definitions)?;
    Ok(())
}

// The term that applies what stands at a position to what stands at another. It is from no text. Fails only for want
// of memory.
fn application(alloc: Global, function: u32, argument: u32) -> Result<Rc<Node>, AllocError>
    ensures { IfOk result (λ term. term_of term.value ≡ Application (Free function) (Free argument)) }
{
    let at = Place { line: 1, col: 1 };
    let node = Node {
        form: Form::App(Var::Free(function), Var::Free(argument)),
        at,
        first: at,
        second: at,
    };
    Ok(Rc::new(alloc, node)?)
}

/// The program of an entry: its devices, the definitions of all its modules in order, each with its variables where what
/// they name stands, and the definition that is run, applied to unit. Fails for want of memory, and where devices and
/// definitions together are 2^32 - 1 or more.
pub fn link(alloc: Global, entry: &Entry) -> Result<Program, AllocError>
    ensures devices { IfOk result (λ program. shapes_of program ≡ (program_entry (entry_of entry.now)).devices) }
    ensures start { IfOk result (λ program. start_of program ≡ program_start (program_entry (entry_of entry.now))) }

    // The declared types of its cells are those of the devices, the signatures of the definitions, and that of unit.
    ensures types { IfOk result (λ program. types_in program ≡ program_context (program_entry (entry_of entry.now))) }
{
    let mut values = Vec::new(alloc);
    let mut table = ModuleTable::new(alloc);
    for index in 0..entry.modules.len() {
        add_module(alloc, entry, index, &mut values, &mut table)?;
    }
    let unit = position_behind(entry.devices.len(), values.len())?;
    let started = table.position(&entry.module, &entry.def).unwrap_or(0);
    let term = application(alloc, started, unit)?;
    let devices = Vec::from_slice(alloc, &entry.devices)?;
    Ok(Program::new(devices, values, term))
}
