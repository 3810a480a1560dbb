//! The entries of definitions.

ghost use Rattle.std.specs.Prelude.{◌≡◌, ◌++◌, [], ◌∷◌, map, reverse, Some, IfOk, OnOk};
ghost use Rattle.std.specs.Option.{option_to_list};
ghost use Rattle.cc_module.specs.Judgements.{checked_definition_of};
ghost use Rattle.cc_link.specs.ModuleLinks.{variable_target, element_target, definition_entry, definition_entries};
ghost use Rattle.cc_link.specs.EntryLists.{entry_lists};

use crate::positions::position_behind;
use cc_capture::{CapSet, Elem, Var};
use cc_explain::target::Target;
use cc_module::judgement::CheckedDef;
use std::alloc::{AllocError, Global};

// What a variable stands for.
fn variable_target(positions: &[Option<Target>], variable: Var) -> Option<Target>
    ensures { result ≡ variable_target (reverse positions.now) variable }
{
    match variable {
        Var::Free(position) => {
            let at = position as usize;
            if at < positions.len() {
                positions[at]
            } else {
                None
            }
        }
        Var::Bound(_) => None,
    }
}

// What an element of a set stands for.
fn element_target(positions: &[Option<Target>], elem: Elem) -> Option<Target>
    ensures { result ≡ element_target (reverse positions.now) elem }
{
    match elem {
        Elem::Var(variable) => variable_target(positions, variable),
        Elem::Cap => Some(Target::Cap),
        Elem::Hole(_) => None,
    }
}

// Puts the target behind the others, if there is one.
fn push_found(entry: &mut Vec<Target>, target: Option<Target>) -> Result<(), AllocError>
    ensures { OnOk result (entry.new.items ≡ entry.old.items ++ option_to_list target) }
{
    match target {
        Some(target) => {
            entry.push(target)?;
            Ok(())
        }
        None => Ok(()),
    }
}

// The entry of a definition with the set in its type.
fn definition_entry(
    alloc: Global,
    positions: &[Option<Target>],
    set: &CapSet,
) -> Result<Vec<Target>, AllocError>
    ensures { IfOk result (λ entry. entry.items ≡ definition_entry (reverse positions.now) set.now.list) }
{
    let mut entry = Vec::new(alloc);
    for elem in set.iter() {
        let target = element_target(positions, elem);
        push_found(&mut entry, target)?;
    }
    Ok(entry)
}

// Puts the entry of a definition behind the others, and its number behind the positions.
fn add_definition(
    alloc: Global,
    positions: &mut Vec<Option<Target>>,
    number: u32,
    def: &CheckedDef,
    entries: &mut Vec<Vec<Target>>,
) -> Result<(), AllocError>
    ensures entries { OnOk result (entry_lists entries.new.items ≡ entry_lists entries.old.items ++ definition_entry (reverse positions.old.items) (checked_definition_of def.now).accepted.type.set.list ∷ []) }
    ensures positions { OnOk result (positions.new.items ≡ positions.old.items ++ Some (Target.Definition number) ∷ []) }
{
    let entry = definition_entry(alloc, positions.as_slice(), &def.checked.ty.set)?;
    entries.push(entry)?;
    positions.push(Some(Target::Definition(number)))?;
    Ok(())
}

/// Puts the entries of a module's definitions, in order, behind the others. They are numbered from the first on, and see
/// the positions and the definitions before them.
///
/// Fails for want of memory, and where a number is 2^32 - 1 or more.
pub fn add_definitions(
    alloc: Global,
    positions: &mut Vec<Option<Target>>,
    first: u32,
    defs: &[CheckedDef],
    entries: &mut Vec<Vec<Target>>,
) -> Result<(), AllocError>
    ensures { OnOk result (entry_lists entries.new.items ≡ entry_lists entries.old.items ++ definition_entries (reverse positions.old.items) first (map checked_definition_of defs.now)) }
{
    for (index, def) in defs.iter().enumerate() {
        let number = position_behind(first as usize, index)?;
        add_definition(alloc, &mut *positions, number, def, &mut *entries)?;
    }
    Ok(())
}
