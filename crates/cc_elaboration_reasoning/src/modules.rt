//! The first refusal of a module's elaboration, with its cause.

ghost use Rattle.std.specs.Prelude.{◌≡◌, false, [], ◌∷◌, ◌++◌, map, slice_get, Option, IfOk, OnOk, option_map, if◌then◌else◌};
ghost use Rattle.std.specs.List.{IsDistinct, list_any};
ghost use Rattle.std.specs.Str.{bytes_eq};
ghost use Rattle.cc_mnf.specs.ElaboratedModules.{device_names, import_names};
ghost use Rattle.cc_mnf.specs.Scopes.{outermost};
ghost use Rattle.cc_parse.specs.Trees.{def_syntax, expr_syntax, import_syntax, module_syntax};
ghost use Rattle.cc_elaboration_reasons.specs.ElaborationCauses.{ExplainedRefusal};
ghost use Rattle.cc_elaboration_reasons.specs.ExplainedElaboration as plain;
ghost use Rattle.cc_elaboration_reasoning.specs.Answers.{Meets};
ghost use Rattle.cc_elaboration_reasoning.specs.FoundRefusals as found;
ghost use Rattle.cc_elaboration_reasoning.specs.Views.{refusal_seen};

use crate::exprs::expression;
use crate::halt::{Halt, refused};
use crate::refusal::{ElaborationCause, ElaborationRefusal, StrictPlace};
use crate::right_sides::right_side;
use crate::scope::Scope;
use crate::types::{strict_written_type, written_type};
use cc_base::device::DeviceDecl;
use cc_base::literal::Import;
use cc_base::name::Name;
use cc_base::place::Place;
use cc_names::Names;
use cc_parse::tree::{Def, Module};
use std::alloc::{AllocError, Global};

// The names of the devices.
fn names_of(alloc: Global, devices: &[DeviceDecl]) -> Result<Names, AllocError>
    requires { IsDistinct bytes_eq (device_names devices.now) }
    ensures { IfOk result (λ names. names ≡ device_names devices.now) }
{
    let mut names = Names::new(alloc);
    for device in devices {
        names.add(&device.name)?;
    }
    Ok(names)
}

// Where they stand: nowhere.
fn places_of(alloc: Global, devices: &[DeviceDecl]) -> Result<Vec<Option<Place>>, AllocError>
    ensures { IfOk result (λ places. places.items ≡ found.device_places (device_names devices.now)) }
{
    vec![in alloc; None; devices.len()]
}

// The place of this number, if there is one.
fn place_at(places: &[Option<Place>], index: u32) -> Option<Place>
    ensures { result ≡ found.place_or_nowhere (slice_get places.now index) }
{
    match places.get(index as usize) {
        Some(place) => *place,
        None => None,
    }
}

// A name at the place that is one more, where these are taken and stand at these places.
fn new_name(names: &Names, places: &[Option<Place>], name: &Name, at: Place) -> Result<(), Halt>
    ensures refusal { Meets result (found.repetition_found names.now places.now name.now at) }
    ensures new { OnOk result (list_any (bytes_eq name.now) names.now ≡ false) }
{
    match names.position(name)? {
        Some(index) => {
            let first = place_at(places, index);
            let name = name.clone()?;
            Err(refused(ElaborationCause::Repeated { name, first }, at))
        }
        None => Ok(()),
    }
}

// The imports, whose names join the others.
fn imports(
    names: &mut Names,
    places: &mut Vec<Option<Place>>,
    imports: &[Import],
) -> Result<(), Halt>
    ensures refusal { Meets result (found.imports_found names.old places.old.items (map import_syntax imports.now)) }
    ensures names { OnOk result (names.new ≡ names.old ++ import_names (map import_syntax imports.now)) }
    ensures places { OnOk result (places.new.items ≡ places.old.items ++ found.import_places (map import_syntax imports.now)) }
{
    for import in imports {
        new_name(names, places.as_slice(), &import.def, import.def_at)?;
        names.add(&import.def)?;
        places.push(Some(import.def_at))?;
    }
    Ok(())
}

// What is written for a definition, where these names are visible.
fn note(names: &Names, def: &Def) -> Result<(), Halt>
    ensures { Meets result (plain.note_refusal names.now (def_syntax def.now)) }
{
    let scope = Scope::Top(names);
    if def.own {
        strict_written_type(StrictPlace::InRecursion, &scope, &def.ty)
    } else {
        written_type(&scope, &def.ty)
    }
}

// The right side of a definition, which sees the names, and its own where it is recursive. Its name joins the names.
fn right(names: &mut Names, def: &Def) -> Result<(), Halt>
    requires { list_any (bytes_eq def.now.name) names.old ≡ false }
    ensures names { OnOk result (names.new ≡ names.old ++ def.now.name ∷ []) }
    ensures refusal { Meets result (plain.expression_refusal (outermost (if def.now.own then names.old ++ def.now.name ∷ [] else names.old)) (expr_syntax def.now.right)) }
{
    if def.own {
        names.add(&def.name)?;
        expression(&Scope::Top(&*names), &def.right)
    } else {
        expression(&Scope::Top(&*names), &def.right)?;
        names.add(&def.name)?;
        Ok(())
    }
}

// A definition behind the names, which its own joins.
fn definition(names: &mut Names, def: &Def) -> Result<(), Halt>
    requires { list_any (bytes_eq def.now.name) names.old ≡ false }
    ensures names { OnOk result (names.new ≡ names.old ++ def.now.name ∷ []) }
    ensures refusal { Meets result (found.definition_found names.old (def_syntax def.now)) }
{
    note(names, def)?;
    right(names, def)?;
    right_side(def)
}

// The definitions behind the names, which theirs join.
fn definitions(names: &mut Names, places: &mut Vec<Option<Place>>, defs: &[Def]) -> Result<(), Halt>
    ensures { Meets result (found.definitions_found names.old places.old.items (map def_syntax defs.now)) }
{
    for def in defs {
        new_name(names, places.as_slice(), &def.name, def.name_at)?;
        definition(names, def)?;
        places.push(Some(def.name_at))?;
    }
    Ok(())
}

// A module, where these devices are declared.
fn walk(alloc: Global, module: &Module, devices: &[DeviceDecl]) -> Result<(), Halt>
    requires { IsDistinct bytes_eq (device_names devices.now) }
    ensures { Meets result (found.module_found (device_names devices.now) (module_syntax «module».now)) }
{
    let mut names = names_of(alloc, devices)?;
    let mut places = places_of(alloc, devices)?;
    imports(&mut names, &mut places, &module.imports)?;
    definitions(&mut names, &mut places, &module.defs)
}

// What is found of the module.
fn found_refusal(answer: Result<(), Halt>) -> Result<Option<ElaborationRefusal>, AllocError>
    ensures { (first : Option ExplainedRefusal) → Meets answer first → IfOk result (λ refusal. option_map refusal_seen refusal ≡ first) }
{
    match answer {
        Ok(()) => Ok(None),
        Err(Halt::Refused(refusal)) => Ok(Some(refusal)),
        Err(Halt::NoMemory) => Err(AllocError),
    }
}

/// The first refusal of a module's elaboration with its cause, where these devices are declared, whose names differ. None
/// where it is elaborated.
///
/// Fails only for want of memory, as which more than 2^32 - 1 names count.
pub fn first_refusal(
    alloc: Global,
    module: &Module,
    devices: &[DeviceDecl],
) -> Result<Option<ElaborationRefusal>, AllocError>
    requires { IsDistinct bytes_eq (device_names devices.now) }
    ensures { IfOk result (λ refusal. option_map refusal_seen refusal ≡ plain.first_refusal (device_names devices.now) (module_syntax «module».now)) }
{
    found_refusal(walk(alloc, module, devices))
}
