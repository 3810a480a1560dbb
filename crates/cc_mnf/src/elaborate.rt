//! The elaboration of modules.
#![tactic(auto, unfolding(crate::specs::Steps::followed, crate::specs::Steps::gives, crate::specs::Steps::refuses))]

ghost use Rattle.std.specs.Prelude.{◌≡◌, false, [], ◌∷◌, ◌++◌, IfOk, OnOk, map, if◌then◌else◌};
ghost use Rattle.std.specs.List.{IsDistinct, list_any};
ghost use Rattle.std.specs.Str.{bytes_eq};
ghost use Rattle.cc_core.specs.TermViews.{note_of, term_of};
ghost use Rattle.cc_mnf.specs.CoreModules.{definition_of, core_definitions, core_module, Elaborates};
ghost use Rattle.cc_mnf.specs.ElaboratedModules.{device_names};
ghost use Rattle.cc_mnf.specs.ElaboratedModules as plain;
ghost use Rattle.cc_mnf.specs.Elaboration as expressions;
ghost use Rattle.cc_mnf.specs.Operands as operands;
ghost use Rattle.cc_mnf.specs.OperandViews.{placed_of};
ghost use Rattle.cc_mnf.specs.Scopes.{outermost};
ghost use Rattle.cc_mnf.specs.StepAnswers.{Meets, MeetsWithoutHoles};
ghost use Rattle.cc_mnf.specs.Steps.{with_own_holes};
ghost use Rattle.cc_parse.specs.Trees.{def_syntax, expr_syntax, import_syntax, module_syntax};

use crate::error::ElaborateError;
use crate::exprs::elaborated;
use crate::operands::start;
use crate::scope::Scope;
use crate::stop::Stop;
use crate::types::{optional_note, optional_type};
use cc_base::code::{Code, Diag};
use cc_base::device::DeviceDecl;
use cc_base::literal::Import;
use cc_base::name::Name;
use cc_base::place::Place;
use cc_captured::captured::{is_function, is_value};
use cc_core::{CoreDef, Node, Note};
use cc_names::Names;
use cc_parse::tree::{Def, Module};
use std::alloc::{AllocError, Global};
use std::rc::Rc;

/// An elaborated module: its imports as they are, and its definitions.
#[derive(Drop)]
pub struct CoreModule {
    pub imports: Vec<Import>,
    pub defs: Vec<CoreDef>,
}

/// The names of the devices.
fn names_of(alloc: Global, devices: &[DeviceDecl]) -> Result<Names, AllocError>
    requires { IsDistinct bytes_eq (device_names devices.now) }
    ensures { IfOk result (λ names. names ≡ device_names devices.now) }
{
    let mut names = Names::new(alloc);
    for device in devices {
        names.add(&device.name)?;
    }
    Ok(names)
}

/// Puts a name behind the names, unless it is one of them; the place is that of the name.
fn add_name(names: &mut Names, name: &Name, at: Place) -> Result<(), Stop>
    ensures { MeetsWithoutHoles (λ _. names.new) result (plain.with_name names.old name.now at) }
{
    if names.contains(name) {
        return Err(Stop::Refused(Code::E09, at));
    }
    names.add(name)?;
    Ok(())
}

/// Puts the names of the imports behind the names.
fn add_imports(names: &mut Names, imports: &[Import]) -> Result<(), Stop>
    ensures { MeetsWithoutHoles (λ _. names.new) result (plain.with_imports names.old (map import_syntax imports.now)) }
{
    for import in imports {
        add_name(names, &import.def, import.def_at)?;
    }
    Ok(())
}

/// Whether the term may be a right side: a value, and a function where the definition is recursive.
fn is_right_side(recursive: bool, node: &Node) -> bool
    ensures { result ≡ plain.is_right_side recursive (term_of node.now) }
{
    if recursive {
        is_function(node)
    } else {
        is_value(node)
    }
}

/// What is written for a definition, where these names are visible.
fn definition_note(alloc: Global, names: &Names, def: &Def) -> Result<Note, Stop>
    ensures { MeetsWithoutHoles note_of result (plain.definition_note names.now (def_syntax def.now)) }
{
    let scope = Scope::Top(names);
    if def.own {
        Ok(optional_type(alloc, &scope, &def.ty)?)
    } else {
        Ok(optional_note(alloc, &scope, &def.ty)?)
    }
}

/// The right side of a definition, which sees the names, and its own where it is recursive. Its name joins the names.
fn right_side(
    alloc: Global,
    names: &mut Names,
    def: &Def,
    holes: &mut u32,
) -> Result<Rc<Node>, Stop>
    requires { list_any (bytes_eq def.now.name) names.old ≡ false }
    ensures names { OnOk result (names.new ≡ names.old ++ def.now.name ∷ []) }
    ensures exact { Meets (λ n. placed_of n.value) holes.new result (expressions.elaborated (outermost (if def.now.own then names.old ++ def.now.name ∷ [] else names.old)) (operands.start (expr_syntax def.now.right)) (expr_syntax def.now.right) holes.old) }
{
    let at = start(&def.right);
    if def.own {
        names.add(&def.name)?;
        Ok(elaborated(alloc, &Scope::Top(&*names), at, &def.right, holes)?)
    } else {
        let right = elaborated(alloc, &Scope::Top(&*names), at, &def.right, holes)?;
        names.add(&def.name)?;
        Ok(right)
    }
}

/// A definition behind the names, which its own joins.
#[tactic(auto, unfolding(crate::specs::Steps::followed, crate::specs::Steps::gives, crate::specs::Steps::refuses, crate::specs::Steps::with_own_holes))]
fn definition(alloc: Global, names: &mut Names, def: &Def) -> Result<CoreDef, Stop>
    requires { list_any (bytes_eq def.now.name) names.old ≡ false }
    ensures names { OnOk result (names.new ≡ names.old ++ def.now.name ∷ []) }
    ensures exact { MeetsWithoutHoles definition_of result (with_own_holes (plain.elaborated_definition names.old (names.old ++ def.now.name ∷ []) (def_syntax def.now))) }
{
    let note = definition_note(alloc, names, def)?;
    let mut holes = 0;
    let right = right_side(alloc, names, def, &mut holes)?;
    if !is_right_side(def.own, &right) {
        return Err(Stop::Refused(Code::E12, start(&def.right)));
    }
    Ok(CoreDef {
        name: def.name.clone()?,
        name_at: def.name_at,
        note,
        recursive: def.own,
        right,
    })
}

/// The definitions behind the names, which theirs join.
fn definitions(alloc: Global, names: &mut Names, defs: &[Def]) -> Result<Vec<CoreDef>, Stop>
    ensures { MeetsWithoutHoles core_definitions result (plain.elaborated_definitions names.old (map def_syntax defs.now)) }
{
    let mut definitions = Vec::with_capacity(alloc, defs.len())?;
    for def in defs {
        if names.contains(&def.name) {
            return Err(Stop::Refused(Code::E09, def.name_at));
        }
        let next = definition(alloc, names, def)?;
        definitions.push(next)?;
    }
    Ok(definitions)
}

fn copy_import(import: &Import) -> Result<Import, AllocError>
    ensures { IfOk result (λ copy. copy ≡ import.now) }
{
    Ok(Import {
        module: import.module.clone()?,
        def: import.def.clone()?,
        at: import.at,
        def_at: import.def_at,
    })
}

fn copy_imports(alloc: Global, imports: &[Import]) -> Result<Vec<Import>, AllocError>
    ensures { IfOk result (λ copies. copies.items ≡ imports.now) }
{
    let mut copies = Vec::with_capacity(alloc, imports.len())?;
    for import in imports {
        copies.push(copy_import(import)?)?;
    }
    Ok(copies)
}

fn elaborated_module(
    alloc: Global,
    module: &Module,
    devices: &[DeviceDecl],
) -> Result<CoreModule, Stop>
    requires { IsDistinct bytes_eq (device_names devices.now) }
    ensures { MeetsWithoutHoles core_module result (plain.elaborated_module (device_names devices.now) (module_syntax «module».now)) }
{
    let mut names = names_of(alloc, devices)?;
    add_imports(&mut names, &module.imports)?;
    let defs = definitions(alloc, &mut names, &module.defs)?;
    let imports = copy_imports(alloc, &module.imports)?;
    Ok(CoreModule { imports, defs })
}

/// The elaboration of a module where these devices are declared, whose names differ: names become variables, and
/// expressions become terms in monadic normal form. A refusal is the first one in the order of the text.
///
/// Fails only for want of memory, as which more than 2^32 - 1 names, holes of a definition or binders around a name
/// count.
#[tactic(auto, unfolding(crate::specs::Steps::gives, crate::specs::Steps::refuses, crate::specs::ElaboratedModules::elaboration))]
pub fn elaborate(
    alloc: Global,
    module: &Module,
    devices: &[DeviceDecl],
) -> Result<CoreModule, ElaborateError>
    requires { IsDistinct bytes_eq (device_names devices.now) }
    ensures exact { Elaborates result (plain.elaboration (device_names devices.now) (module_syntax «module».now)) }
{
    match elaborated_module(alloc, module, devices) {
        Ok(elaborated) => Ok(elaborated),
        Err(Stop::Refused(code, place)) => Err(ElaborateError::Refused(Diag { code, place })),
        Err(Stop::NoMemory) => Err(ElaborateError::NoMemory),
    }
}
