//! Making an entry of the present modules.

ghost use Rattle.std.specs.Prelude.{◌≡◌, ◌++◌, ◌∷◌, [], filter, map, length, option_map, IfOk, OnOk, IsTrue, if◌then◌else◌};
ghost use Rattle.std.specs.List.{AllByRecursion};
ghost use Rattle.std.specs.List.Sorted.{IsStrictlySortedBy};
ghost use Rattle.std.specs.Map.{keys_of};
ghost use Rattle.std.specs.Option.{unwrap_or, is_some};
ghost use Rattle.cc_session.specs.Entries.{entry_of};
ghost use Rattle.cc_session.specs.Modules.{module_of};
ghost use Rattle.cc_entry_laws.specs.PresentEntries as plain;
ghost use Rattle.cc_base.specs.Names.{compare_names};
ghost use Rattle.cc_judge.specs.Dependencies.{AreRead};
ghost use Rattle.cc_verdicts.specs.ModuleLaws.{NamesOfDevicesDiffer};
ghost use Rattle.cc_verdicts.specs.PresentTexts.{ArePresent, text_of};
ghost use Rattle.cc_module.specs.Judgements.{checked_definition_of, module_verdict_of};
ghost use Rattle.cc_parse.specs.Trees.{import_syntax, imports_syntax};
ghost use Rattle.cc_session.specs.EntryParts.{ArePresentModules, AddsPresent, AreReachedModules, HaveCurrentVerdicts, IsStarted, IsDefinitionOf, IsCurrentEntry};
ghost use Rattle.cc_session.specs.EntryAnswers.{AnswersEntry};
ghost use Rattle.cc_entry_laws.specs.LinkOrders.{is_reached};

use crate::copies::{copy_defs, copy_imports};
use crate::entry::Entry;
use crate::modules::EntryModule;
use crate::refusals::Refused;
use crate::starting::{authority_of, shapes_of_devices, takes_unit};
use cc_base::code::Code;
use cc_base::device::DeviceDecl;
use cc_base::literal::Import;
use cc_base::name::Name;
use cc_graph::imports::ImportGraph;
use cc_judge::dependencies::read_texts;
use cc_judge::grounds::SharedText;
use cc_judge::known_graph::graph_again;
use cc_judge::last::Last;
use cc_judge::names::place_of_text;
use cc_judge::reading::ReadText;
use cc_module::judgement::{CheckedDef, ModuleVerdict};
use std::alloc::{AllocError, Global};

/// Why there is no entry.
#[derive(Clone, Copy, Debug, PartialEq, Eq)]
pub enum EntryError {
    /// It is refused.
    Refused(Refused),
    /// There is no memory for it.
    NoMemory,
}

// The imports that were read, if any were.
fn imports_in(alloc: Global, reading: &Option<Vec<Import>>) -> Result<Vec<Import>, AllocError>
    ensures { IfOk result (λ imports. map import_syntax imports.items ≡ unwrap_or (option_map imports_syntax reading.now) []) }
{
    match reading {
        Some(imports) => copy_imports(alloc, imports.as_slice()),
        None => Ok(Vec::new(alloc)),
    }
}

// The definitions of a module with this verdict.
fn definitions_in(alloc: Global, verdict: &ModuleVerdict) -> Result<Vec<CheckedDef>, AllocError>
    ensures { IfOk result (λ defs. map checked_definition_of defs.items ≡ plain.definitions_of (module_verdict_of verdict.now)) }
{
    match verdict.defs() {
        Ok(defs) => copy_defs(alloc, defs),
        Err(_) => Ok(Vec::new(alloc)),
    }
}

// The present module of the name.
fn present_module(
    alloc: Global,
    texts: &[(Name, SharedText)],
    readings: &[ReadText],
    verdicts: &[(Name, ModuleVerdict)],
    name: &Name,
) -> Result<EntryModule, AllocError>
    requires present { ArePresent texts.now }
    requires read { AreRead texts.now readings.now }
    requires count { length verdicts.now ≡ length texts.now }
    requires named { IsTrue (is_some (text_of texts.now name.now)) }
    ensures { IfOk result (λ one. ArePresentModules texts.now verdicts.now (one ∷ []) (name.now ∷ [])) }
{
    match place_of_text(texts, name) {
        Some(at) => {
            let imports = imports_in(alloc, readings[at].imports())?;
            let defs = definitions_in(alloc, &verdicts[at].1)?;
            let name = name.clone()?;
            Ok(EntryModule {
                name,
                imports,
                defs,
            })
        }
        None => unreachable!(),
    }
}

// Whether the module is the first one, or one that it reaches.
fn is_reached(graph: &ImportGraph, from: &Name, name: &Name) -> bool
    ensures { result ≡ is_reached graph.now from.now name.now }
{
    *from == *name || graph.reaches(from, name)
}

// Puts the module behind the others.
fn add(modules: &mut Vec<EntryModule>, one: EntryModule) -> Result<(), AllocError>
    ensures { OnOk result (modules.new.items ≡ modules.old.items ++ one ∷ []) }
{
    Ok(modules.push(one)?)
}

// Puts the present module behind the others, if the first one reaches it.
fn add_reached(
    alloc: Global,
    texts: &[(Name, SharedText)],
    readings: &[ReadText],
    verdicts: &[(Name, ModuleVerdict)],
    graph: &ImportGraph,
    from: &Name,
    name: &Name,
    modules: &mut Vec<EntryModule>,
) -> Result<(), AllocError>
    requires present { ArePresent texts.now }
    requires read { AreRead texts.now readings.now }
    requires count { length verdicts.now ≡ length texts.now }
    requires named { IsTrue (is_some (text_of texts.now name.now)) }
    ensures { OnOk result (AddsPresent texts.now verdicts.now (if is_reached graph.now from.now name.now then name.now ∷ [] else []) modules.old.items modules.new.items) }
{
    if is_reached(graph, from, name) {
        let one = present_module(alloc, texts, readings, verdicts, name)?;
        add(&mut *modules, one)?;
    }
    Ok(())
}

// Of the present modules of the names, in order, the first one and those that it reaches.
fn reached_modules(
    alloc: Global,
    texts: &[(Name, SharedText)],
    readings: &[ReadText],
    verdicts: &[(Name, ModuleVerdict)],
    graph: &ImportGraph,
    from: &Name,
    names: &[Name],
) -> Result<Vec<EntryModule>, AllocError>
    requires present { ArePresent texts.now }
    requires read { AreRead texts.now readings.now }
    requires count { length verdicts.now ≡ length texts.now }
    requires named { AllByRecursion (λ name. IsTrue (is_some (text_of texts.now name))) names.now }
    ensures { IfOk result (λ modules. ArePresentModules texts.now verdicts.now modules.items (filter (is_reached graph.now from.now) names.now)) }
{
    let mut modules = Vec::new(alloc);
    for name in names {
        add_reached(
            alloc,
            texts,
            readings,
            verdicts,
            graph,
            from,
            name,
            &mut modules,
        )?;
    }
    Ok(modules)
}

/// The present module and all that it reaches, in order, where these are the verdicts. Fails only for want of memory.
pub(crate) fn entry_modules(
    alloc: Global,
    texts: &[(Name, SharedText)],
    last: &Last,
    verdicts: &[(Name, ModuleVerdict)],
    from: &Name,
) -> Result<Vec<EntryModule>, AllocError>
    requires present { ArePresent texts.now }
    requires names { IsStrictlySortedBy compare_names (keys_of last.now.verdicts.items) }
    requires count { length verdicts.now ≡ length texts.now }
    ensures { IfOk result (λ modules. AreReachedModules texts.now verdicts.now from.now modules.items) }
{
    let readings = read_texts(alloc, texts, last)?;
    let known = graph_again(alloc, texts, readings.as_slice(), last)?;
    let names = known.graph.order(alloc)?;
    reached_modules(
        alloc,
        texts,
        readings.as_slice(),
        verdicts,
        &known.graph,
        from,
        names.as_slice(),
    )
}

// The number of the devices. One past 2^32 - 1 counts as want of memory.
fn count_devices(devices: &[DeviceDecl]) -> Result<u32, AllocError>
    ensures { IfOk result (λ count. count ≡ length devices.now) }
{
    match u32::try_from(devices.len()) {
        Ok(count) => Ok(count),
        Err(_) => Err(AllocError),
    }
}

/// The entry of the definition, which takes a unit, of the present module, where these are the verdicts.
///
/// Fails only for want of memory, as which more than 2^32 - 1 devices count.
pub(crate) fn make_entry(
    alloc: Global,
    devices: &[DeviceDecl],
    texts: &[(Name, SharedText)],
    last: &Last,
    verdicts: &[(Name, ModuleVerdict)],
    module: &Name,
    def: &Name,
    started: &CheckedDef,
) -> Result<Entry, AllocError>
    requires differ { NamesOfDevicesDiffer devices.now }
    requires present { ArePresent texts.now }
    requires names { IsStrictlySortedBy compare_names (keys_of last.now.verdicts.items) }
    requires current { HaveCurrentVerdicts devices.now texts.now verdicts.now }
    requires starts { IsStarted devices.now texts.now «module».now def.now (checked_definition_of started.now) }
    ensures { IfOk result (λ entry. IsCurrentEntry devices.now texts.now «module».now def.now (checked_definition_of started.now) (entry_of entry)) }
{
    let modules = entry_modules(alloc, texts, last, verdicts, module)?;
    let shapes = shapes_of_devices(alloc, devices)?;
    let count = count_devices(devices)?;
    let authority = authority_of(alloc, count, &started.checked.sig.set)?;
    let module = module.clone()?;
    let def = def.clone()?;
    Ok(Entry::new(shapes, modules, module, def, authority))
}

/// The entry of the definition of the present module, where these are the verdicts. Refused with `E35` where the
/// definition does not take a unit.
pub(crate) fn start_entry(
    alloc: Global,
    devices: &[DeviceDecl],
    texts: &[(Name, SharedText)],
    last: &Last,
    verdicts: &[(Name, ModuleVerdict)],
    module: &Name,
    def: &Name,
    found: &CheckedDef,
) -> Result<Entry, EntryError>
    requires differ { NamesOfDevicesDiffer devices.now }
    requires present { ArePresent texts.now }
    requires names { IsStrictlySortedBy compare_names (keys_of last.now.verdicts.items) }
    requires current { HaveCurrentVerdicts devices.now texts.now verdicts.now }
    requires found { IsDefinitionOf devices.now texts.now «module».now def.now (checked_definition_of found.now) }
    ensures { AnswersEntry devices.now texts.now «module».now def.now result }
{
    if !takes_unit(&found.checked.sig.shape) {
        return Err(EntryError::Refused(Refused { code: Code::E35 }));
    }
    match make_entry(alloc, devices, texts, last, verdicts, module, def, found) {
        Ok(entry) => Ok(entry),
        Err(AllocError) => Err(EntryError::NoMemory),
    }
}
