//! Explaining the signatures of definitions.

ghost use Rattle.std.specs.Prelude.{◌≡◌, ◌++◌, ◌-◌, ◌^◌, ◌<◌, ◌&&◌, ℕ, false, List, map, length, Ok, IsTrue, IfOk, OnOk};
ghost use Rattle.std.specs.Option.{option_to_list};
ghost use Rattle.std.specs.Str.{bytes_eq};
ghost use Rattle.cc_capture.specs.Sets.{Set};
ghost use Rattle.cc_io.specs.Wholes.{WritesWhole, WriteAllCause};
ghost use Rattle.cc_mnf.specs.ElaboratedModules.{device_names};
ghost use Rattle.cc_policy.specs.declared.policy.Rule.{Rule};
ghost use Rattle.cc_session.specs.Modules.{module_of};
ghost use Rattle.cc_verdicts.specs.ModuleLaws.{NamesOfDevicesDiffer};
ghost use Rattle.cc_verdicts.specs.ModuleVerdicts.{ModuleVerdict};
ghost use Rattle.cc_verdicts.specs.PresentTexts.{ArePresent, AreVerdicts};
ghost use Rattle.cc_verdicts.specs.StandingDefinitions.{Standing, standing_in};
ghost use Rattle.cc_replies.specs.Explanations.{explanation_named, names_of};
ghost use Rattle.cc_replies.specs.Requests.{ExplainDefinition, Ask, holding_under};
ghost use Rattle.cc_replies.specs.ReplyTexts.{Explained as TellsExplained, reply_text};
ghost use Rattle.cc_answers.specs.Carried.{IsReplied};
ghost use Rattle.cc_answers.specs.Explaining as plain;
ghost use Rattle.cc_answers.specs.Explaining.{StandsAt, FindsChain, FindsAll, FindsLinked};
ghost use Rattle.cc_answers.specs.KeptEntries.{IsKeptFor};

use crate::explanation::Explained;
use crate::kept::{Kept, explained_for};
use crate::replies::told;
use cc_base::name::Name;
use cc_capture::{CapSet, Elem, Var};
use cc_explain::chain::chain;
use cc_explain::links::Links;
use cc_explain::target::Target;
use cc_io::{Sink, WriteAll};
use cc_link::module_links::links_of;
use cc_module::judgement::CheckedDef;
use cc_print::Names;
use cc_replies::chains::{DefinitionName, FoundChain};
use cc_replies::explanations::write_explanation;
use cc_session::modules::EntryModule;
use cc_session::session::Session;
use std::alloc::{AllocError, Global};

// Puts the names of a module's definitions behind the others, in order.
fn add_names<'a>(
    module: &'a Name,
    defs: &'a [CheckedDef],
    names: &mut Vec<DefinitionName<'a>>,
) -> Result<(), AllocError>
    ensures { OnOk result (map names_of names.new.items ≡ map names_of names.old.items ++ map (λ def. («module».now, def.name)) defs.now) }
{
    for def in defs {
        names.push(DefinitionName {
            module,
            def: &def.name,
        })?;
    }
    Ok(())
}

// The names of the definitions of modules, in order.
fn definition_names<'a>(
    alloc: Global,
    modules: &'a [EntryModule],
) -> Result<Vec<DefinitionName<'a>>, AllocError>
    ensures { IfOk result (λ names. map names_of names.items ≡ plain.definition_names (map module_of modules.now)) }
{
    let mut names = Vec::new(alloc);
    for module in modules {
        add_names(&module.name, module.defs.as_slice(), &mut names)?;
    }
    Ok(names)
}

// Whether the definition has these names.
fn is_named(it: &DefinitionName<'_>, module: &Name, def: &Name) -> bool
    ensures { result ≡ (bytes_eq it.now.module.now «module».now && bytes_eq it.now.def.now def.now) }
{
    *it.module == *module && *it.def == *def
}

// The place of the definition, if it is there.
fn place_of(definitions: &[DefinitionName<'_>], module: &Name, def: &Name) -> Option<usize>
    ensures { StandsAt (map names_of definitions.now) («module».now, def.now) result }
{
    for place in 0..definitions.len() {
        if is_named(&definitions[place], module, def) {
            return Some(place);
        }
    }
    None
}

// What a variable of a set over devices is.
fn variable_element(variable: Var) -> Option<Target>
    ensures { result ≡ plain.variable_element variable }
{
    match variable {
        Var::Free(position) => Some(Target::Device(position)),
        Var::Bound(_) => None,
    }
}

// What an element of a set over devices is.
fn element_target(elem: Elem) -> Option<Target>
    ensures { result ≡ plain.element_target elem }
{
    match elem {
        Elem::Var(variable) => variable_element(variable),
        Elem::Cap => Some(Target::Cap),
        Elem::Hole(_) => None,
    }
}

// A chain to the element, if one leads there.
fn find_chain(
    alloc: Global,
    links: &Links,
    from: u32,
    elem: Elem,
) -> Result<Option<FoundChain>, AllocError>
    requires { from < length links.now }
    ensures { IfOk result (λ found. FindsChain links.now from elem found) }
{
    match element_target(elem) {
        Some(target) => match chain(alloc, links, from, target)? {
            Some(chain) => Ok(Some(FoundChain { target, chain })),
            None => Ok(None),
        },
        None => Ok(None),
    }
}

// Puts the chain behind the others, if there is one.
fn push_found(all: &mut Vec<FoundChain>, found: Option<FoundChain>) -> Result<(), AllocError>
    ensures { OnOk result (all.new.items ≡ all.old.items ++ option_to_list found) }
{
    match found {
        Some(found) => Ok(all.push(found)?),
        None => Ok(()),
    }
}

// The chains to the elements of the set, in order.
fn find_chains(
    alloc: Global,
    links: &Links,
    from: u32,
    set: &CapSet,
) -> Result<Vec<FoundChain>, AllocError>
    requires { from < length links.now }
    ensures { IfOk result (λ found. FindsAll links.now from set.now.list found.items) }
{
    let mut all = Vec::new(alloc);
    for elem in set.iter() {
        let found = find_chain(alloc, links, from, elem)?;
        push_found(&mut all, found)?;
    }
    Ok(all)
}

/// A number of 32 bits. A greater one counts as want of memory.
pub fn narrow(number: usize) -> Result<u32, AllocError>
    ensures { IfOk result (λ narrow. narrow ≡ number) }
{
    match u32::try_from(number) {
        Ok(number) => Ok(number),
        Err(_) => Err(AllocError),
    }
}

/// The chains to the elements of the set from the definition, for which these modules are linked beside so many devices, in
/// order.
///
/// Fails only for want of memory, as which 2^32 - 1 definitions or more count.
pub fn chains_of(
    alloc: Global,
    devices: u32,
    modules: &[EntryModule],
    module: &Name,
    def: &Name,
    set: &CapSet,
) -> Result<Vec<FoundChain>, AllocError>
    ensures { IfOk result (λ found. FindsLinked devices (map module_of modules.now) «module».now def.now set.now.list found.items) }
{
    let links = links_of(alloc, devices, modules)?;
    let definitions = definition_names(alloc, modules)?;
    let place = match place_of(&definitions, module, def) {
        Some(place) => place,
        None => return Err(AllocError),
    };
    let from = narrow(place)?;
    if place >= links.count() {
        return Err(AllocError);
    }
    find_chains(alloc, &links, from, set)
}

// Writes the reply to a command that explains the definition, of which this is the explanation. The answer tells that this
// is no refusal.
fn tell_explained<K: Sink>(
    alloc: Global,
    names: &Names,
    module: &Name,
    def: &Name,
    it: &Explained,
    sink: &mut K,
) -> Result<bool, WriteAll>
    requires { K.faults sink.old < 2 ^ 64 - 1 }
    ensures written { WritesWhole (K.written sink.old) (K.written sink.new) result
        (reply_text names.now.names.items (TellsExplained «module».now def.now
        (map (explanation_named (plain.definition_names (map module_of it.now.modules.items))) it.now.found.items))) }
    ensures refused { IfOk result (λ refused. refused ≡ false) }
    ensures cause { WriteAllCause (K.faults sink.old) (K.faults sink.new) result }
{
    match definition_names(alloc, it.modules.as_slice()) {
        Ok(definitions) => told(
            write_explanation(
                alloc,
                sink,
                module,
                def,
                names,
                &definitions,
                it.found.as_slice(),
            ),
            false,
        ),
        Err(AllocError) => Err(WriteAll::NoMemory),
    }
}

/// Writes the reply to a command that explains the definition of an accepted module, which has this outermost set in its
/// signature: why each element is in it. An explanation that is kept serves where it is that of the definition and the set.
/// The answer tells that this is no refusal.
///
/// 2^32 - 1 definitions or more count as want of memory, for which nothing is written.
pub fn tell_explanation<K: Sink>(
    alloc: Global,
    names: &Names,
    session: &Session,
    kept: &mut Kept,
    module: &Name,
    def: &Name,
    set: &CapSet,
    sink: &mut K,
) -> Result<bool, WriteAll>
    requires count { K.faults sink.old < 2 ^ 64 - 1 }
    requires checked { IsTrue session.now.checked }
    requires differ { NamesOfDevicesDiffer session.now.devices }
    requires present { ArePresent session.now.present }
    requires kept { IsKeptFor session.now.devices session.now.present kept.old }
    requires names { names.now.names.items ≡ device_names session.now.devices }
    ensures replied { (rules : List Rule) (verdicts : List ℕ → ModuleVerdict) → AreVerdicts session.now.devices session.now.present verdicts
        → (it : Standing) → standing_in session.now.present verdicts «module».now def.now ≡ Ok it
        → set.now ≡ it.definition.accepted.signature.set
        → IsReplied session.now.devices (holding_under rules session.now.present) (Ask (ExplainDefinition «module».now def.now))
        (K.written sink.old) (K.written sink.new) result }
    ensures kept { IsKeptFor session.now.devices session.now.present kept.new }
    ensures cause { WriteAllCause (K.faults sink.old) (K.faults sink.new) result }
{
    match explained_for(alloc, session, kept, module, def, set) {
        Ok(it) => tell_explained(alloc, names, module, def, &it, sink),
        Err(AllocError) => Err(WriteAll::NoMemory),
    }
}
