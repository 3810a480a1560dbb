//! What the present texts import, where that leads, and an order in which they can be judged.

ghost use Rattle.std.specs.Prelude.{◌≡◌, ◌+◌, ◌-◌, ◌^◌, ℕ, min, List, [], map, option_map, slice_get, Some, IfOk, OnOk, MatchOption};
ghost use Rattle.std.specs.BTreeMap.{insert_entry};
ghost use Rattle.std.specs.List.Sorted.{IsStrictlySortedBy};
ghost use Rattle.std.specs.Map.{keys_of};
ghost use Rattle.cc_base.specs.Names.{compare_names};
ghost use Rattle.cc_verdicts.specs.PresentTexts.{ArePresent, graph_of};
ghost use Rattle.cc_parse.specs.Trees.{import_syntax, imports_syntax};
ghost use Rattle.cc_judge.specs.Dependencies.{sources_of, inserted, readings_of, AreRead, with_unread, ListsUnread, PushesPlace, PushesNamed, IsSchedule, AreJudgedBefore, IsJudgedBefore, AreDependencies};
ghost use Rattle.cc_judge.specs.Kept.{judgements_of};
ghost use Rattle.cc_judge.specs.Places.{IsAbsentKey};

use crate::grounds::SharedText;
use crate::importing::KnownGraph;
use crate::known_graph::graph_again;
use crate::last::Last;
use crate::names::{place_near, place_of_text};
use crate::reading::ReadText;
use cc_base::literal::Import;
use cc_base::name::Name;
use cc_graph::imports::{ImportGraph, Imports};
use std::alloc::{AllocError, Global};
use std::rc::Rc;

/// The present texts as they were read, with their imports, and where each was judged last; the import graph; and the
/// places of all texts in an order in which they can be judged.
#[derive(Drop)]
pub struct Dependencies {
    pub readings: Vec<ReadText>,
    /// For each text the place of the last judgement of the module with this text, if there is one.
    pub judged: Vec<Option<usize>>,
    pub graph: Rc<KnownGraph>,
    pub schedule: Vec<usize>,
}

// The texts as they were read, and where each was judged last.
#[derive(Drop)]
struct Readings {
    readings: Vec<ReadText>,
    judged: Vec<Option<usize>>,
}

// The place of the last judgement, which is that of the module, if it is one with the text.
fn judged_with(last: &Last, found: Option<usize>, text: &SharedText) -> Option<usize>
    requires { IsStrictlySortedBy compare_names (keys_of last.now.verdicts.items) }
    ensures { (name : List ℕ) → MatchOption found (IsAbsentKey (keys_of last.now.verdicts.items) name) (λ at. slice_get (keys_of last.now.verdicts.items) at ≡ Some name) → IsJudgedBefore (judgements_of last.now) name text.now result }
{
    match found {
        Some(at) => match last.grounds.get(at) {
            Some(grounds) => {
                if grounds.text.is_of(text) {
                    found
                } else {
                    None
                }
            }
            None => None,
        },
        None => None,
    }
}

// The text, read: as it was read before, where it was judged last.
fn read_text(
    alloc: Global,
    last: &Last,
    judged: Option<usize>,
    text: &SharedText,
) -> Result<ReadText, AllocError>
    requires { (name : List ℕ) × IsJudgedBefore (judgements_of last.now) name text.now judged }
    ensures { IfOk result (λ read. read ≡ text.now) }
{
    match judged {
        Some(at) => match last.grounds.get(at) {
            Some(grounds) => grounds.text.share(),
            None => ReadText::read(alloc, text),
        },
        None => ReadText::read(alloc, text),
    }
}

// Where a verdict is sought next, when the last one was found there, or sought there.
fn next_to(found: Option<usize>, near: usize) -> usize
    ensures { MatchOption found (result ≡ near) (λ at. result ≡ min (at + 1) (2 ^ 64 - 1)) }
{
    match found {
        Some(at) => at.saturating_add(1),
        None => near,
    }
}

// The texts, read. Names stand in order, so that the verdict of the next one mostly comes next.
fn read_present(
    alloc: Global,
    texts: &[(Name, SharedText)],
    last: &Last,
) -> Result<Readings, AllocError>
    requires { IsStrictlySortedBy compare_names (keys_of last.now.verdicts.items) }
    ensures read { IfOk result (λ r. AreRead texts.now r.readings.items) }
    ensures judged { IfOk result (λ r. AreJudgedBefore (judgements_of last.now) texts.now r.judged.items) }
{
    let mut readings = Vec::with_capacity(alloc, texts.len())?;
    let mut places = Vec::with_capacity(alloc, texts.len())?;
    let mut near = 0;
    for entry in texts {
        let found = place_near(last.verdicts.as_slice(), near, &entry.0);
        near = next_to(found, near);
        let judged = judged_with(last, found, &entry.1);
        let read = read_text(alloc, last, judged, &entry.1)?;
        readings.push(read)?;
        places.push(judged)?;
    }
    Ok(Readings {
        readings,
        judged: places,
    })
}

/// The texts, read. What was judged last is not read again.
///
/// Fails only for want of memory.
pub fn read_texts(
    alloc: Global,
    texts: &[(Name, SharedText)],
    last: &Last,
) -> Result<Vec<ReadText>, AllocError>
    requires { IsStrictlySortedBy compare_names (keys_of last.now.verdicts.items) }
    ensures { IfOk result (λ readings. AreRead texts.now readings.items) }
{
    let present = read_present(alloc, texts, last)?;
    let Readings {
        readings,
        judged: _,
    } = present;
    Ok(readings)
}

/// The names of the modules that are imported from, in order. Fails only for want of memory.
pub(crate) fn sources_of(alloc: Global, imports: &[Import]) -> Result<Vec<Name>, AllocError>
    ensures { IfOk result (λ names. names.items ≡ sources_of (map import_syntax imports.now)) }
{
    let mut names = Vec::with_capacity(alloc, imports.len())?;
    for import in imports {
        let name = import.module.clone()?;
        names.push(name)?;
    }
    Ok(names)
}

// Puts in the module with its imports.
fn insert_module(
    alloc: Global,
    graph: &mut Imports,
    name: &Name,
    imports: &[Import],
) -> Result<(), AllocError>
    ensures { OnOk result (graph.new ≡ insert_entry compare_names graph.old name.now (sources_of (map import_syntax imports.now))) }
{
    let sources = sources_of(alloc, imports)?;
    let key = name.clone()?;
    graph.insert(key, sources)
}

// Puts in the text, if it is a module.
fn insert_reading(
    alloc: Global,
    graph: &mut Imports,
    name: &Name,
    reading: &Option<Vec<Import>>,
) -> Result<(), AllocError>
    ensures { OnOk result (graph.new ≡ inserted name.now (option_map imports_syntax reading.now) graph.old) }
{
    match reading {
        Some(imports) => insert_module(alloc, &mut *graph, name, imports.as_slice()),
        None => Ok(()),
    }
}

/// The import graph of the texts, which were read.
///
/// Fails only for want of memory.
pub fn import_graph(
    alloc: Global,
    texts: &[(Name, SharedText)],
    readings: &[ReadText],
) -> Result<ImportGraph, AllocError>
    requires present { ArePresent texts.now }
    requires read { AreRead texts.now readings.now }
    ensures { IfOk result (λ graph. graph ≡ graph_of texts.now) }
{
    let mut graph = Imports::new(alloc);
    let mut left = texts.len();
    while left > 0 {
        left -= 1;
        insert_reading(alloc, &mut graph, &texts[left].0, readings[left].imports())?;
    }
    graph.close(alloc)
}

// Puts the place behind the others, if the text there is no module.
fn push_if_unread(
    places: &mut Vec<usize>,
    reading: &Option<Vec<Import>>,
    place: usize,
) -> Result<(), AllocError>
    ensures { OnOk result (places.new.items ≡ with_unread (option_map imports_syntax reading.now) place places.old.items) }
{
    match reading {
        Some(_) => Ok(()),
        None => Ok(places.push(place)?),
    }
}

// Puts the places of the texts that are no modules behind the others.
fn push_unread(places: &mut Vec<usize>, readings: &[ReadText]) -> Result<(), AllocError>
    requires { places.old.items ≡ [] }
    ensures { OnOk result (ListsUnread (readings_of readings.now) places.new.items) }
{
    for (place, reading) in readings.iter().enumerate() {
        push_if_unread(&mut *places, reading.imports(), place)?;
    }
    Ok(())
}

// Puts the place of the name behind the others.
fn push_place(
    places: &mut Vec<usize>,
    texts: &[(Name, SharedText)],
    name: &Name,
) -> Result<(), AllocError>
    requires { ArePresent texts.now }
    ensures { OnOk result (PushesPlace (keys_of texts.now) name.now places.old.items places.new.items) }
{
    match place_of_text(texts, name) {
        Some(place) => Ok(places.push(place)?),
        None => Ok(()),
    }
}

// Puts the places of the names behind the others.
fn push_named(
    places: &mut Vec<usize>,
    texts: &[(Name, SharedText)],
    names: &[Name],
) -> Result<(), AllocError>
    requires { ArePresent texts.now }
    ensures { OnOk result (PushesNamed (keys_of texts.now) names.now places.old.items places.new.items) }
{
    for name in names {
        push_place(&mut *places, texts, name)?;
    }
    Ok(())
}

// The places of all texts in an order in which they can be judged: those that are no modules, and then the modules in
// the order of the graph.
fn schedule(
    alloc: Global,
    texts: &[(Name, SharedText)],
    readings: &[ReadText],
    graph: &ImportGraph,
) -> Result<Vec<usize>, AllocError>
    requires present { ArePresent texts.now }
    requires read { AreRead texts.now readings.now }
    requires graph { graph.now ≡ graph_of texts.now }
    ensures { IfOk result (λ places. IsSchedule texts.now places.items) }
{
    let mut places = Vec::new(alloc);
    push_unread(&mut places, readings)?;
    let names = graph.order(alloc)?;
    push_named(&mut places, texts, names.as_slice())?;
    Ok(places)
}

/// What the texts import, where that leads, and an order in which they can be judged. What was judged last is not read
/// again.
///
/// Fails only for want of memory.
pub fn find_dependencies(
    alloc: Global,
    texts: &[(Name, SharedText)],
    last: &Last,
) -> Result<Dependencies, AllocError>
    requires present { ArePresent texts.now }
    requires names { IsStrictlySortedBy compare_names (keys_of last.now.verdicts.items) }
    ensures { IfOk result (AreDependencies (judgements_of last.now) texts.now) }
{
    let present = read_present(alloc, texts, last)?;
    let Readings { readings, judged } = present;
    let graph = graph_again(alloc, texts, readings.as_slice(), last)?;
    let schedule = schedule(alloc, texts, readings.as_slice(), &graph.graph)?;
    Ok(Dependencies {
        readings,
        judged,
        graph,
        schedule,
    })
}
