//! The import graph of the present texts, which is made again only where other modules are present, or import from others.

ghost use Rattle.std.specs.Prelude.{◌≡◌, ◌≢◌, ◌↔◌, ◌≤◌, ◌++◌, true, length, map, take, option_map, slice_get, Some, None, IfOk, OnOk, IfSome, IfNone};
ghost use Rattle.cc_graph.specs.Graph.{ImportMap};
ghost use Rattle.cc_verdicts.specs.PresentTexts.{ArePresent, graph_of, with_module};
ghost use Rattle.cc_parse.specs.Trees.{import_syntax, imports_syntax};
ghost use Rattle.cc_judge.specs.Dependencies.{sources_of, AreRead};
ghost use Rattle.cc_judge.specs.KnownGraphs.{entries_of};

use crate::dependencies::{import_graph, sources_of};
use crate::grounds::SharedText;
use crate::importing::{Importing, KnownGraph};
use crate::last::Last;
use crate::reading::ReadText;
use cc_base::literal::Import;
use cc_base::name::Name;
use std::alloc::{AllocError, Global};
use std::rc::Rc;

// Whether the imports are from the modules of these names.
fn are_from(imports: &[Import], sources: &[Name]) -> bool
    ensures { (result ≡ true) ↔ (sources.now ≡ sources_of (map import_syntax imports.now)) }
{
    if imports.len() != sources.len() {
        return false;
    }
    for at in 0..imports.len() {
        let same = imports[at].module == sources[at];
        if !same {
            return false;
        }
    }
    true
}

// Whether the module at the place has this name and these imports.
fn is_module(modules: &[Importing], at: usize, name: &Name, imports: &[Import]) -> bool
    ensures { (result ≡ true) ↔ (slice_get (entries_of modules.now) at ≡ Some (name.now, sources_of (map import_syntax imports.now))) }
{
    match modules.get(at) {
        Some(module) => module.name == *name && are_from(imports, module.sources.as_slice()),
        None => false,
    }
}

// The place behind the module of this name, if the text is that one, or no module. Without one the text is a module that
// does not stand there.
fn place_past(
    modules: &[Importing],
    at: usize,
    name: &Name,
    reading: &Option<Vec<Import>>,
) -> Option<usize>
    requires { at ≤ length modules.now }
    ensures within { IfSome result (λ next. next ≤ length modules.now) }
    ensures past { IfSome result (λ next. (rest : ImportMap) → take at (entries_of modules.now) ++ with_module name.now (option_map imports_syntax reading.now) rest ≡ take next (entries_of modules.now) ++ rest) }
    ensures other { IfNone result ((rest : ImportMap) → take at (entries_of modules.now) ++ with_module name.now (option_map imports_syntax reading.now) rest ≢ entries_of modules.now) }
{
    match reading {
        Some(imports) => {
            if at < modules.len() && is_module(modules, at, name, imports.as_slice()) {
                Some(at + 1)
            } else {
                None
            }
        }
        None => Some(at),
    }
}

// Whether the modules are those among the texts, with their imports.
fn are_modules(modules: &[Importing], texts: &[(Name, SharedText)], readings: &[ReadText]) -> bool
    requires { AreRead texts.now readings.now }
    ensures { (result ≡ true) ↔ (graph_of texts.now ≡ entries_of modules.now) }
{
    let mut at = 0;
    for place in 0..texts.len() {
        match place_past(modules, at, &texts[place].0, readings[place].imports()) {
            Some(next) => at = next,
            None => return false,
        }
    }
    at == modules.len()
}

// Puts the module behind the others, if the text is one.
fn push_module(
    alloc: Global,
    modules: &mut Vec<Importing>,
    name: &Name,
    reading: &Option<Vec<Import>>,
) -> Result<(), AllocError>
    ensures { OnOk result ((rest : ImportMap) → entries_of modules.old.items ++ with_module name.now (option_map imports_syntax reading.now) rest ≡ entries_of modules.new.items ++ rest) }
{
    match reading {
        Some(imports) => {
            let sources = sources_of(alloc, imports.as_slice())?;
            let name = name.clone()?;
            Ok(modules.push(Importing { name, sources })?)
        }
        None => Ok(()),
    }
}

/// The modules among the texts, which were read, with their imports.
///
/// Fails only for want of memory.
pub fn modules_of(
    alloc: Global,
    texts: &[(Name, SharedText)],
    readings: &[ReadText],
) -> Result<Vec<Importing>, AllocError>
    requires { AreRead texts.now readings.now }
    ensures { IfOk result (λ modules. graph_of texts.now ≡ entries_of modules.items) }
{
    let mut modules = Vec::with_capacity(alloc, texts.len())?;
    for place in 0..texts.len() {
        push_module(
            alloc,
            &mut modules,
            &texts[place].0,
            readings[place].imports(),
        )?;
    }
    Ok(modules)
}

// The import graph of the texts, made.
fn make(
    alloc: Global,
    texts: &[(Name, SharedText)],
    readings: &[ReadText],
) -> Result<Rc<KnownGraph>, AllocError>
    requires present { ArePresent texts.now }
    requires read { AreRead texts.now readings.now }
    ensures { IfOk result (λ known. known.value.graph ≡ graph_of texts.now) }
{
    let modules = modules_of(alloc, texts, readings)?;
    let graph = import_graph(alloc, texts, readings)?;
    Ok(Rc::new(alloc, KnownGraph { modules, graph })?)
}

// Whether the graph is that of the texts.
fn is_of(known: &KnownGraph, texts: &[(Name, SharedText)], readings: &[ReadText]) -> bool
    requires { AreRead texts.now readings.now }
    ensures { (result ≡ true) ↔ (known.now.graph ≡ graph_of texts.now) }
{
    are_modules(known.modules.as_slice(), texts, readings)
}

/// The import graph of the texts, which were read: the one of the last judgements, if it is theirs.
///
/// Fails only for want of memory.
pub fn graph_again(
    alloc: Global,
    texts: &[(Name, SharedText)],
    readings: &[ReadText],
    last: &Last,
) -> Result<Rc<KnownGraph>, AllocError>
    requires present { ArePresent texts.now }
    requires read { AreRead texts.now readings.now }
    ensures { IfOk result (λ known. known.value.graph ≡ graph_of texts.now) }
{
    match &last.graph {
        Some(graph) => {
            if is_of(graph, texts, readings) {
                Ok(graph.clone()?)
            } else {
                make(alloc, texts, readings)
            }
        }
        None => make(alloc, texts, readings),
    }
}
