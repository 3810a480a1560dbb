//! What is found for the imports of a module.

ghost use Rattle.std.specs.Prelude.{◌≡◌, ◌<◌, ℕ, map, option_map, Some, IfOk, length, slice_get};
ghost use Rattle.std.specs.Map.{keys_of};
ghost use Rattle.cc_verdicts.specs.ModuleVerdicts.{Finding};
ghost use Rattle.cc_verdicts.specs.PresentTexts as plain;
ghost use Rattle.cc_verdicts.specs.PresentTexts.{ArePresent, graph_of};
ghost use Rattle.cc_module.specs.Findings.{finding_of};
ghost use Rattle.cc_module.specs.Judgements.{checked_definition_of, module_verdict_of};
ghost use Rattle.cc_parse.specs.Trees.{import_syntax};
ghost use Rattle.cc_judge.specs.Found.{IsFoundIn, IsSource, IsFoundFor, AreFoundFor};

use crate::grounds::SharedText;
use crate::last::Last;
use crate::names::place_of_text;
use crate::plans::{Plan, plan_verdict};
use cc_base::literal::Import;
use cc_base::name::Name;
use cc_graph::imports::ImportGraph;
use cc_module::finding::Finding;
use cc_module::judgement::{CheckedDef, ModuleVerdict};
use std::alloc::{AllocError, Global};

/// The definition of the name, if there is one.
pub fn definition_named<'a>(defs: &'a [CheckedDef], name: &Name) -> Option<&'a CheckedDef>
    ensures { option_map (λ d. checked_definition_of d.now) result ≡ plain.definition_named name.now (map checked_definition_of defs.now) }
{
    for def in defs {
        if def.name == *name {
            return Some(def);
        }
    }
    None
}

// What is found where the definition is this one, if there is one.
fn found_or_none(def: Option<&CheckedDef>) -> Result<Finding, AllocError>
    ensures { IfOk result (λ f. finding_of f ≡ plain.found_or_none (option_map (λ d. checked_definition_of d.now) def.entry)) }
{
    match def {
        Some(def) => {
            let signature = def.checked.sig.clone()?;
            Ok(Finding::Found(signature))
        }
        None => Ok(Finding::NoDef),
    }
}

// What is found in a module with this verdict.
fn finding_in(verdict: &ModuleVerdict, def: &Name) -> Result<Finding, AllocError>
    ensures { IfOk result (λ f. finding_of f ≡ plain.finding_in (module_verdict_of verdict.now) def.now) }
{
    match verdict.definition(def) {
        Ok(found) => found_or_none(found),
        Err(_) => Ok(Finding::RefusedModule),
    }
}

// What is found in a module by its plan.
fn finding_by(plan: &Option<Plan>, last: &Last, def: &Name) -> Result<Finding, AllocError>
    ensures { IfOk result (λ f. IsFoundIn last.now.verdicts.items plan.now def.now (finding_of f)) }
{
    match plan {
        Some(plan) => match plan_verdict(plan, last) {
            Some(verdict) => finding_in(verdict, def),
            None => Ok(Finding::NoDef),
        },
        None => Ok(Finding::NoDef),
    }
}

/// Where the module stands that is imported from.
#[derive(Clone, Copy)]
pub(crate) enum Source {
    /// It is not present.
    Absent,
    /// It is present, and reaches back.
    Cycle,
    /// It is present at this place, and does not reach back.
    At(usize),
}

/// Where the module stands that the module of the name imports from.
pub(crate) fn source_of(
    texts: &[(Name, SharedText)],
    graph: &ImportGraph,
    name: &Name,
    source: &Name,
) -> Source
    requires present { ArePresent texts.now }
    requires graph { graph.now ≡ graph_of texts.now }
    ensures { IsSource texts.now name.now source.now result }
{
    match place_of_text(texts, source) {
        Some(at) => {
            if graph.reaches(source, name) {
                Source::Cycle
            } else {
                Source::At(at)
            }
        }
        None => Source::Absent,
    }
}

/// The same, where it is known of one module already, which may be this one.
pub(crate) fn source_again(
    texts: &[(Name, SharedText)],
    graph: &ImportGraph,
    name: &Name,
    known: &Name,
    found: Source,
    source: &Name,
) -> Source
    requires present { ArePresent texts.now }
    requires graph { graph.now ≡ graph_of texts.now }
    requires known { IsSource texts.now name.now known.now found }
    ensures { IsSource texts.now name.now source.now result }
{
    if *known == *source {
        found
    } else {
        source_of(texts, graph, name, source)
    }
}

// What is found for an import of the module of the name, where it is known where the module stands that it imports from.
fn finding(
    texts: &[(Name, SharedText)],
    last: &Last,
    plans: &[Option<Plan>],
    name: &Name,
    source: Source,
    import: &Import,
) -> Result<Finding, AllocError>
    requires present { ArePresent texts.now }
    requires count { length plans.now ≡ length texts.now }
    requires source { IsSource texts.now name.now import.now.module source }
    ensures { IfOk result (λ f. IsFoundFor texts.now last.now.verdicts.items plans.now name.now (import_syntax import.now) (finding_of f)) }
{
    match source {
        Source::Absent => Ok(Finding::Unknown),
        Source::Cycle => Ok(Finding::Cycle),
        Source::At(at) => finding_by(&plans[at], last, &import.def),
    }
}

/// What is found for the imports of the module of the name.
///
/// Fails only for want of memory.
pub(crate) fn findings(
    alloc: Global,
    texts: &[(Name, SharedText)],
    graph: &ImportGraph,
    last: &Last,
    plans: &[Option<Plan>],
    name: &Name,
    imports: &[Import],
) -> Result<Vec<Finding>, AllocError>
    requires present { ArePresent texts.now }
    requires graph { graph.now ≡ graph_of texts.now }
    requires count { length plans.now ≡ length texts.now }
    ensures { IfOk result (λ found. AreFoundFor texts.now last.now.verdicts.items plans.now name.now (map import_syntax imports.now) (map finding_of found.items)) }
{
    let mut found = Vec::with_capacity(alloc, imports.len())?;
    let Some(first) = imports.first() else {
        return Ok(found);
    };
    let mut known = &first.module;
    let mut source = source_of(texts, graph, name, known);
    for import in imports {
        source = source_again(texts, graph, name, known, source, &import.module);
        known = &import.module;
        let one = finding(texts, last, plans, name, source, import)?;
        found.push(one)?;
    }
    Ok(found)
}
