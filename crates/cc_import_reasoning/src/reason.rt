//! Why an import finds no definition.

ghost use Rattle.std.specs.Prelude.{◌≡◌, ◌<◌, ℕ, List, length, map, IfOk, IsTrue};
ghost use Rattle.std.specs.List.Sorted.{IsStrictlySortedBy};
ghost use Rattle.std.specs.Map.{keys_of};
ghost use Rattle.cc_base.specs.Names.{compare_names};
ghost use Rattle.cc_graph.specs.Graph.{IsImportMap, is_present, reaches};
ghost use Rattle.cc_judge.specs.Kept.{named_verdicts};
ghost use Rattle.cc_judge.specs.KnownGraphs.{entries_of};
ghost use Rattle.cc_module.specs.Findings.{finding_of};
ghost use Rattle.cc_parse.specs.Trees.{import_syntax};
ghost use Rattle.cc_verdicts.specs.ModuleVerdicts as judged;
ghost use Rattle.cc_verdicts.specs.PresentTexts.{Texts, finding_for};
ghost use Rattle.cc_import_reasoning.specs.Circles.{FindsCircle};
ghost use Rattle.cc_import_reasoning.specs.ToldImports.{AreOfTexts, TellsRefusal, TellsOne, TellsFirst};

use crate::circle::shortest;
use crate::places::place_of;
use cc_base::code::Diag;
use cc_base::literal::Import;
use cc_base::name::Name;
use cc_judge::importing::Importing;
use cc_judge::names::place_of_verdict;
use cc_module::finding::Finding;
use cc_module::judgement::ModuleVerdict;
use std::alloc::{AllocError, Global};

/// Why an import finds no definition.
#[derive(Drop)]
pub enum ImportCause {
    /// No module of the name is present.
    NoModule,
    /// The module has no definition of the name.
    NoDefinition,
    /// The module is refused, with this code at this place.
    RefusedModule(Diag),
    /// Imports lead in a circle: the places of its modules behind the importing one, up to that.
    InCircle(Vec<usize>),
}

/// An import that finds no definition, by its place among the imports, and why.
#[derive(Drop)]
pub struct MissingImport {
    pub import: usize,
    pub cause: ImportCause,
}

/// The refusal of the module, if it is present and refused. The verdicts are those of all present texts, in order. It takes no
/// memory.
pub fn refusal(verdicts: &[(Name, ModuleVerdict)], source: &Name) -> Option<Diag>
    requires { IsStrictlySortedBy compare_names (keys_of verdicts.now) }
    ensures { (texts : Texts) (all : List ℕ → judged.ModuleVerdict) → named_verdicts verdicts.now ≡ map (λ one. (one.0, all one.0)) texts → TellsRefusal texts all source.now result }
{
    match place_of_verdict(verdicts, source) {
        Some(at) => match verdicts.get(at) {
            Some(entry) => match entry.1.defs() {
                Ok(_) => None,
                Err(diag) => Some(diag),
            },
            None => None,
        },
        None => None,
    }
}

// The first of the shortest circles from the module through the one that it imports from, behind the module.
fn circle(
    alloc: Global,
    modules: &[Importing],
    name: &Name,
    source: &Name,
) -> Result<Option<Vec<usize>>, AllocError>
    requires { IsImportMap (entries_of modules.now) }
    ensures { IfOk result (λ found. FindsCircle (entries_of modules.now) name.now source.now found) }
{
    let Some(end) = place_of(modules, name) else {
        return Ok(None);
    };
    let Some(from) = place_of(modules, source) else {
        return Ok(None);
    };
    shortest(alloc, modules, from, end)
}

// Why the import of the module of the name finds no definition, where this is found for it; none where it finds one.
fn cause(
    alloc: Global,
    modules: &[Importing],
    verdicts: &[(Name, ModuleVerdict)],
    name: &Name,
    import: &Import,
    finding: &Finding,
) -> Result<Option<ImportCause>, AllocError>
    requires ordered { IsImportMap (entries_of modules.now) }
    requires names { IsStrictlySortedBy compare_names (keys_of verdicts.now) }
    ensures { IfOk result (λ told. (texts : Texts) (all : List ℕ → judged.ModuleVerdict) → AreOfTexts texts all (entries_of modules.now) (named_verdicts verdicts.now) → IsTrue (is_present (entries_of modules.now) name.now) → finding_of finding.now ≡ finding_for texts all name.now (import_syntax import.now) → TellsOne texts all (entries_of modules.now) name.now (import_syntax import.now) told) }
{
    match finding {
        Finding::Found(_) => Ok(None),
        Finding::Unknown => Ok(Some(ImportCause::NoModule)),
        Finding::NoDef => Ok(Some(ImportCause::NoDefinition)),
        Finding::RefusedModule => match refusal(verdicts, &import.module) {
            Some(diag) => Ok(Some(ImportCause::RefusedModule(diag))),
            None => Ok(None),
        },
        Finding::Cycle => match circle(alloc, modules, name, &import.module)? {
            Some(places) => Ok(Some(ImportCause::InCircle(places))),
            None => Ok(None),
        },
    }
}

/// The first import of the module of the name that finds no definition, and why; none where each finds one. The modules are
/// the present ones with what they import from, the verdicts those of all present texts, and the findings those for the
/// imports, each in order.
///
/// Fails only for want of memory.
pub fn import_reason(
    alloc: Global,
    modules: &[Importing],
    verdicts: &[(Name, ModuleVerdict)],
    name: &Name,
    imports: &[Import],
    findings: &[Finding],
) -> Result<Option<MissingImport>, AllocError>
    requires ordered { IsImportMap (entries_of modules.now) }
    requires names { IsStrictlySortedBy compare_names (keys_of verdicts.now) }
    requires count { length findings.now ≡ length imports.now }
    ensures { IfOk result (λ told. (texts : Texts) (all : List ℕ → judged.ModuleVerdict) → AreOfTexts texts all (entries_of modules.now) (named_verdicts verdicts.now) → IsTrue (is_present (entries_of modules.now) name.now) → map finding_of findings.now ≡ map (finding_for texts all name.now) (map import_syntax imports.now) → TellsFirst texts all (entries_of modules.now) name.now (map import_syntax imports.now) told) }
{
    for at in 0..findings.len() {
        let told = cause(alloc, modules, verdicts, name, &imports[at], &findings[at])?;
        if let Some(cause) = told {
            return Ok(Some(MissingImport { import: at, cause }));
        }
    }
    Ok(None)
}
