//! Why an import finds no definition.

ghost use Rattle.std.specs.Prelude.{◌≡◌, ◌↔◌, ℕ, List, true, length, map, None, IfOk, IsTrue};
ghost use Rattle.std.specs.List.{list_all};
ghost use Rattle.cc_graph.specs.Graph.{is_present};
ghost use Rattle.cc_grammar.specs.Syntax.{ImportSyntax};
ghost use Rattle.cc_judge.specs.Judgements.{judgements};
ghost use Rattle.cc_module.specs.Findings.{finding_of};
ghost use Rattle.cc_parse.specs.Trees.{import_syntax};
ghost use Rattle.cc_verdicts.specs.ModuleVerdicts.{ModuleVerdict, first_missing};
ghost use Rattle.cc_verdicts.specs.PresentTexts.{ArePresent, graph_of, finding_for};
ghost use Rattle.cc_why.specs.ToldReasons as plain;
ghost use Rattle.cc_why.specs.ToldReasons.{TellsImports};

use crate::why::ReasonLines;
use cc_base::literal::Import;
use cc_base::name::Name;
use cc_import_reasoning::lines::import_lines;
use cc_import_reasoning::reason::import_reason;
use cc_judge::known_graph::modules_of;
use cc_module::finding::Finding;
use cc_session::session::Session;
use std::alloc::{AllocError, Global};

// Whether a definition is found.
fn is_found(finding: &Finding) -> bool
    ensures { result ≡ plain.is_found (finding_of finding.now) }
{
    match finding {
        Finding::Found(_) => true,
        Finding::Unknown | Finding::Cycle | Finding::RefusedModule | Finding::NoDef => false,
    }
}

// Whether a definition is found each time.
fn all_found(findings: &[Finding]) -> bool
    ensures { result ≡ list_all (λ one. plain.is_found (finding_of one)) findings.now }
{
    findings.iter().all(|one| is_found(one))
}

/// Whether each import finds a definition, where this is found for them. It takes no memory.
pub(crate) fn are_found(findings: &[Finding]) -> bool
    ensures { (imports : List ImportSyntax) → length imports ≡ length findings.now
        → (result ≡ true) ↔ (first_missing imports (map finding_of findings.now) ≡ None) }
{
    all_found(findings)
}

/// The lines of the reason for which the first import of the module that finds no definition finds none, if there is one. These
/// are the imports of the module, and what was found for them. Fails only for want of memory.
pub(crate) fn missing_lines(
    alloc: Global,
    session: &Session,
    name: &Name,
    imports: &[Import],
    findings: &[Finding],
) -> Result<Option<ReasonLines>, AllocError>
    requires checked { IsTrue session.now.checked }
    requires present { ArePresent session.now.present }
    requires count { length findings.now ≡ length imports.now }
    ensures { IfOk result (λ told. (all : List ℕ → ModuleVerdict) → session.now.last ≡ judgements session.now.present all
        → IsTrue (is_present (graph_of session.now.present) name.now)
        → map finding_of findings.now ≡ map (finding_for session.now.present all name.now) (map import_syntax imports.now)
        → TellsImports session.now.present all name.now (map import_syntax imports.now) told) }
{
    let readings = session.readings()?;
    let modules = modules_of(alloc, session.present(), &readings)?;
    match import_reason(alloc, &modules, session.verdicts(), name, imports, findings)? {
        Some(missing) => match imports.get(missing.import) {
            Some(import) => {
                let lines = import_lines(alloc, &modules, name, import, &missing.cause)?;
                Ok(Some(ReasonLines::Words(lines)))
            }
            None => Ok(None),
        },
        None => Ok(None),
    }
}
