//! Whether what was found for the imports of a module is found for them still, since the modules that they are imported from
//! keep their verdicts. It need not be found once more then.

ghost use Rattle.std.specs.Prelude.{◌≡◌, ℕ, List, [], length, map, option_map, IsTrue, IfSome};
ghost use Rattle.std.specs.Option.{unwrap_or};
ghost use Rattle.cc_parse.specs.Trees.{import_syntax, imports_syntax};
ghost use Rattle.cc_verdicts.specs.ModuleVerdicts.{ModuleVerdict};
ghost use Rattle.cc_verdicts.specs.PresentTexts.{ArePresent, AreVerdicts, finding_for, findings_for, graph_of};
ghost use Rattle.cc_module.specs.Findings.{finding_of};
ghost use Rattle.cc_judge.specs.Dependencies.{IsJudgedBefore};
ghost use Rattle.cc_judge.specs.Found.{IsSource};
ghost use Rattle.cc_judge.specs.Kept.{judgements_of, IsKept};
ghost use Rattle.cc_judge.specs.Plans.{ArePlans, IsJudgedAt};
ghost use Rattle.cc_judge.specs.Settled.{IsFoundLast, AreFoundLast};

use crate::findings::{Source, source_again, source_of};
use crate::grounds::SharedText;
use crate::last::Last;
use crate::plans::Plan;
use crate::reading::ReadText;
use crate::same::is_found;
use crate::staying::keeps;
use cc_base::device::DeviceDecl;
use cc_base::literal::Import;
use cc_base::name::Name;
use cc_graph::imports::ImportGraph;
use cc_module::finding::Finding;

// Whether a definition was found for the import of the module of the name, and is found for it still, since its module keeps
// its verdict.
fn is_found_again(
    devices: &[DeviceDecl],
    texts: &[(Name, SharedText)],
    last: &Last,
    plans: &[Option<Plan>],
    name: &Name,
    source: Source,
    import: &Import,
    old: &Finding,
) -> bool
    requires present { ArePresent texts.now }
    requires kept { IsKept devices.now last.now }
    requires plans { ArePlans devices.now texts.now (judgements_of last.now) plans.now }
    requires count { length plans.now ≡ length texts.now }
    requires source { IsSource texts.now name.now import.now.module source }
    requires old { IsFoundLast (judgements_of last.now) (import_syntax import.now) (finding_of old.now) }
    ensures { IsTrue result → (verdicts : List ℕ → ModuleVerdict) → AreVerdicts devices.now texts.now verdicts → finding_of old.now ≡ finding_for texts.now verdicts name.now (import_syntax import.now) }
{
    match source {
        Source::At(at) => {
            if is_found(old) {
                keeps(&plans[at])
            } else {
                false
            }
        }
        Source::Absent => false,
        Source::Cycle => false,
    }
}

// Whether definitions were found for all imports of the module of the name, and are found for them still, since their modules
// keep their verdicts.
fn are_found_again(
    devices: &[DeviceDecl],
    texts: &[(Name, SharedText)],
    graph: &ImportGraph,
    last: &Last,
    plans: &[Option<Plan>],
    name: &Name,
    imports: &[Import],
    old: &[Finding],
) -> bool
    requires present { ArePresent texts.now }
    requires graph { graph.now ≡ graph_of texts.now }
    requires kept { IsKept devices.now last.now }
    requires plans { ArePlans devices.now texts.now (judgements_of last.now) plans.now }
    requires count { length plans.now ≡ length texts.now }
    requires old { AreFoundLast (judgements_of last.now) (map import_syntax imports.now) (map finding_of old.now) }
    ensures { IsTrue result → (verdicts : List ℕ → ModuleVerdict) → AreVerdicts devices.now texts.now verdicts → map finding_of old.now ≡ map (finding_for texts.now verdicts name.now) (map import_syntax imports.now) }
{
    if old.len() != imports.len() {
        return false;
    }
    let Some(first) = imports.first() else {
        return true;
    };
    let mut known = &first.module;
    let mut source = source_of(texts, graph, name, known);
    for at in 0..imports.len() {
        let import = &imports[at];
        source = source_again(texts, graph, name, known, source, &import.module);
        known = &import.module;
        let again = is_found_again(devices, texts, last, plans, name, source, import, &old[at]);
        if !again {
            return false;
        }
    }
    true
}

/// The place of the last judgement of the module with its text, if definitions were found for all its imports then, and are
/// found for them still, since their modules keep their verdicts.
pub(crate) fn place_that_stays(
    devices: &[DeviceDecl],
    texts: &[(Name, SharedText)],
    graph: &ImportGraph,
    last: &Last,
    plans: &[Option<Plan>],
    name: &Name,
    text: &ReadText,
    judged: Option<usize>,
) -> Option<usize>
    requires present { ArePresent texts.now }
    requires graph { graph.now ≡ graph_of texts.now }
    requires kept { IsKept devices.now last.now }
    requires plans { ArePlans devices.now texts.now (judgements_of last.now) plans.now }
    requires count { length plans.now ≡ length texts.now }
    requires judged { IsJudgedBefore (judgements_of last.now) name.now text.now judged }
    ensures { IfSome result (λ at. (verdicts : List ℕ → ModuleVerdict) → AreVerdicts devices.now texts.now verdicts → IsJudgedAt (judgements_of last.now) name.now text.now (findings_for texts.now verdicts name.now text.now) at) }
{
    match judged {
        Some(at) => match last.grounds.get(at) {
            Some(grounds) => match text.imports() {
                Some(imports) => {
                    let old = grounds.findings.as_slice();
                    let again = are_found_again(
                        devices,
                        texts,
                        graph,
                        last,
                        plans,
                        name,
                        imports.as_slice(),
                        old,
                    );
                    if again { Some(at) } else { None }
                }
                None => None,
            },
            None => None,
        },
        None => None,
    }
}
