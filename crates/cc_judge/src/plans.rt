//! What is to become of each present module: its last verdict stays, or it has a new one.

ghost use Rattle.std.specs.Prelude.{◌≡◌, ◌+◌, ◌≤◌, ℕ, List, [], map, IfOk, OnOk, MatchOption, IsTrue, option_map, if◌then◌else◌};
ghost use Rattle.std.specs.Option.{unwrap_or};
ghost use Rattle.cc_parse.specs.Trees.{imports_syntax};
ghost use Rattle.cc_module.specs.Findings.{finding_of};
ghost use Rattle.cc_module.specs.Judgements.{module_verdict_of};
ghost use Rattle.cc_verdicts.specs.ModuleLaws.{NamesOfDevicesDiffer, AreFit};
ghost use Rattle.cc_verdicts.specs.ModuleVerdicts as plain;
ghost use Rattle.cc_verdicts.specs.PresentTexts.{ArePresent, AreVerdicts, finding_for, findings_for};
ghost use Rattle.cc_judge.specs.Dependencies.{IsJudgedBefore};
ghost use Rattle.cc_judge.specs.Judgements.{Judgement, is_stale};
ghost use Rattle.cc_judge.specs.Kept.{judgements_of, IsKept};
ghost use Rattle.cc_judge.specs.Plans.{plan_verdict, ArePlans, IsPlanFor, IsJudgedAt};
ghost use Rattle.cc_judge.specs.SameFindings.{same_findings};
ghost use Rattle.cc_judge.specs.Settled.{AreFoundLast, AreStillFound};

use crate::grounds::{Findings, Grounds, SharedText};
use crate::last::Last;
use crate::reading::ReadText;
use crate::same::same_findings;
use crate::staying::all_stay;
use cc_base::device::DeviceDecl;
use cc_base::literal::Import;
use cc_base::name::Name;
use cc_base::steps::Steps;
use cc_module::finding::Finding;
use cc_module::judgement::ModuleVerdict;
use cc_names::names::Names;
use std::alloc::{AllocError, Global};
use std::sync::ledger::Ledger;

/// What is to become of a module.
#[derive(Drop)]
pub enum Plan {
    /// The verdict at this place among the last ones stays.
    Keep(usize),
    /// It has this name, verdict and grounds.
    Judge(Name, ModuleVerdict, Grounds),
}

/// The verdict that a module has by its plan.
pub(crate) fn plan_verdict<'a>(plan: &'a Plan, last: &'a Last) -> Option<&'a ModuleVerdict>
    ensures { option_map (λ v. module_verdict_of v.now) result ≡ plan_verdict last.now.verdicts.items plan.now }
{
    match plan {
        Plan::Keep(at) => match last.verdicts.get(*at) {
            Some(entry) => Some(&entry.1),
            None => None,
        },
        Plan::Judge(_, verdict, _) => Some(verdict),
    }
}

// Whether these findings are the same as the last ones for the text of the module of the name.
fn same_as_last(
    devices: &[DeviceDecl],
    texts: &[(Name, SharedText)],
    last: &Last,
    plans: &[Option<Plan>],
    known: &mut Vec<Names>,
    name: &Name,
    imports: &Option<Vec<Import>>,
    old: &[Finding],
    new: &[Finding],
) -> Result<bool, AllocError>
    requires differ { NamesOfDevicesDiffer devices.now }
    requires present { ArePresent texts.now }
    requires kept { IsKept devices.now last.now }
    requires plans { ArePlans devices.now texts.now (judgements_of last.now) plans.now }
    requires known { AreStillFound devices.now texts.now (judgements_of last.now) known.old.items }
    requires old { AreFoundLast (judgements_of last.now) (unwrap_or (option_map imports_syntax imports.now) []) (map finding_of old.now) }
    requires new { (verdicts : List ℕ → plain.ModuleVerdict) → AreVerdicts devices.now texts.now verdicts → map finding_of new.now ≡ map (finding_for texts.now verdicts name.now) (unwrap_or (option_map imports_syntax imports.now) []) }
    ensures same { IfOk result (λ same. same ≡ same_findings (map finding_of old.now) (map finding_of new.now)) }
    ensures known { OnOk result (AreStillFound devices.now texts.now (judgements_of last.now) known.new.items) }
{
    match imports {
        Some(imports) => all_stay(
            devices,
            texts,
            last,
            plans,
            known,
            name,
            imports.as_slice(),
            old,
            new,
        ),
        None => Ok(same_findings(old, new)),
    }
}

// The place of the last judgement of the module with its text, if that was with these findings.
fn kept_place(
    devices: &[DeviceDecl],
    texts: &[(Name, SharedText)],
    last: &Last,
    plans: &[Option<Plan>],
    known: &mut Vec<Names>,
    name: &Name,
    text: &ReadText,
    judged: Option<usize>,
    findings: &[Finding],
) -> Result<Option<usize>, AllocError>
    requires differ { NamesOfDevicesDiffer devices.now }
    requires present { ArePresent texts.now }
    requires kept { IsKept devices.now last.now }
    requires plans { ArePlans devices.now texts.now (judgements_of last.now) plans.now }
    requires known { AreStillFound devices.now texts.now (judgements_of last.now) known.old.items }
    requires judged { IsJudgedBefore (judgements_of last.now) name.now text.now judged }
    requires found { (verdicts : List ℕ → plain.ModuleVerdict) → AreVerdicts devices.now texts.now verdicts → map finding_of findings.now ≡ findings_for texts.now verdicts name.now text.now }
    ensures place { IfOk result (λ place. MatchOption place
        (IsTrue (is_stale (judgements_of last.now) name.now text.now (map finding_of findings.now)))
        (IsJudgedAt (judgements_of last.now) name.now text.now (map finding_of findings.now))) }
    ensures known { OnOk result (AreStillFound devices.now texts.now (judgements_of last.now) known.new.items) }
{
    match judged {
        Some(at) => match last.grounds.get(at) {
            Some(grounds) => {
                let same = same_as_last(
                    devices,
                    texts,
                    last,
                    plans,
                    known,
                    name,
                    text.imports(),
                    grounds.findings.as_slice(),
                    findings,
                )?;
                if same { Ok(judged) } else { Ok(None) }
            }
            None => Ok(None),
        },
        None => Ok(None),
    }
}

// The plan for a module that is judged now.
fn judge<L: Ledger>(
    alloc: Global,
    devices: &[DeviceDecl],
    name: &Name,
    text: &ReadText,
    findings: Vec<Finding>,
    steps: &mut Steps<L>,
) -> Result<Plan, AllocError>
    requires differ { NamesOfDevicesDiffer devices.now }
    requires fit { AreFit devices.now text.now (map finding_of findings.items) }
    ensures tick { steps.new ≡ steps.old + 1 }
    ensures plan { IfOk result (λ plan. (last : List Judgement) → IsPlanFor devices.now last name.now text.now (map finding_of findings.items) plan) }
{
    let verdict = text.check(alloc, devices, findings.as_slice(), steps)?;
    let key = name.clone()?;
    let text = text.share()?;
    Ok(Plan::Judge(
        key,
        verdict,
        Grounds {
            text,
            findings: Findings::new(findings),
        },
    ))
}

/// The plan for the module, where this is the place of its last judgement with its text: its last verdict stays where it is
/// not stale, and else it is judged. What is known of names then is kept.
///
/// Fails only for want of memory.
pub(crate) fn plan_module<L: Ledger>(
    alloc: Global,
    devices: &[DeviceDecl],
    texts: &[(Name, SharedText)],
    last: &Last,
    plans: &[Option<Plan>],
    known: &mut Vec<Names>,
    name: &Name,
    text: &ReadText,
    judged: Option<usize>,
    findings: Vec<Finding>,
    steps: &mut Steps<L>,
) -> Result<Plan, AllocError>
    requires differ { NamesOfDevicesDiffer devices.now }
    requires fit { AreFit devices.now text.now (map finding_of findings.items) }
    requires present { ArePresent texts.now }
    requires kept { IsKept devices.now last.now }
    requires plans { ArePlans devices.now texts.now (judgements_of last.now) plans.now }
    requires known { AreStillFound devices.now texts.now (judgements_of last.now) known.old.items }
    requires judged { IsJudgedBefore (judgements_of last.now) name.now text.now judged }
    requires found { (verdicts : List ℕ → plain.ModuleVerdict) → AreVerdicts devices.now texts.now verdicts → map finding_of findings.items ≡ findings_for texts.now verdicts name.now text.now }
    ensures ticks { steps.new ≤ steps.old + (if is_stale (judgements_of last.now) name.now text.now (map finding_of findings.items) then 1 else 0) }
    ensures plan { IfOk result (λ plan. IsPlanFor devices.now (judgements_of last.now) name.now text.now (map finding_of findings.items) plan) }
    ensures known { OnOk result (AreStillFound devices.now texts.now (judgements_of last.now) known.new.items) }
{
    let kept = kept_place(
        devices,
        texts,
        last,
        plans,
        known,
        name,
        text,
        judged,
        findings.as_slice(),
    )?;
    match kept {
        Some(at) => Ok(Plan::Keep(at)),
        None => judge(alloc, devices, name, text, findings, steps),
    }
}
