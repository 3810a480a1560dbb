//! Whether what is found for the imports of a module is what was found for them when it was judged last. What is found in
//! modules that keep their verdicts is not compared, and in those that were judged again once for each name.

ghost use Rattle.std.specs.Prelude.{◌≡◌, ◌<◌, ℕ, List, [], length, map, replicate, slice_get, slice_index_or, slice_set, Some, IfOk, OnOk, IsTrue, MatchOption};
ghost use Rattle.std.specs.Map.{keys_of};
ghost use Rattle.std.specs.Str.{bytes_eq};
ghost use Rattle.indexmap.specs.IndexSet.{insert_key};
ghost use Rattle.cc_parse.specs.Trees.{import_syntax};
ghost use Rattle.cc_verdicts.specs.ModuleLaws.{NamesOfDevicesDiffer};
ghost use Rattle.cc_verdicts.specs.ModuleVerdicts.{ModuleVerdict};
ghost use Rattle.cc_verdicts.specs.PresentTexts.{ArePresent, AreVerdicts, finding_for};
ghost use Rattle.cc_module.specs.Findings.{finding_of};
ghost use Rattle.cc_judge.specs.declared.plans.Plan.TheVariants.{Keep};
ghost use Rattle.cc_judge.specs.Kept.{judgements_of, IsKept};
ghost use Rattle.cc_judge.specs.Places.{IsAbsentKey, name_at};
ghost use Rattle.cc_judge.specs.Plans.{ArePlans};
ghost use Rattle.cc_judge.specs.SameFindings as plain;
ghost use Rattle.cc_judge.specs.Settled.{IsFoundLast, AreFoundLast, IsStillFound, AreStillFound};

use crate::grounds::SharedText;
use crate::last::Last;
use crate::names::place_of_text_near;
use crate::plans::Plan;
use crate::same::{is_found, same_as_known, same_finding};
use cc_base::device::DeviceDecl;
use cc_base::literal::Import;
use cc_base::name::Name;
use cc_module::finding::Finding;
use cc_names::names::Names;
use std::alloc::{AllocError, Global};

/// So many times no names.
pub(crate) fn no_names(alloc: Global, count: usize) -> Result<Vec<Names>, AllocError>
    ensures { IfOk result (λ known. known.items ≡ replicate count []) }
{
    let mut known = Vec::with_capacity(alloc, count)?;
    for _ in 0..count {
        known.push(Names::new(alloc))?;
    }
    Ok(known)
}

/// Whether the verdict stays.
pub(crate) fn keeps(plan: &Option<Plan>) -> bool
    ensures { IsTrue result → (at : ℕ) × (plan.now ≡ Some (Keep at)) }
{
    match plan {
        Some(plan) => match plan {
            Plan::Keep(_) => true,
            Plan::Judge(_, _, _) => false,
        },
        None => false,
    }
}

// Whether it is known that what is found in the module at the place under the name was found by its last verdict.
fn is_known(
    devices: &[DeviceDecl],
    texts: &[(Name, SharedText)],
    last: &Last,
    plans: &[Option<Plan>],
    known: &[Names],
    at: usize,
    name: &Name,
) -> bool
    requires kept { IsKept devices.now last.now }
    requires plans { ArePlans devices.now texts.now (judgements_of last.now) plans.now }
    requires count { length plans.now ≡ length texts.now }
    requires known { AreStillFound devices.now texts.now (judgements_of last.now) known.now }
    requires within { at < length texts.now }
    ensures { IsTrue result → IsStillFound devices.now texts.now (judgements_of last.now) (name_at texts.now at) name.now }
{
    if keeps(&plans[at]) {
        true
    } else {
        known[at].contains(name)
    }
}

// Puts the name to those at the place.
fn add_name(known: &mut Vec<Names>, at: usize, name: &Name) -> Result<(), AllocError>
    requires { at < length known.old.items }
    ensures { OnOk result (known.new.items ≡ slice_set known.old.items at (insert_key bytes_eq (slice_index_or known.old.items at []) name.now)) }
{
    known[at].add(name)
}

// Puts the name of what is found in the module at the place to those that are known.
fn know(
    devices: &[DeviceDecl],
    texts: &[(Name, SharedText)],
    last: &Last,
    known: &mut Vec<Names>,
    at: usize,
    name: &Name,
) -> Result<(), AllocError>
    requires known { AreStillFound devices.now texts.now (judgements_of last.now) known.old.items }
    requires within { at < length texts.now }
    requires found { IsStillFound devices.now texts.now (judgements_of last.now) (name_at texts.now at) name.now }
    ensures { OnOk result (AreStillFound devices.now texts.now (judgements_of last.now) known.new.items) }
{
    add_name(known, at, name)
}

// Whether what is found for the import of the module of the name, which imports from the one at the place, is the same.
fn stays_at(
    devices: &[DeviceDecl],
    texts: &[(Name, SharedText)],
    last: &Last,
    plans: &[Option<Plan>],
    known: &mut Vec<Names>,
    name: &Name,
    at: usize,
    import: &Import,
    old: &Finding,
    new: &Finding,
) -> Result<bool, AllocError>
    requires differ { NamesOfDevicesDiffer devices.now }
    requires present { ArePresent texts.now }
    requires kept { IsKept devices.now last.now }
    requires plans { ArePlans devices.now texts.now (judgements_of last.now) plans.now }
    requires known { AreStillFound devices.now texts.now (judgements_of last.now) known.old.items }
    requires source { slice_get (keys_of texts.now) at ≡ Some import.now.module }
    requires old { IsFoundLast (judgements_of last.now) (import_syntax import.now) (finding_of old.now) }
    requires new { (verdicts : List ℕ → ModuleVerdict) → AreVerdicts devices.now texts.now verdicts → finding_of new.now ≡ finding_for texts.now verdicts name.now (import_syntax import.now) }
    ensures same { IfOk result (λ same. same ≡ plain.same_finding (finding_of old.now) (finding_of new.now)) }
    ensures known { OnOk result (AreStillFound devices.now texts.now (judgements_of last.now) known.new.items) }
{
    let sure = is_known(
        devices,
        texts,
        last,
        plans,
        known.as_slice(),
        at,
        &import.def,
    );
    let same = same_as_known(sure, old, new);
    if same && !sure && is_found(new) {
        know(devices, texts, last, known, at, &import.def)?;
        return Ok(same);
    }
    Ok(same)
}

// The same, where the module that is imported from may not be present.
fn stays(
    devices: &[DeviceDecl],
    texts: &[(Name, SharedText)],
    last: &Last,
    plans: &[Option<Plan>],
    known: &mut Vec<Names>,
    name: &Name,
    source: Option<usize>,
    import: &Import,
    old: &Finding,
    new: &Finding,
) -> Result<bool, AllocError>
    requires differ { NamesOfDevicesDiffer devices.now }
    requires present { ArePresent texts.now }
    requires kept { IsKept devices.now last.now }
    requires plans { ArePlans devices.now texts.now (judgements_of last.now) plans.now }
    requires known { AreStillFound devices.now texts.now (judgements_of last.now) known.old.items }
    requires source { MatchOption source (IsAbsentKey (keys_of texts.now) import.now.module) (λ at. slice_get (keys_of texts.now) at ≡ Some import.now.module) }
    requires old { IsFoundLast (judgements_of last.now) (import_syntax import.now) (finding_of old.now) }
    requires new { (verdicts : List ℕ → ModuleVerdict) → AreVerdicts devices.now texts.now verdicts → finding_of new.now ≡ finding_for texts.now verdicts name.now (import_syntax import.now) }
    ensures same { IfOk result (λ same. same ≡ plain.same_finding (finding_of old.now) (finding_of new.now)) }
    ensures known { OnOk result (AreStillFound devices.now texts.now (judgements_of last.now) known.new.items) }
{
    match source {
        Some(at) => stays_at(
            devices, texts, last, plans, known, name, at, import, old, new,
        ),
        None => Ok(same_finding(old, new)),
    }
}

// Where the next source is sought, when one was found there, or sought there.
fn next_near(source: Option<usize>, near: usize) -> usize
    ensures { MatchOption source (result ≡ near) (λ at. result ≡ at) }
{
    match source {
        Some(at) => at,
        None => near,
    }
}

/// Whether what is found for the imports of the module of the name is the same. What is known of names then is kept.
///
/// Fails only for want of memory.
pub(crate) fn all_stay(
    devices: &[DeviceDecl],
    texts: &[(Name, SharedText)],
    last: &Last,
    plans: &[Option<Plan>],
    known: &mut Vec<Names>,
    name: &Name,
    imports: &[Import],
    old: &[Finding],
    new: &[Finding],
) -> Result<bool, AllocError>
    requires differ { NamesOfDevicesDiffer devices.now }
    requires present { ArePresent texts.now }
    requires kept { IsKept devices.now last.now }
    requires plans { ArePlans devices.now texts.now (judgements_of last.now) plans.now }
    requires known { AreStillFound devices.now texts.now (judgements_of last.now) known.old.items }
    requires old { AreFoundLast (judgements_of last.now) (map import_syntax imports.now) (map finding_of old.now) }
    requires new { (verdicts : List ℕ → ModuleVerdict) → AreVerdicts devices.now texts.now verdicts → map finding_of new.now ≡ map (finding_for texts.now verdicts name.now) (map import_syntax imports.now) }
    ensures same { IfOk result (λ same. same ≡ plain.same_findings (map finding_of old.now) (map finding_of new.now)) }
    ensures known { OnOk result (AreStillFound devices.now texts.now (judgements_of last.now) known.new.items) }
{
    if old.len() != new.len() {
        return Ok(false);
    }
    let mut near = 0;
    for at in 0..old.len() {
        let import = &imports[at];
        let source = place_of_text_near(texts, near, &import.module);
        near = next_near(source, near);
        let same = stays(
            devices,
            texts,
            last,
            plans,
            &mut *known,
            name,
            source,
            import,
            &old[at],
            &new[at],
        )?;
        if !same {
            return Ok(false);
        }
    }
    Ok(true)
}
