//! Judging the present modules.

ghost use Rattle.std.specs.Prelude.{◌≡◌, ℕ, ◌+◌, ◌<◌, ◌≤◌, List, [], length, map, option_map, replicate, slice_set, Some, None, IfOk, OnOk, OnErr, if◌then◌else◌};
ghost use Rattle.std.specs.Option.{unwrap_or};
ghost use Rattle.cc_verdicts.specs.ModuleVerdicts.{ModuleVerdict};
ghost use Rattle.cc_verdicts.specs.ModuleLaws.{NamesOfDevicesDiffer};
ghost use Rattle.cc_verdicts.specs.PresentTexts.{ArePresent, graph_of, AreVerdicts};
ghost use Rattle.cc_module.specs.Findings.{finding_of};
ghost use Rattle.cc_parse.specs.Trees.{imports_syntax};
ghost use Rattle.cc_judge.specs.Dependencies.{AreDependencies};
ghost use Rattle.cc_judge.specs.Found.{AreFoundFor};
ghost use Rattle.cc_judge.specs.Judgements.{AreCurrent, stale_count};
ghost use Rattle.cc_judge.specs.Kept.{judgements_of, IsKept};
ghost use Rattle.cc_judge.specs.Plans.{ArePlans, AsksPlanned, PlansPlace, AreAllPlanned, IsRightPlan, is_stale_at, steps_for};
ghost use Rattle.cc_judge.specs.Settled.{AreStillFound};

use crate::carrying::carry_out;
use crate::dependencies::{Dependencies, find_dependencies};
use crate::findings::findings;
use crate::found_again::place_that_stays;
use crate::grounds::SharedText;
use crate::last::Last;
use crate::plans::{Plan, plan_module};
use crate::staying::no_names;
use cc_base::device::DeviceDecl;
use cc_base::literal::Import;
use cc_base::name::Name;
use cc_base::steps::Steps;
use cc_module::finding::Finding;
use cc_names::names::Names;
use std::alloc::{AllocError, Global};
use std::mem::replace;
use std::sync::ledger::Ledger;

// So many places without a plan.
fn no_plans(alloc: Global, count: usize) -> Result<Vec<Option<Plan>>, AllocError>
    ensures { IfOk result (λ plans. plans.items ≡ replicate count None) }
{
    let mut plans = Vec::with_capacity(alloc, count)?;
    for _ in 0..count {
        plans.push(None)?;
    }
    Ok(plans)
}

// Puts the plan at the place.
fn put_plan(plans: &mut Vec<Option<Plan>>, place: usize, plan: Plan)
    requires { place < length plans.old.items }
    ensures { plans.new.items ≡ slice_set plans.old.items place (Some plan) }
{
    plans[place] = Some(plan);
}

// What is found for the imports of the module, if its text is one.
fn findings_of(
    alloc: Global,
    texts: &[(Name, SharedText)],
    dependencies: &Dependencies,
    last: &Last,
    plans: &[Option<Plan>],
    name: &Name,
    imports: &Option<Vec<Import>>,
) -> Result<Vec<Finding>, AllocError>
    requires present { ArePresent texts.now }
    requires graph { dependencies.now.graph.value.graph ≡ graph_of texts.now }
    requires count { length plans.now ≡ length texts.now }
    ensures { IfOk result (λ found. AreFoundFor texts.now last.now.verdicts.items plans.now name.now (unwrap_or (option_map imports_syntax imports.now) []) (map finding_of found.items)) }
{
    match imports {
        Some(imports) => findings(
            alloc,
            texts,
            &dependencies.graph.graph,
            last,
            plans,
            name,
            imports.as_slice(),
        ),
        None => Ok(Vec::new(alloc)),
    }
}

// Makes the plan for a place that has none yet.
fn plan_new<L: Ledger>(
    alloc: Global,
    devices: &[DeviceDecl],
    texts: &[(Name, SharedText)],
    dependencies: &Dependencies,
    last: &Last,
    plans: &[Option<Plan>],
    known: &mut Vec<Names>,
    place: usize,
    steps: &mut Steps<L>,
) -> Result<Plan, AllocError>
    requires differ { NamesOfDevicesDiffer devices.now }
    requires present { ArePresent texts.now }
    requires found { AreDependencies (judgements_of last.now) texts.now dependencies.now }
    requires kept { IsKept devices.now last.now }
    requires plans { ArePlans devices.now texts.now (judgements_of last.now) plans.now }
    requires known { AreStillFound devices.now texts.now (judgements_of last.now) known.old.items }
    requires within { place < length texts.now }
    requires asked { AsksPlanned texts.now plans.now place }
    ensures ticks { (verdicts : List ℕ → ModuleVerdict) → AreVerdicts devices.now texts.now verdicts → steps.new ≤ steps.old + (if is_stale_at (judgements_of last.now) texts.now verdicts place then 1 else 0) }
    ensures plan { IfOk result (λ plan. IsRightPlan devices.now texts.now (judgements_of last.now) place plan) }
    ensures known { OnOk result (AreStillFound devices.now texts.now (judgements_of last.now) known.new.items) }
{
    let name = &texts[place].0;
    let text = &dependencies.readings[place];
    let judged = dependencies.judged[place];
    let graph = &dependencies.graph.graph;
    if let Some(at) = place_that_stays(devices, texts, graph, last, plans, name, text, judged) {
        return Ok(Plan::Keep(at));
    }
    let found = findings_of(
        alloc,
        texts,
        dependencies,
        last,
        plans,
        name,
        text.imports(),
    )?;
    plan_module(
        alloc, devices, texts, last, plans, known, name, text, judged, found, steps,
    )
}

// Makes the plan for the place, if it has none yet.
fn plan_place<L: Ledger>(
    alloc: Global,
    devices: &[DeviceDecl],
    texts: &[(Name, SharedText)],
    dependencies: &Dependencies,
    last: &Last,
    plans: &mut Vec<Option<Plan>>,
    known: &mut Vec<Names>,
    place: usize,
    steps: &mut Steps<L>,
) -> Result<(), AllocError>
    requires differ { NamesOfDevicesDiffer devices.now }
    requires present { ArePresent texts.now }
    requires found { AreDependencies (judgements_of last.now) texts.now dependencies.now }
    requires kept { IsKept devices.now last.now }
    requires plans { ArePlans devices.now texts.now (judgements_of last.now) plans.old.items }
    requires known { AreStillFound devices.now texts.now (judgements_of last.now) known.old.items }
    requires count { length plans.old.items ≡ length texts.now }
    requires within { place < length texts.now }
    requires asked { AsksPlanned texts.now plans.old.items place }
    ensures ticks { (verdicts : List ℕ → ModuleVerdict) → AreVerdicts devices.now texts.now verdicts → steps.new ≤ steps.old + steps_for (judgements_of last.now) texts.now verdicts plans.old.items place }
    ensures ok { OnOk result (PlansPlace devices.now texts.now (judgements_of last.now) place plans.old.items plans.new.items) }
    ensures known { OnOk result (AreStillFound devices.now texts.now (judgements_of last.now) known.new.items) }
{
    if plans[place].is_some() {
        return Ok(());
    }
    let plan = plan_new(
        alloc,
        devices,
        texts,
        dependencies,
        last,
        plans.as_slice(),
        known,
        place,
        steps,
    )?;
    put_plan(plans, place, plan);
    Ok(())
}

// A plan for each present module.
fn plan_all<L: Ledger>(
    alloc: Global,
    devices: &[DeviceDecl],
    texts: &[(Name, SharedText)],
    dependencies: &Dependencies,
    last: &Last,
    steps: &mut Steps<L>,
) -> Result<Vec<Option<Plan>>, AllocError>
    requires differ { NamesOfDevicesDiffer devices.now }
    requires present { ArePresent texts.now }
    requires found { AreDependencies (judgements_of last.now) texts.now dependencies.now }
    requires kept { IsKept devices.now last.now }
    ensures ticks { (verdicts : List ℕ → ModuleVerdict) → AreVerdicts devices.now texts.now verdicts → steps.new ≤ steps.old + stale_count (judgements_of last.now) texts.now verdicts }
    ensures plans { IfOk result (λ plans. AreAllPlanned devices.now texts.now (judgements_of last.now) plans.items) }
{
    let mut plans = no_plans(alloc, texts.len())?;
    let mut known = no_names(alloc, texts.len())?;
    for place in dependencies.schedule.iter() {
        plan_place(
            alloc,
            devices,
            texts,
            dependencies,
            last,
            &mut plans,
            &mut known,
            *place,
            &mut *steps,
        )?;
    }
    Ok(plans)
}

/// Judges the present modules: those that are not stale keep their last verdicts.
///
/// It counts at most one step for each stale module. Fails only for want of memory, and leaves the last judgements as
/// they were then.
pub fn judge_all<L: Ledger>(
    alloc: Global,
    devices: &[DeviceDecl],
    texts: &[(Name, SharedText)],
    last: &mut Last,
    steps: &mut Steps<L>,
) -> Result<(), AllocError>
    requires differ { NamesOfDevicesDiffer devices.now }
    requires present { ArePresent texts.now }
    requires kept { IsKept devices.now last.old }
    ensures ticks { (verdicts : List ℕ → ModuleVerdict) → AreVerdicts devices.now texts.now verdicts → steps.new ≤ steps.old + stale_count (judgements_of last.old) texts.now verdicts }
    ensures current { OnOk result (AreCurrent devices.now texts.now (judgements_of last.new)) }
    ensures kept { OnOk result (IsKept devices.now last.new) }
    ensures err { OnErr result (last.new ≡ last.old) }
{
    let dependencies = find_dependencies(alloc, texts, &*last)?;
    let plans = plan_all(alloc, devices, texts, &dependencies, &*last, steps)?;
    let graph = Some(dependencies.graph.clone()?);
    let verdicts = Vec::with_capacity(alloc, plans.len())?;
    let grounds = Vec::with_capacity(alloc, plans.len())?;
    let old = replace(
        &mut *last,
        Last {
            verdicts,
            grounds,
            graph,
        },
    );
    carry_out(old, plans, &mut *last);
    Ok(())
}
