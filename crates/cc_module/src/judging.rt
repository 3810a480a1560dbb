//! Judging a module.

ghost use Rattle.std.specs.Prelude.{◌≡◌, ℕ, ◌+◌, List, [], ◌∷◌, ◌++◌, None, length, map, option_map, IfOk, OnOk};
ghost use Rattle.std.specs.List.{AllByRecursion};
ghost use Rattle.cc_core.specs.Contexts.{entry_of};
ghost use Rattle.cc_core.specs.TermViews.{type_of, context_of};
ghost use Rattle.cc_checking_laws.specs.CheckingLaws.{Fits};
ghost use Rattle.cc_core.specs.Holes.{HolesAreOfParameters};
ghost use Rattle.cc_verdicts.specs.ModuleLaws.{AreFit, FitsDevices, NamesOfDevicesDiffer};
ghost use Rattle.cc_verdicts.specs.ModuleVerdicts as plain;
ghost use Rattle.cc_verdicts.specs.ModuleVerdicts.{AreJudged, HasModuleVerdict, to_be_checked};
ghost use Rattle.cc_verdicts.specs.ReadyDefinitions.{AreReady};
ghost use Rattle.cc_verdicts.specs.Readings.{HasReading, IsTree, reading_of_text};
ghost use Rattle.cc_mnf.specs.CoreModules.{definition_of};
ghost use Rattle.cc_module.specs.Findings.{finding_of};
ghost use Rattle.cc_module.specs.Judgements.{module_verdict_of, refusal_of, JudgesAll, JudgesOne, IsSoundIfAccepted};
ghost use Rattle.cc_text_reading.specs.TextReadings.{text_reading_of};
ghost use Rattle.cc_parse.specs.Trees.{import_syntax, module_syntax};
ghost use Rattle.cc_known.specs.Measures.{AreAllMeasuresOf};

use crate::contexts::{declared_context, with_findings, with_signature};
use crate::finding::{Finding, code_of};
use crate::judgement::{CheckedDef, ModuleVerdict, accepted, refused};
use cc_base::code::Diag;
use cc_base::device::DeviceDecl;
use cc_base::literal::Import;
use cc_base::steps::Steps;
use cc_check::{CheckError, check_known};
use cc_core::{CoreDef, Ctx};
use cc_known::Measures;
use cc_mnf::ElaborateError;
use cc_mnf::elaborate::elaborate;
use cc_parse::tree::Module;
use cc_text_reading::reading::{TextReading, read};
use cc_type::Instances;
use std::alloc::{AllocError, Global};
use std::sync::ledger::Ledger;

// The refusal of the first import for which no definition is found.
fn first_missing(imports: &[Import], findings: &[Finding]) -> Option<Diag>
    requires { length findings.now ≡ length imports.now }
    ensures { option_map refusal_of result ≡ plain.first_missing (map import_syntax imports.now) (map finding_of findings.now) }
{
    for at in 0..imports.len() {
        if let Some(code) = code_of(&findings[at]) {
            return Some(Diag {
                code,
                place: imports[at].at,
            });
        }
    }
    None
}

// The definition as it is accepted in the context of the devices, so many, and of what stands before it.
fn check(
    alloc: Global,
    ctx: &Ctx,
    devices: u32,
    def: &CoreDef,
    measures: &mut Measures,
    instances: &mut Instances,
) -> Result<CheckedDef, CheckError>
    requires fits { Fits (context_of ctx.now) (to_be_checked (definition_of def.now)) }
    requires holes { HolesAreOfParameters (definition_of def.now).right }
    requires measures { AreAllMeasuresOf devices measures.old (context_of ctx.now) }
    ensures verdict { JudgesOne devices (context_of ctx.now) (definition_of def.now) result }
    ensures measures { IfOk result (λ d. AreAllMeasuresOf devices measures.new (entry_of (type_of d.checked.sig) ∷ context_of ctx.now)) }
{
    let checked = check_known(alloc, ctx, devices, def, measures, instances)?;
    let name = def.name.clone()?;
    Ok(CheckedDef {
        name,
        recursive: def.recursive,
        checked,
    })
}

// The context with the signature of one definition more.
fn after(alloc: Global, ctx: &Ctx, def: &CheckedDef) -> Result<Ctx, AllocError>
    ensures { IfOk result (λ c. context_of c ≡ entry_of (type_of def.now.checked.sig) ∷ context_of ctx.now) }
{
    with_signature(alloc, ctx, &def.checked.sig)
}

// Puts one definition more behind the others.
fn add(defs: &mut Vec<CheckedDef>, def: CheckedDef) -> Result<(), AllocError>
    ensures { OnOk result (defs.new.items ≡ defs.old.items ++ def ∷ []) }
{
    Ok(defs.push(def)?)
}

// The definitions as they are accepted, each in the context of the signatures before it.
fn check_all(
    alloc: Global,
    ctx: Ctx,
    devices: u32,
    defs: &[CoreDef],
) -> Result<Vec<CheckedDef>, CheckError>
    requires { AreReady (context_of ctx) (map definition_of defs.now) }
    ensures { JudgesAll devices (context_of ctx) (map definition_of defs.now) result }
{
    let mut globals = ctx;
    let mut checked = Vec::with_capacity(alloc, defs.len())?;
    let mut measures = Measures::new(alloc, devices, globals.len());
    let mut instances = Instances::new(alloc);
    for def in defs {
        let next = check(alloc, &globals, devices, def, &mut measures, &mut instances)?;
        globals = after(alloc, &globals, &next)?;
        add(&mut checked, next)?;
    }
    Ok(checked)
}

// The verdict of the definitions in the context.
fn judge_definitions(
    alloc: Global,
    ctx: Ctx,
    devices: u32,
    defs: &[CoreDef],
) -> Result<ModuleVerdict, AllocError>
    requires { AreReady (context_of ctx) (map definition_of defs.now) }
    ensures { IfOk result (λ v. AreJudged devices (context_of ctx) (map definition_of defs.now) (module_verdict_of v)) }
{
    match check_all(alloc, ctx, devices, defs) {
        Ok(checked) => accepted(alloc, checked),
        Err(CheckError::Refused(diag)) => Ok(refused(diag)),
        Err(CheckError::NoMemory) => Err(AllocError),
    }
}

// The verdict of elaborated definitions.
fn judge_core(
    alloc: Global,
    defs: &[CoreDef],
    devices: &[DeviceDecl],
    findings: &[Finding],
) -> Result<ModuleVerdict, AllocError>
    requires { AreReady (plain.with_findings (plain.declared_context devices.now) (map finding_of findings.now)) (map definition_of defs.now) }
    ensures { IfOk result (λ v. AreJudged (length devices.now) (plain.with_findings (plain.declared_context devices.now) (map finding_of findings.now)) (map definition_of defs.now) (module_verdict_of v)) }
{
    let declared = declared_context(alloc, devices)?;
    let count = declared.len();
    let globals = with_findings(alloc, declared, findings)?;
    judge_definitions(alloc, globals, count, defs)
}

// The verdict of a tree where a definition is found for each import.
fn judge_found(
    alloc: Global,
    tree: &Module,
    devices: &[DeviceDecl],
    findings: &[Finding],
) -> Result<ModuleVerdict, AllocError>
    requires names { NamesOfDevicesDiffer devices.now }
    requires one_each { length findings.now ≡ length tree.now.imports.items }
    requires over_devices { AllByRecursion (FitsDevices devices.now) (map finding_of findings.now) }
    requires found { plain.first_missing (module_syntax tree.now).imports (map finding_of findings.now) ≡ None }
    ensures { IfOk result (λ v. (text : List ℕ) → HasReading text (IsTree (module_syntax tree.now)) → HasModuleVerdict devices.now text (map finding_of findings.now) (module_verdict_of v)) }
{
    match elaborate(alloc, tree, devices) {
        Ok(core) => judge_core(alloc, &core.defs, devices, findings),
        Err(ElaborateError::Refused(diag)) => Ok(refused(diag)),
        Err(ElaborateError::NoMemory) => Err(AllocError),
    }
}

// The verdict of a tree.
fn judge_tree(
    alloc: Global,
    tree: &Module,
    devices: &[DeviceDecl],
    findings: &[Finding],
) -> Result<ModuleVerdict, AllocError>
    requires names { NamesOfDevicesDiffer devices.now }
    requires one_each { length findings.now ≡ length tree.now.imports.items }
    requires over_devices { AllByRecursion (FitsDevices devices.now) (map finding_of findings.now) }
    ensures { IfOk result (λ v. (text : List ℕ) → HasReading text (IsTree (module_syntax tree.now)) → HasModuleVerdict devices.now text (map finding_of findings.now) (module_verdict_of v)) }
{
    match first_missing(&tree.imports, findings) {
        Some(diag) => Ok(refused(diag)),
        None => judge_found(alloc, tree, devices, findings),
    }
}

// The verdict of a text that was read.
fn judge(
    alloc: Global,
    text: &[u8],
    reading: &TextReading,
    devices: &[DeviceDecl],
    findings: &[Finding],
) -> Result<ModuleVerdict, AllocError>
    requires names { NamesOfDevicesDiffer devices.now }
    requires fit { AreFit devices.now text.now (map finding_of findings.now) }
    requires read { text_reading_of reading.now ≡ reading_of_text text.now }
    ensures { IfOk result (λ v. HasModuleVerdict devices.now text.now (map finding_of findings.now) (module_verdict_of v)) }
{
    match reading {
        TextReading::Tree(tree) => judge_tree(alloc, tree, devices, findings),
        TextReading::NoModule(diag) => Ok(refused(*diag)),
    }
}

/// The verdict of a module's text that was read, as `check_module` gives it.
///
/// It counts one step, also where it fails. Fails only for want of memory, as which a number past 2^32 - 1 counts.
pub fn check_read<L: Ledger>(
    alloc: Global,
    text: &[u8],
    reading: &TextReading,
    devices: &[DeviceDecl],
    findings: &[Finding],
    steps: &mut Steps<L>,
) -> Result<ModuleVerdict, AllocError>
    requires names { NamesOfDevicesDiffer devices.now }
    requires fit { AreFit devices.now text.now (map finding_of findings.now) }
    requires read { text_reading_of reading.now ≡ reading_of_text text.now }
    ensures tick { steps.new ≡ steps.old + 1 }
    ensures verdict { IfOk result (λ v. HasModuleVerdict devices.now text.now (map finding_of findings.now) (module_verdict_of v)) }
    ensures sound { IfOk result (λ v. IsSoundIfAccepted devices.now (map finding_of findings.now) (module_verdict_of v)) }
{
    steps.tick();
    judge(alloc, text, reading, devices, findings)
}

/// The verdict of a module's text beside the devices, whose names differ, with what is found for its imports, in order:
/// a finding for each import, and none where the text is no module. The types that are found name the devices alone and
/// have no hole.
///
/// It counts one step, also where it fails. Fails only for want of memory, as which a number past 2^32 - 1 counts.
pub fn check_module<L: Ledger>(
    alloc: Global,
    text: &[u8],
    devices: &[DeviceDecl],
    findings: &[Finding],
    steps: &mut Steps<L>,
) -> Result<ModuleVerdict, AllocError>
    requires names { NamesOfDevicesDiffer devices.now }
    requires fit { AreFit devices.now text.now (map finding_of findings.now) }
    ensures tick { steps.new ≡ steps.old + 1 }
    ensures verdict { IfOk result (λ v. HasModuleVerdict devices.now text.now (map finding_of findings.now) (module_verdict_of v)) }
    ensures sound { IfOk result (λ v. IsSoundIfAccepted devices.now (map finding_of findings.now) (module_verdict_of v)) }
{
    steps.tick();
    let reading = read(alloc, text)?;
    judge(alloc, text, &reading, devices, findings)
}
