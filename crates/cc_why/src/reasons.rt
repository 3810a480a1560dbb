//! Why a module is refused: for its text, its imports, its names and normal form, or its definitions.

ghost use Rattle.std.specs.Prelude.{◌≡◌, ℕ, List, length, map, Some, None, IfOk, IsTrue};
ghost use Rattle.std.specs.List.{AllByRecursion};
ghost use Rattle.cc_judge.specs.Judgements.{judgements};
ghost use Rattle.cc_module.specs.Findings.{finding_of};
ghost use Rattle.cc_module_reasons.specs.WhyAnswers.{IsWhy, IsWhyBy};
ghost use Rattle.cc_parse.specs.Trees.{module_syntax};
ghost use Rattle.cc_verdicts.specs.ModuleLaws.{FitsDevices, NamesOfDevicesDiffer};
ghost use Rattle.cc_verdicts.specs.ModuleVerdicts.{ModuleVerdict, IsRefused, first_missing};
ghost use Rattle.cc_verdicts.specs.PresentTexts.{Texts, ArePresent, text_of, findings_for, AreVerdicts};
ghost use Rattle.cc_verdicts.specs.Readings.{HasReading, IsTree};
ghost use Rattle.cc_why.specs.ToldReasons.{why_of, TellsReason};

use crate::definitions::definition_lines;
use crate::elaboration::cause_lines;
use crate::imports::{are_found, missing_lines};
use crate::texts::text_lines;
use crate::why::{ReasonLines, Why};
use cc_base::code::Diag;
use cc_base::device::DeviceDecl;
use cc_base::name::Name;
use cc_import_reasoning::reason::refusal;
use cc_mnf::ElaborateError;
use cc_mnf::elaborate::elaborate;
use cc_module::finding::Finding;
use cc_parse::tree::Module;
use cc_session::refusals::NoSuchModule;
use cc_session::session::Session;
use cc_text_reading::reading::{TextReading, read};
use std::alloc::{AllocError, Global};

// The lines of the reason of a tree where a definition is found for each import, if it has one.
fn found_lines(
    alloc: Global,
    devices: &[DeviceDecl],
    findings: &[Finding],
    tree: &Module,
) -> Result<Option<ReasonLines>, AllocError>
    requires names { NamesOfDevicesDiffer devices.now }
    requires one_each { length findings.now ≡ length tree.now.imports.items }
    requires over_devices { AllByRecursion (FitsDevices devices.now) (map finding_of findings.now) }
    requires found { first_missing (module_syntax tree.now).imports (map finding_of findings.now) ≡ None }
    ensures { IfOk result (λ told. (texts : Texts) (all : List ℕ → ModuleVerdict) (name text : List ℕ)
        → HasReading text (IsTree (module_syntax tree.now)) → map finding_of findings.now ≡ findings_for texts all name text
        → TellsReason devices.now texts all name text told) }
{
    match elaborate(alloc, tree, devices) {
        Ok(core) => definition_lines(alloc, devices, findings, tree, &core.defs),
        Err(ElaborateError::Refused(_)) => cause_lines(alloc, devices, tree),
        Err(ElaborateError::NoMemory) => Err(AllocError),
    }
}

// The lines of the reason of a tree, if it has one.
fn tree_lines(
    alloc: Global,
    session: &Session,
    name: &Name,
    findings: &[Finding],
    tree: &Module,
) -> Result<Option<ReasonLines>, AllocError>
    requires checked { IsTrue session.now.checked }
    requires differ { NamesOfDevicesDiffer session.now.devices }
    requires present { ArePresent session.now.present }
    requires one_each { length findings.now ≡ length tree.now.imports.items }
    requires over_devices { AllByRecursion (FitsDevices session.now.devices) (map finding_of findings.now) }
    ensures { IfOk result (λ told. (all : List ℕ → ModuleVerdict) (text : List ℕ)
        → session.now.last ≡ judgements session.now.present all → text_of session.now.present name.now ≡ Some text
        → HasReading text (IsTree (module_syntax tree.now))
        → map finding_of findings.now ≡ findings_for session.now.present all name.now text
        → TellsReason session.now.devices session.now.present all name.now text told) }
{
    if are_found(findings) {
        found_lines(alloc, session.devices(), findings, tree)
    } else {
        missing_lines(alloc, session, name, &tree.imports, findings)
    }
}

// The lines of the reason of a module whose text is this one, if it has one.
fn module_lines(
    alloc: Global,
    session: &Session,
    name: &Name,
    text: &[u8],
) -> Result<Option<ReasonLines>, AllocError>
    requires checked { IsTrue session.now.checked }
    requires differ { NamesOfDevicesDiffer session.now.devices }
    requires present { ArePresent session.now.present }
    requires text { text_of session.now.present name.now ≡ Some text.now }
    ensures { IfOk result (λ told. (all : List ℕ → ModuleVerdict) → session.now.last ≡ judgements session.now.present all
        → TellsReason session.now.devices session.now.present all name.now text.now told) }
{
    match read(alloc, text)? {
        TextReading::NoModule(_) => text_lines(alloc, text),
        TextReading::Tree(tree) => match session.findings(name) {
            Ok(findings) => tree_lines(alloc, session, name, findings, &tree),
            Err(NoSuchModule) => Ok(None),
        },
    }
}

// Why a module whose text is this one is refused, with this refusal.
fn refused(
    alloc: Global,
    session: &Session,
    name: &Name,
    text: &[u8],
    diag: Diag,
) -> Result<Why, AllocError>
    requires checked { IsTrue session.now.checked }
    requires differ { NamesOfDevicesDiffer session.now.devices }
    requires present { ArePresent session.now.present }
    requires text { text_of session.now.present name.now ≡ Some text.now }
    ensures { IfOk result (λ why. (all : List ℕ → ModuleVerdict) → session.now.last ≡ judgements session.now.present all
        → AreVerdicts session.now.devices session.now.present all → all name.now ≡ IsRefused diag.code diag.place
        → IsWhyBy session.now.devices session.now.present all name.now (why_of why)) }
{
    match module_lines(alloc, session, name, text)? {
        Some(lines) => Ok(Why::RefusedSince(diag, lines)),
        None => Ok(Why::NotRefused),
    }
}

/// Why the module of the name is refused, or that it is not, or that it is not present. Fails only for want of memory.
pub(crate) fn find_why(alloc: Global, session: &Session, name: &Name) -> Result<Why, AllocError>
    requires checked { IsTrue session.now.checked }
    requires differ { NamesOfDevicesDiffer session.now.devices }
    requires present { ArePresent session.now.present }
    ensures { IfOk result (λ why. IsWhy session.now.devices session.now.present name.now (why_of why)) }
{
    match session.text(name) {
        Ok(text) => match refusal(session.verdicts(), name) {
            Some(diag) => refused(alloc, session, name, text, diag),
            None => Ok(Why::NotRefused),
        },
        Err(NoSuchModule) => Ok(Why::NoSuchModule),
    }
}
