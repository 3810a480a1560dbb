//! Texts that were read: each is kept with what it imports. It has its tree until it is judged, and where it is judged
//! again and again, so that it is not read each time.

ghost use Rattle.std.specs.Prelude.{◌≡◌, ◌+◌, true, map, IfOk, option_map};
ghost use Rattle.std.specs.Coded.{codes};
ghost use Rattle.std.specs.Str.{bytes_eq};
ghost use Rattle.cc_base.specs.contracts.code.Code as code;
ghost use Rattle.cc_base.specs.contracts.literal.Base as base;
ghost use Rattle.cc_base.specs.contracts.literal.Op as operation;
ghost use Rattle.cc_base.specs.contracts.literal.Operator as operator;
ghost use Rattle.cc_base.specs.contracts.place.Place as place;
ghost use Rattle.cc_verdicts.specs.ModuleLaws.{AreFit, NamesOfDevicesDiffer};
ghost use Rattle.cc_verdicts.specs.ModuleVerdicts.{HasModuleVerdict};
ghost use Rattle.cc_verdicts.specs.Readings.{imports_of, reading_of_text};
ghost use Rattle.cc_module.specs.Findings.{finding_of};
ghost use Rattle.cc_module.specs.Judgements.{module_verdict_of, IsSoundIfAccepted};
ghost use Rattle.cc_text_reading.specs.TextReadings.{text_reading_of};
ghost use Rattle.cc_parse.specs.Trees.{imports_syntax};
ghost use Rattle.cc_judge.specs.SyntaxCodes.{reading_code};

use crate::grounds::SharedText;
use cc_base::device::DeviceDecl;
use cc_base::literal::Import;
use cc_base::steps::Steps;
use cc_module::finding::Finding;
use cc_module::judgement::ModuleVerdict;
use cc_module::judging::{check_module, check_read};
use cc_text_reading::imports::imports_read;
use cc_text_reading::reading::{TextReading, read};
use std::alloc::{AllocError, Global};
use std::cell::Cell;
use std::marker::Model;
use std::rc::Rc;
use std::sync::ledger::Ledger;

// A text with what it was read as, and whether that stays when the text is judged.
#[derive(Drop)]
struct Parsed {
    text: SharedText,
    reading: TextReading,
    stays: bool,
    ghost is: { text_reading_of reading ≡ reading_of_text text } by { Prim.hlevel (codes, reading_code (record { base = base.the_row.coded; operator = operator.the_row.coded; operation = operation.the_row.coded; code = code.the_row.coded; place = place.the_row.coded })) },
}

// A text with its imports, if it is a module. What it was read as is there until it is judged. Where it is judged once
// more, that is read again, and stays: what the text imports from changes then, and is likely to change again.
#[derive(Drop)]
struct Reading {
    text: SharedText,
    imports: Option<Vec<Import>>,
    parsed: Cell<Option<Parsed>>,
    ghost are: { option_map imports_syntax imports ≡ imports_of text },
}

// The text with what it was read as.
fn parsed_as(text: &SharedText, reading: TextReading, stays: bool) -> Result<Parsed, AllocError>
    requires { text_reading_of reading ≡ reading_of_text text.now }
    ensures text { IfOk result (λ parsed. parsed.text ≡ text.now) }
    ensures stays { IfOk result (λ parsed. parsed.stays ≡ stays) }
{
    let text = text.share()?;
    Ok(Parsed {
        text,
        reading,
        stays,
    })
}

// The text, read again, with what it is read as, which stays.
fn parsed_again(alloc: Global, text: &SharedText) -> Result<Parsed, AllocError>
    ensures text { IfOk result (λ parsed. parsed.text ≡ text.now) }
    ensures stays { IfOk result (λ parsed. parsed.stays ≡ true) }
{
    let reading = read(alloc, text.as_bytes())?;
    parsed_as(text, reading, true)
}

// The verdict of the text, which is not read again where it was read as this.
fn check_parsed<L: Ledger>(
    alloc: Global,
    text: &SharedText,
    parsed: &Parsed,
    devices: &[DeviceDecl],
    findings: &[Finding],
    steps: &mut Steps<L>,
) -> Result<ModuleVerdict, AllocError>
    requires names { NamesOfDevicesDiffer devices.now }
    requires fit { AreFit devices.now text.now (map finding_of findings.now) }
    ensures tick { steps.new ≡ steps.old + 1 }
    ensures verdict { IfOk result (λ v. HasModuleVerdict devices.now text.now (map finding_of findings.now) (module_verdict_of v)) }
    ensures sound { IfOk result (λ v. IsSoundIfAccepted devices.now (map finding_of findings.now) (module_verdict_of v)) }
{
    let bytes = text.as_bytes();
    if parsed.text.is(text) {
        check_read(alloc, bytes, &parsed.reading, devices, findings, steps)
    } else {
        check_module(alloc, bytes, devices, findings, steps)
    }
}

// The same, where what the text was read as is put back if it stays.
fn check_by<L: Ledger>(
    alloc: Global,
    reading: &Reading,
    parsed: Parsed,
    devices: &[DeviceDecl],
    findings: &[Finding],
    steps: &mut Steps<L>,
) -> Result<ModuleVerdict, AllocError>
    requires names { NamesOfDevicesDiffer devices.now }
    requires fit { AreFit devices.now reading.now.text (map finding_of findings.now) }
    ensures tick { steps.new ≡ steps.old + 1 }
    ensures verdict { IfOk result (λ v. HasModuleVerdict devices.now reading.now.text (map finding_of findings.now) (module_verdict_of v)) }
    ensures sound { IfOk result (λ v. IsSoundIfAccepted devices.now (map finding_of findings.now) (module_verdict_of v)) }
{
    let verdict = check_parsed(alloc, &reading.text, &parsed, devices, findings, steps)?;
    if parsed.stays {
        reading.parsed.set(Some(parsed));
    }
    Ok(verdict)
}

/// A text that was read, shared, with its imports. Contracts see its bytes.
#[derive(Drop)]
pub struct ReadText {
    reading: Rc<Reading>,
}

impl Model for ReadText {
    ghost use Rattle.std.specs.Prelude.{List, ℕ};

    ghost Value = { List ℕ };

    ghost view = { λ t. t.reading.value.text };
}

impl ReadText {
    /// The text, read. Fails only for want of memory.
    pub fn read(alloc: Global, text: &SharedText) -> Result<ReadText, AllocError>
        ensures { IfOk result (λ read. read ≡ text.now) }
    {
        let reading = read(alloc, text.as_bytes())?;
        let imports = imports_read(alloc, &reading)?;
        let parsed = Cell::new(Some(parsed_as(text, reading, false)?));
        let text = text.share()?;
        let reading = Rc::new(
            alloc,
            Reading {
                text,
                imports,
                parsed,
            },
        )?;
        Ok(ReadText { reading })
    }

    /// The verdict of the text, as `check_module` gives it. What the text was read as is given up then, unless the text
    /// was judged before.
    pub(crate) fn check<L: Ledger>(
        &self,
        alloc: Global,
        devices: &[DeviceDecl],
        findings: &[Finding],
        steps: &mut Steps<L>,
    ) -> Result<ModuleVerdict, AllocError>
        requires names { NamesOfDevicesDiffer devices.now }
        requires fit { AreFit devices.now self.now (map finding_of findings.now) }
        ensures tick { steps.new ≡ steps.old + 1 }
        ensures verdict { IfOk result (λ v. HasModuleVerdict devices.now self.now (map finding_of findings.now) (module_verdict_of v)) }
        ensures sound { IfOk result (λ v. IsSoundIfAccepted devices.now (map finding_of findings.now) (module_verdict_of v)) }
    {
        match self.reading.parsed.take() {
            Some(parsed) => check_by(alloc, &self.reading, parsed, devices, findings, steps),
            None => match parsed_again(alloc, &self.reading.text) {
                Ok(parsed) => check_by(alloc, &self.reading, parsed, devices, findings, steps),
                Err(AllocError) => {
                    steps.tick();
                    Err(AllocError)
                }
            },
        }
    }

    /// The same text, shared. Fails only for want of memory.
    pub fn share(&self) -> Result<ReadText, AllocError>
        ensures { IfOk result (λ text. text ≡ self.now) }
    {
        let reading = self.reading.clone()?;
        Ok(ReadText { reading })
    }

    /// The bytes, in order.
    pub fn as_bytes(&self) -> &[u8]
        ensures { result.now ≡ self.now }
    {
        self.reading.text.as_bytes()
    }

    /// Whether the text is this one.
    pub fn is_of(&self, text: &SharedText) -> bool
        ensures { result ≡ bytes_eq self.now text.now }
    {
        self.reading.text.is(text)
    }

    /// The imports of the text, in order, where it is a module, and none where it is no module.
    pub fn imports(&self) -> &Option<Vec<Import>>
        ensures { option_map imports_syntax result.now ≡ imports_of self.now }
    {
        &self.reading.imports
    }
}
