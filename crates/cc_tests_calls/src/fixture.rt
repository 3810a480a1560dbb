//! Three devices, and what is found for a text without imports beside them.
ghost use Rattle.std.specs.Prelude.{◌≡◌, ◌<◌, false, [], IfOk, IfSome};
ghost use Rattle.std.specs.Str.{bytes_eq};
ghost use Rattle.cc_verdicts.specs.ModuleLaws.{NamesOfDevicesDiffer};
ghost use Rattle.cc_module.specs.Judgements.{module_verdict_of, IsSoundIfAccepted};

use cc_base::device::{DeviceDecl, Kind, Numbers};
use cc_base::name::{Name, NameError};
use cc_base::steps::Steps;
use cc_module::judgement::ModuleVerdict;
use cc_module::judging::check_module;
use cc_text_reading::imports::imports_of;
use std::alloc::{AllocError, Global};
use std::marker::Brand;
use std::sync::ledger::{Blank, Ledger};

/// The name that the text is, if it is one.
pub(crate) fn name(alloc: Global, text: &str) -> Result<Option<Name>, AllocError> {
    match Name::read(alloc, text) {
        Ok(name) => Ok(Some(name)),
        Err(NameError::NotAName) => Ok(None),
        Err(NameError::NoMemory) => Err(AllocError),
    }
}

// A console, a counter and a file, whose names differ.
fn three(alloc: Global, out: Name, hits: Name, log: Name) -> Result<Vec<DeviceDecl>, AllocError>
    requires first { bytes_eq out hits ≡ false }
    requires second { bytes_eq out log ≡ false }
    requires third { bytes_eq hits log ≡ false }
    ensures { IfOk result (λ devices. NamesOfDevicesDiffer devices.items) }
{
    let devices = Vec::from_array(
        alloc,
        [
            DeviceDecl {
                name: out,
                kind: Kind::Console,
            },
            DeviceDecl {
                name: hits,
                kind: Kind::Counter,
            },
            DeviceDecl {
                name: log,
                kind: Kind::File(Numbers::new(Vec::new(alloc))),
            },
        ],
    )?;
    Ok(devices)
}

// The same; none where two of the names are one.
fn three_if_differing(
    alloc: Global,
    out: Name,
    hits: Name,
    log: Name,
) -> Result<Option<Vec<DeviceDecl>>, AllocError>
    ensures { IfOk result (λ devices. IfSome devices (λ d. NamesOfDevicesDiffer d.items)) }
{
    if out == hits {
        return Ok(None);
    }
    if out == log {
        return Ok(None);
    }
    if hits == log {
        return Ok(None);
    }
    Ok(Some(three(alloc, out, hits, log)?))
}

/// A console `out`, a counter `hits` and a file `log`.
pub(crate) fn devices(alloc: Global) -> Result<Option<Vec<DeviceDecl>>, AllocError>
    ensures { IfOk result (λ devices. IfSome devices (λ d. NamesOfDevicesDiffer d.items)) }
{
    match (
        name(alloc, "out")?,
        name(alloc, "hits")?,
        name(alloc, "log")?,
    ) {
        (Some(out), Some(hits), Some(log)) => three_if_differing(alloc, out, hits, log),
        _ => Ok(None),
    }
}

// The verdict of a text without imports, with a counter of its own.
fn counted<L: Ledger>(
    alloc: Global,
    text: &[u8],
    devices: &[DeviceDecl],
    blank: Blank,
) -> Result<Option<ModuleVerdict>, AllocError>
    requires name { blank.name ≡ L.name }
    requires parts { blank.parts ≡ L.parts }
    requires some { 0 < L.parts }
    requires names { NamesOfDevicesDiffer devices.now }
    ensures { IfOk result (λ verdict. IfSome verdict (λ v. IsSoundIfAccepted devices.now [] (module_verdict_of v))) }
{
    let count = match imports_of(alloc, text)? {
        Some(imports) => imports.len(),
        None => 0,
    };
    if count != 0 {
        return Ok(None);
    }
    let mut steps = Steps::<L>::new(blank);
    let verdict = check_module(alloc, text, devices, &[], &mut steps)?;
    Ok(Some(verdict))
}

/// The verdict of the text; none where it has imports.
pub(crate) fn judged(
    alloc: Global,
    text: &[u8],
    devices: &[DeviceDecl],
) -> Result<Option<ModuleVerdict>, AllocError>
    requires { NamesOfDevicesDiffer devices.now }
    ensures { IfOk result (λ verdict. IfSome verdict (λ v. IsSoundIfAccepted devices.now [] (module_verdict_of v))) }
{
    counted::<Brand>(alloc, text, devices, Blank::new(1))
}
