//! Definitions of present modules where they stand.

ghost use Rattle.std.specs.Prelude.{◌≡◌, [], map, MatchOption, None, IfOk};
ghost use Rattle.std.specs.Option.{unwrap_or};
ghost use Rattle.cc_judge.specs.Kept.{judgements_of, IsKept};
ghost use Rattle.cc_verdicts.specs.ModuleVerdicts.{IsAccepted};
ghost use Rattle.cc_verdicts.specs.Readings.{imports_of};
ghost use Rattle.cc_verdicts.specs.StandingDefinitions as plain;
ghost use Rattle.cc_module.specs.Findings.{finding_of};
ghost use Rattle.cc_module.specs.Judgements.{checked_definition_of};
ghost use Rattle.cc_parse.specs.Trees.{import_syntax};
ghost use Rattle.cc_session.specs.StandingAnswers.{AnswersStanding, FindsAt, IsStanding, standing_last};

use crate::refusals::Refused;
use cc_base::code::Code;
use cc_base::device::DeviceDecl;
use cc_base::literal::Import;
use cc_base::name::Name;
use cc_core::Ctx;
use cc_judge::grounds::Grounds;
use cc_judge::last::Last;
use cc_judge::names::place_of_verdict;
use cc_judge::reading::ReadText;
use cc_module::judgement::CheckedDef;
use cc_module::standing::{context_behind, names_behind};
use std::alloc::{AllocError, Global};

/// A definition of an accepted module where it stands.
#[derive(Drop)]
pub struct Standing<'a> {
    /// The context of its right side: the devices, what is found for the imports of its module, the definitions before
    /// it, and itself where it is recursive.
    pub ctx: Ctx,
    /// The names of the positions of that context, in order.
    pub names: Vec<Name>,
    /// The definition.
    pub def: &'a CheckedDef,
}

/// Why there is no definition.
#[derive(Clone, Copy, Debug, PartialEq, Eq)]
pub enum StandingError {
    /// It is refused.
    Refused(Refused),
    /// There is no memory for it.
    NoMemory,
}

// The place of the first definition of the name, if there is one.
fn place_of_definition(defs: &[CheckedDef], name: &Name) -> Option<usize>
    ensures { MatchOption result (plain.first_named name.now (map checked_definition_of defs.now) ≡ None) (λ place. FindsAt name.now defs.now place) }
{
    for place in 0..defs.len() {
        if defs[place].name == *name {
            return Some(place);
        }
    }
    None
}

// The imports of the text, and none where it is no module.
fn imports_in(text: &ReadText) -> &[Import]
    ensures { map import_syntax result.now ≡ unwrap_or (imports_of text.now) [] }
{
    match text.imports() {
        Some(imports) => imports.as_slice(),
        None => &[],
    }
}

// The definition behind these, in a module on these grounds.
fn standing_behind<'a>(
    alloc: Global,
    devices: &[DeviceDecl],
    grounds: &Grounds,
    before: &[CheckedDef],
    def: &'a CheckedDef,
) -> Result<Standing<'a>, AllocError>
    ensures { IfOk result (λ answer. IsStanding devices.now (record { imports = unwrap_or (imports_of grounds.now.text) []; findings = map finding_of grounds.now.findings; before = map checked_definition_of before.now; definition = checked_definition_of def.now }) answer) }
{
    let findings = grounds.findings.as_slice();
    let ctx = context_behind(alloc, devices, findings, before, def)?;
    let imports = imports_in(&grounds.text);
    let names = names_behind(alloc, devices, imports, before, def)?;
    Ok(Standing { ctx, names, def })
}

// The definition of the name in a module that is accepted with these definitions, on these grounds.
fn standing_among<'a>(
    alloc: Global,
    devices: &[DeviceDecl],
    grounds: &Grounds,
    defs: &'a [CheckedDef],
    name: &Name,
) -> Result<Standing<'a>, StandingError>
    ensures { AnswersStanding devices.now (plain.standing_by (unwrap_or (imports_of grounds.now.text) []) (map finding_of grounds.now.findings) (IsAccepted (map checked_definition_of defs.now)) name.now) result }
{
    match place_of_definition(defs, name) {
        Some(place) => {
            match standing_behind(alloc, devices, grounds, &defs[..place], &defs[place]) {
                Ok(answer) => Ok(answer),
                Err(_) => Err(StandingError::NoMemory),
            }
        }
        None => Err(StandingError::Refused(Refused { code: Code::E33 })),
    }
}

/// The definition of the name in the module, as the modules were judged last.
///
/// Refused with `E32` exactly where no such module was judged; else with `E34` exactly where it is not accepted; else
/// with `E33` exactly where it has no definition of the name. Fails besides only for want of memory, and only where it
/// is not refused.
pub(crate) fn standing_in<'a>(
    alloc: Global,
    devices: &[DeviceDecl],
    last: &'a Last,
    module: &Name,
    name: &Name,
) -> Result<Standing<'a>, StandingError>
    requires { IsKept devices.now last.now }
    ensures { AnswersStanding devices.now (standing_last (judgements_of last.now) «module».now name.now) result }
{
    match place_of_verdict(last.verdicts.as_slice(), module) {
        Some(at) => match last.verdicts[at].1.defs() {
            Ok(defs) => standing_among(alloc, devices, &last.grounds[at], defs, name),
            Err(_) => Err(StandingError::Refused(Refused { code: Code::E34 })),
        },
        None => Err(StandingError::Refused(Refused { code: Code::E32 })),
    }
}
