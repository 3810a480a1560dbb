//! What is answered to a module with its claims.

ghost use Rattle.std.specs.Prelude.{map, IfOk};
ghost use Rattle.cc_parse.specs.Trees.{module_syntax};
ghost use Rattle.cc_verdicts.specs.ModuleLaws.{NamesOfDevicesDiffer};
ghost use Rattle.cc_vouching.specs.VouchedModules.{Answered, HasAnswer};
ghost use Rattle.cc_module_vouching.specs.AnswerViews.{answer_of};
ghost use Rattle.cc_module_vouching.specs.ClaimViews.{claim_of, claimed_module_of};
ghost use Rattle.cc_module_vouching.specs.KeptFindings.{KeepsAnswers};
ghost use Rattle.cc_module_vouching.specs.AnsweredTexts.{AnswersTree, AnswersFound};

use crate::answered::AnsweredModules;
use crate::claims::{Claim, ClaimedModule};
use crate::definitions::answer_definitions;
use crate::known::known_before;
use cc_base::code::Diag;
use cc_base::device::DeviceDecl;
use cc_base::name::Name;
use cc_core::Ty;
use cc_mnf::ElaborateError;
use cc_mnf::elaborate::elaborate;
use cc_parse::tree::Module;
use cc_text_reading::reading::{TextReading, read};
use cc_vouch::definitions::{Reason, Vouched};
use std::alloc::{AllocError, Global};

/// What is answered to a module.
#[derive(Drop)]
pub enum Answer {
    /// It is vouched for, with these definitions, in order.
    Vouches(Vec<Vouched>),
    /// Its text is refused.
    RefusesText(Diag),
    /// The definition of the name is the first that is not vouched for, for this reason.
    RefusesDefinition(Name, Reason),
}

// What is answered to a tree for whose devices and imports these binds are known.
fn answer_found(
    alloc: Global,
    devices: &[DeviceDecl],
    known: Vec<(Name, Ty)>,
    tree: &Module,
    claims: &[Claim],
) -> Result<Answer, AllocError>
    requires { NamesOfDevicesDiffer devices.now }
    ensures { IfOk result (λ a. AnswersFound devices.now known.items (module_syntax tree.now) (map claim_of claims.now) (answer_of a)) }
{
    match elaborate(alloc, tree, devices) {
        Ok(core) => answer_definitions(alloc, devices.len(), known, &core.defs, claims),
        Err(ElaborateError::Refused(diag)) => Ok(Answer::RefusesText(diag)),
        Err(ElaborateError::NoMemory) => Err(AllocError),
    }
}

// What is answered to a tree.
fn answer_tree(
    alloc: Global,
    devices: &[DeviceDecl],
    modules: &AnsweredModules,
    tree: &Module,
    claims: &[Claim],
) -> Result<Answer, AllocError>
    requires { NamesOfDevicesDiffer devices.now }
    ensures { IfOk result (λ a. AnswersTree devices.now modules.now (module_syntax tree.now) (map claim_of claims.now) (answer_of a)) }
{
    let before = known_before(alloc, devices, modules, &tree.imports)?;
    match before {
        Ok(known) => answer_found(alloc, devices, known, tree, claims),
        Err(diag) => Ok(Answer::RefusesText(diag)),
    }
}

/// What is answered to a module with its claims beside the devices, whose names differ, behind the modules that were
/// answered. There is one such answer. Fails only for want of memory, as which a number past 2^32 - 1 counts.
pub fn answer_module(
    alloc: Global,
    devices: &[DeviceDecl],
    modules: &AnsweredModules,
    module: &ClaimedModule,
) -> Result<Answer, AllocError>
    requires { NamesOfDevicesDiffer devices.now }
    ensures { IfOk result (λ a. (answered : Answered) → KeepsAnswers modules.now answered → HasAnswer devices.now answered (claimed_module_of module.now) (answer_of a)) }
{
    let source = module.source.as_slice();
    let claims = module.claims.as_slice();
    let reading = read(alloc, source)?;
    match reading {
        TextReading::Tree(tree) => answer_tree(alloc, devices, modules, &tree, claims),
        TextReading::NoModule(diag) => Ok(Answer::RefusesText(diag)),
    }
}
