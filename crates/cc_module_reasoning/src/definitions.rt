//! Which definition of a module is refused first, and why.

ghost use Rattle.std.specs.Prelude.{◌≡◌, length, map, Some, None, IfOk, MatchOption};
ghost use Rattle.cc_core.specs.TermViews.{context_of};
ghost use Rattle.cc_core.specs.Holes.{HolesAreOfParameters};
ghost use Rattle.cc_causes.specs.Views.{binder_names_of};
ghost use Rattle.cc_checking_laws.specs.CheckingLaws.{Fits};
ghost use Rattle.cc_definition_reasoning.specs.Reasons.{IsAnswered};
ghost use Rattle.cc_mnf.specs.CoreModules.{definition_of};
ghost use Rattle.cc_module_reasoning.specs.RefusedDefinitions.{AreExplained};
ghost use Rattle.cc_parse.specs.Trees.{def_syntax, expr_syntax};
ghost use Rattle.cc_reasons.specs.NamedBinders as plain;
ghost use Rattle.cc_reasons.specs.RefusedDefinitions.{names_of_binders};
ghost use Rattle.cc_verdicts.specs.ModuleVerdicts.{to_be_checked};
ghost use Rattle.cc_verdicts.specs.ReadyDefinitions.{AreReady};

use crate::binders::binder_names;
use cc_base::place::Place;
use cc_check::{CheckError, check_known};
use cc_core::{CoreDef, Ctx};
use cc_definition_reasoning::definition::definition_reason;
use cc_definition_reasoning::reason::{DefinitionReason, Reasoned};
use cc_known::Measures;
use cc_module::contexts::with_signature;
use cc_parse::tree::Def;
use cc_type::Instances;
use std::alloc::{AllocError, Global};

/// A definition that is refused: why, where, and how many definitions stand before it.
#[derive(Drop)]
pub struct RefusedDefinition {
    pub reason: DefinitionReason,
    pub at: Place,
    pub before: usize,
}

// Why the definition is refused, with the names that its text has for binders.
fn reason_of(
    alloc: Global,
    ctx: &Ctx,
    devices: u32,
    def: &CoreDef,
    tree: &Def,
) -> Result<Option<Reasoned>, AllocError>
    requires fits { Fits (context_of ctx.now) (to_be_checked (definition_of def.now)) }
    requires holes { HolesAreOfParameters (definition_of def.now).right }
    ensures { IfOk result (IsAnswered devices (context_of ctx.now) (to_be_checked (definition_of def.now)) (plain.binder_names (def_syntax tree.now).right)) }
{
    let binders = binder_names(alloc, &tree.right)?;
    let found = definition_reason(alloc, ctx, devices, def, &binders)?;
    Ok(found)
}

// The reason of a definition behind so many, if it has one.
fn behind(found: Option<Reasoned>, before: usize) -> Option<RefusedDefinition>
    ensures { MatchOption found (result ≡ None) (λ one. result ≡ Some (record { reason = one.reason; at = one.at; before = before })) }
{
    match found {
        Some(Reasoned { reason, at }) => Some(RefusedDefinition { reason, at, before }),
        None => None,
    }
}

/// Which of the definitions is refused first, behind how many, why and where; none where all are accepted. Each is checked in
/// the context of the signatures before it.
///
/// Fails only for want of memory.
pub fn first_refused(
    alloc: Global,
    ctx: Ctx,
    devices: u32,
    defs: &[CoreDef],
    trees: &[Def],
) -> Result<Option<RefusedDefinition>, AllocError>
    requires ready { AreReady (context_of ctx) (map definition_of defs.now) }
    requires even { length trees.now ≡ length defs.now }
    ensures { IfOk result (AreExplained devices (context_of ctx) (map definition_of defs.now) (names_of_binders (map def_syntax trees.now))) }
{
    let mut globals = ctx;
    let mut measures = Measures::new(alloc, devices, globals.len());
    let mut instances = Instances::new(alloc);
    for index in 0..defs.len() {
        let def = &defs[index];
        match check_known(alloc, &globals, devices, def, &mut measures, &mut instances) {
            Ok(checked) => globals = with_signature(alloc, &globals, &checked.sig)?,
            Err(CheckError::Refused(_)) => {
                let found = reason_of(alloc, &globals, devices, def, &trees[index])?;
                return Ok(behind(found, index));
            }
            Err(CheckError::NoMemory) => return Err(AllocError),
        }
    }
    Ok(None)
}
