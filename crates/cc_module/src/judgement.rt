//! Verdicts of modules.

ghost use Rattle.std.specs.Prelude.{◌≡◌, map, option_map, IfOk, IfErr};
ghost use Rattle.cc_verdicts.specs.ModuleVerdicts.{IsAccepted, IsRefused};
ghost use Rattle.cc_module.specs.Judgements.{checked_definition_of, module_verdict_of, FindsDefinition};

use crate::definitions::Definitions;
use cc_base::code::Diag;
use cc_base::name::Name;
use cc_core::Checked;
use std::alloc::{AllocError, Global};

/// A definition of an accepted module: its name, whether it is recursive, and what it is accepted as.
#[derive(Drop)]
pub struct CheckedDef {
    pub name: Name,
    pub recursive: bool,
    pub checked: Checked,
}

#[derive(Drop)]
enum Judgement {
    Accepted(Definitions),
    Refused(Diag),
}

/// The verdict of a module. It cannot be copied, and `check_module` alone makes one.
#[derive(Drop)]
pub struct ModuleVerdict {
    judgement: Judgement,
}

/// The module is accepted, with these definitions. Fails only for want of memory.
pub(crate) fn accepted(alloc: Global, defs: Vec<CheckedDef>) -> Result<ModuleVerdict, AllocError>
    ensures { IfOk result (λ v. module_verdict_of v ≡ IsAccepted (map checked_definition_of defs.items)) }
{
    let definitions = Definitions::new(alloc, defs)?;
    Ok(ModuleVerdict {
        judgement: Judgement::Accepted(definitions),
    })
}

/// The module is refused.
pub(crate) fn refused(diag: Diag) -> ModuleVerdict
    ensures { module_verdict_of result ≡ IsRefused diag.code diag.place }
{
    ModuleVerdict {
        judgement: Judgement::Refused(diag),
    }
}

impl ModuleVerdict {
    /// The definitions, in order, of a module that is accepted, or else its refusal. It takes no memory.
    pub fn defs(&self) -> Result<&[CheckedDef], Diag>
        ensures ok { IfOk result (λ defs. module_verdict_of self.now ≡ IsAccepted (map checked_definition_of defs.now)) }
        ensures err { IfErr result (λ diag. module_verdict_of self.now ≡ IsRefused diag.code diag.place) }
    {
        match &self.judgement {
            Judgement::Accepted(definitions) => Ok(definitions.as_slice()),
            Judgement::Refused(diag) => Err(*diag),
        }
    }

    /// The first definition of the name, if there is one, in a module that is accepted, or else its refusal. The
    /// definitions before it are not gone over. It takes no memory.
    pub fn definition(&self, name: &Name) -> Result<Option<&CheckedDef>, Diag>
        ensures ok { IfOk result (λ found. FindsDefinition (module_verdict_of self.now) name.now (option_map (λ d. checked_definition_of d.now) found)) }
        ensures err { IfErr result (λ diag. module_verdict_of self.now ≡ IsRefused diag.code diag.place) }
    {
        match &self.judgement {
            Judgement::Accepted(definitions) => Ok(definitions.named(name)),
            Judgement::Refused(diag) => Err(*diag),
        }
    }
}
