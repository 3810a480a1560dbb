//! Explanations of definitions.

ghost use Rattle.std.specs.Prelude.{◌≡◌, map, IfOk};
ghost use Rattle.cc_session.specs.Modules.{module_of};
ghost use Rattle.cc_answers.specs.Explaining.{FindsLinked};

use crate::explaining::chains_of;
use cc_base::name::Name;
use cc_capture::CapSet;
use cc_replies::chains::FoundChain;
use cc_session::modules::EntryModule;
use std::alloc::{AllocError, Global};
use std::rc::Rc;

/// Why each element of a set is in the signature of a definition: the modules that are linked for it, and the chains that
/// were found to the elements.
#[derive(Drop)]
pub struct Explained {
    pub module: Name,
    pub def: Name,
    pub set: CapSet,
    pub modules: Vec<EntryModule>,
    pub found: Vec<FoundChain>,
}

/// Why each element of the set is in the signature of the definition, for which these modules are linked beside so many
/// devices.
///
/// Fails only for want of memory, as which 2^32 - 1 definitions or more count.
pub fn explain(
    alloc: Global,
    devices: u32,
    modules: Vec<EntryModule>,
    module: &Name,
    def: &Name,
    set: &CapSet,
) -> Result<Rc<Explained>, AllocError>
    ensures named { IfOk result (λ it. (it.value.module ≡ «module».now) × (it.value.def ≡ def.now) × (it.value.set ≡ set.now)) }
    ensures modules { IfOk result (λ it. it.value.modules ≡ modules) }
    ensures finds { IfOk result (λ it. FindsLinked devices (map module_of modules.items) «module».now def.now set.now.list it.value.found.items) }
{
    let found = chains_of(alloc, devices, modules.as_slice(), module, def, set)?;
    let module = module.clone()?;
    let def = def.clone()?;
    let set = set.clone()?;
    Ok(Rc::new(
        alloc,
        Explained {
            module,
            def,
            set,
            modules,
            found,
        },
    )?)
}
