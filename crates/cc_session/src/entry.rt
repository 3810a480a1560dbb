//! Entries.
ghost use Rattle.cc_core.specs.Programs.{IsEntry};
ghost use Rattle.cc_session.specs.Modules.{entry_in};
ghost use Rattle.cc_entry_laws.specs.PresentEntries.{program_entry};

use crate::modules::EntryModule;
use cc_base::literal::Base;
use cc_base::name::Name;

/// An entry: the shapes of the devices, by their numbers; the modules, each of which comes after those that it imports
/// from; the names of the module and of the definition that is run; and the numbers of the devices that it may operate,
/// rising.
///
/// By its type the devices are of device shapes; names of modules differ, and so do those of the definitions of one
/// module; each import names a definition of an earlier module; definitions are values, and have the types of their
/// signatures, which name devices alone; the definition that is run takes a unit; and the devices that it may operate
/// are those that its signature gives leave to use.
#[derive(Drop)]
pub struct Entry {
    pub devices: Vec<Base>,
    pub modules: Vec<EntryModule>,
    pub module: Name,
    pub def: Name,
    pub authority: Vec<u32>,
    pub ghost is_entry: { ∥ IsEntry (program_entry (entry_in devices.items modules.items «module» def authority.items)) ∥₁ },
}

impl Entry {
    ghost use Rattle.std.specs.Prelude.{◌≡◌};
    ghost use Rattle.cc_session.specs.Entries.{entry_of};

    /// The entry of these parts. It takes no memory.
    pub fn new(
        devices: Vec<Base>,
        modules: Vec<EntryModule>,
        module: Name,
        def: Name,
        authority: Vec<u32>,
    ) -> Entry
        requires { ∥ IsEntry (program_entry (entry_in devices.items modules.items «module» def authority.items)) ∥₁ }
        ensures { entry_of result ≡ entry_in devices.items modules.items «module» def authority.items }
    {
        Entry {
            devices,
            modules,
            module,
            def,
            authority,
        }
    }
}
