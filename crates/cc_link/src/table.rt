//! Where definitions stand in the store, found by their names.
ghost use Rattle.std.specs.Prelude.{◌≡◌, ℕ, List, Some, None, OnOk, if◌then◌else◌};
ghost use Rattle.std.specs.Str.{bytes_eq};
ghost use Rattle.cc_link.specs.Tables.{definition_position, module_position};

use cc_base::name::Name;
use std::alloc::{AllocError, Global};
use std::collections::BTreeMap;

/// Where the definitions of one module stand.
#[derive(Drop)]
pub struct DefinitionTable {
    positions: BTreeMap<Name, u32>,
}

impl DefinitionTable {
    /// No definition. It takes no memory.
    pub fn new(alloc: Global) -> DefinitionTable
        ensures { (name : List ℕ) → definition_position result name ≡ None }
    {
        DefinitionTable {
            positions: BTreeMap::new(alloc),
        }
    }

    /// Gives the name the position, in the place of the one that it had. Fails only for want of memory.
    pub fn add(&mut self, name: &Name, position: u32) -> Result<(), AllocError>
        ensures { OnOk result ((other : List ℕ) → definition_position self.new other ≡ (if bytes_eq name.now other then Some position else definition_position self.old other)) }
    {
        let copy = name.clone()?;
        self.positions.insert(copy, position)?;
        Ok(())
    }

    /// The position of the name, if it has one. It takes no memory.
    pub fn position(&self, name: &Name) -> Option<u32>
        ensures { result ≡ definition_position self.now name.now }
    {
        self.positions.get(name).copied()
    }
}

/// Where the definitions of modules stand.
#[derive(Drop)]
pub struct ModuleTable {
    modules: BTreeMap<Name, DefinitionTable>,
}

impl ModuleTable {
    /// No module. It takes no memory.
    pub fn new(alloc: Global) -> ModuleTable
        ensures { (module_name name : List ℕ) → module_position result module_name name ≡ None }
    {
        ModuleTable {
            modules: BTreeMap::new(alloc),
        }
    }

    /// Gives the module these definitions, in the place of those that it had. Fails only for want of memory.
    pub fn add(&mut self, name: &Name, definitions: DefinitionTable) -> Result<(), AllocError>
        ensures { OnOk result ((module_name other : List ℕ) → module_position self.new module_name other ≡ (if bytes_eq name.now module_name then definition_position definitions other else module_position self.old module_name other)) }
    {
        let copy = name.clone()?;
        self.modules.insert(copy, definitions)?;
        Ok(())
    }

    /// The position of the definition of the module, if there is one. It takes no memory.
    pub fn position(&self, module_name: &Name, name: &Name) -> Option<u32>
        ensures { result ≡ module_position self.now module_name.now name.now }
    {
        match self.modules.get(module_name) {
            Some(definitions) => definitions.position(name),
            None => None,
        }
    }
}
