//! Chains of links that were found, and the names of definitions.

use cc_base::name::Name;
use cc_explain::target::Target;

/// The names of a module and of one of its definitions.
#[derive(Drop)]
pub struct DefinitionName<'a> {
    pub module: &'a Name,
    pub def: &'a Name,
}

/// An element of a set, and a chain of links that leads to it.
#[derive(Drop)]
pub struct FoundChain {
    pub target: Target,
    pub chain: Vec<Target>,
}
