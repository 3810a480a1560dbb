//! Modules of an entry.
use cc_base::literal::Import;
use cc_base::name::Name;
use cc_module::judgement::CheckedDef;

/// A module of an entry: its name, its imports and its checked definitions, in order.
#[derive(Drop)]
pub struct EntryModule {
    pub name: Name,
    pub imports: Vec<Import>,
    pub defs: Vec<CheckedDef>,
}
