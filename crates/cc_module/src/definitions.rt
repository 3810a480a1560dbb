//! The definitions of an accepted module, found by their names.

ghost use Rattle.std.specs.Prelude.{◌≡◌, ℕ, List, Some, None, option_map, OnOk, IfOk, if◌then◌else◌};
ghost use Rattle.std.specs.Str.{bytes_eq};
ghost use Rattle.cc_module.specs.DefinitionPlaces.{place_in, first_named, definition_at, FindsFirst};

use crate::judgement::CheckedDef;
use cc_base::name::Name;
use std::alloc::{AllocError, Global};
use std::collections::BTreeMap;

// The places of definitions, by their names.
#[derive(Drop)]
struct Places {
    places: BTreeMap<Name, usize>,
}

impl Places {
    // No places.
    fn new(alloc: Global) -> Places
        ensures { (name : List ℕ) → place_in result name ≡ None }
    {
        Places {
            places: BTreeMap::new(alloc),
        }
    }

    // Gives the name the place, instead of the one that it had.
    fn put(&mut self, name: &Name, place: usize) -> Result<(), AllocError>
        ensures { OnOk result ((other : List ℕ) → place_in self.new other ≡ (if bytes_eq name.now other then Some place else place_in self.old other)) }
    {
        let copy = name.clone()?;
        self.places.insert(copy, place)?;
        Ok(())
    }

    // The place of the name, if it has one.
    fn place(&self, name: &Name) -> Option<usize>
        ensures { result ≡ place_in self.now name.now }
    {
        self.places.get(name).copied()
    }
}

// The places of the definitions. A name leads to the first definition of its own.
fn places_of(alloc: Global, defs: &[CheckedDef]) -> Result<Places, AllocError>
    ensures { IfOk result (λ places. FindsFirst places defs.now) }
{
    let mut places = Places::new(alloc);
    let mut left = defs.len();
    while left > 0 {
        left -= 1;
        places.put(&defs[left].name, left)?;
    }
    Ok(places)
}

// The definition at the place, if there is one.
fn definition_at(defs: &[CheckedDef], place: Option<usize>) -> Option<&CheckedDef>
    ensures { option_map (λ d. d.now) result ≡ definition_at defs.now place }
{
    match place {
        Some(at) => defs.get(at),
        None => None,
    }
}

/// The definitions of an accepted module, in order, with the places of their names.
pub(crate) struct Definitions {
    defs: Vec<CheckedDef>,
    places: Places,
    ghost found: { FindsFirst places defs.items },
}

// Types may share those of definitions before, so the last definition goes first: no chain of types then falls at once.
impl Drop for Definitions {
    fn drop(self) {
        let Definitions { defs, places: _ } = self;
        let mut left = defs;
        while let Some(def) = left.pop() {
            drop(def);
        }
    }
}

impl Definitions {
    /// These definitions. Fails only for want of memory.
    pub(crate) fn new(alloc: Global, defs: Vec<CheckedDef>) -> Result<Definitions, AllocError>
        ensures { IfOk result (λ all. all.defs.items ≡ defs.items) }
    {
        let places = places_of(alloc, defs.as_slice())?;
        Ok(Definitions { defs, places })
    }

    /// The definitions, in order.
    pub(crate) fn as_slice(&self) -> &[CheckedDef]
        ensures { result.now ≡ self.now.defs.items }
    {
        self.defs.as_slice()
    }

    /// The first definition of the name, if there is one.
    pub(crate) fn named(&self, name: &Name) -> Option<&CheckedDef>
        ensures { option_map (λ d. d.now) result ≡ first_named name.now self.now.defs.items }
    {
        definition_at(self.defs.as_slice(), self.places.place(name))
    }
}
