//! The present modules, what each imports, and where imports lead.

ghost use Rattle.std.specs.Prelude.{◌≡◌, ◌⊎◌, ◌↔◌, ℕ, ◌+◌, ◌*◌, ◌/◌, ◌<◌, ◌≤◌, nat_eq, true, false, not, ◌&&◌, ◌||◌, [], ◌∷◌, length, reverse, slice_index_or, IfOk, OnOk, OnErr, IsTrue, MatchOption};
ghost use Rattle.std.specs.BTreeMap.{insert_entry};
ghost use Rattle.std.specs.List.{list_any};
ghost use Rattle.std.specs.Str.{bytes_eq};
ghost use Rattle.cc_graph.specs.Graph.{IsImportMap, Reaches, reaches, IsOrder};
ghost use Rattle.cc_base.specs.Names.{compare_names};
ghost use Rattle.cc_graph.specs.Places.{has_bit, has_at, width_for, AreWide, name_at, imports_at, HoldsUp, IsClosed, AreImports, IsImportedFrom};

use crate::bits::Row;
use crate::closure::{close, first_free, held_rows};
use cc_base::name::Name;
use std::alloc::{AllocError, Global};
use std::collections::BTreeMap;
use std::marker::Model;

// The names of the modules that a module imports. Contracts see their list.
#[derive(Drop)]
struct Names {
    names: Vec<Name>,
}

impl Model for Names {
    ghost use Rattle.std.specs.Prelude.{List, ℕ};

    ghost Value = { List (List ℕ) };

    ghost view = { λ n. n.names.items };
}

impl Names {
    // Whether the name is one of them.
    fn has(&self, name: &Name) -> bool
        ensures { result ≡ list_any (bytes_eq name.now) self.now }
    {
        self.names.iter().any(|other| *name == *other)
    }
}

/// The present modules, each with the names of the modules that it imports. Contracts see them as pairs, in order of
/// name.
#[derive(Drop)]
pub struct Imports {
    modules: BTreeMap<Name, Names>,
}

impl Model for Imports {
    ghost use Rattle.cc_graph.specs.Graph.{ImportMap};

    ghost Value = { ImportMap };

    ghost view = { λ i. i.modules.entries };
}

impl Imports {
    /// No modules. It takes no memory.
    pub fn new(alloc: Global) -> Imports
        ensures { result ≡ [] }
    {
        Imports {
            modules: BTreeMap::new(alloc),
        }
    }

    /// Puts in a module with the names of the modules that it imports, in the place of one of its name.
    ///
    /// Fails only for want of memory, and leaves the modules as they were then.
    pub fn insert(&mut self, name: Name, imported: Vec<Name>) -> Result<(), AllocError>
        ensures ok { OnOk result (self.new ≡ insert_entry compare_names self.old name imported.items) }
        ensures err { OnErr result (self.new ≡ self.old) }
    {
        self.modules.insert(name, Names { names: imported })?;
        Ok(())
    }

    /// The graph of the modules.
    ///
    /// Fails only for want of memory.
    pub fn close(self, alloc: Global) -> Result<ImportGraph, AllocError>
        ensures same { IfOk result (λ graph. graph ≡ self) }
        ensures ordered { IfOk result (λ graph. IsImportMap graph) }
    {
        let Imports { modules } = self;
        let modules = modules.into_iter().collect(alloc)?;
        graph_of(alloc, modules)
    }
}

/// The import graph of modules. Contracts see the modules as those of `Imports`.
#[derive(Drop)]
pub struct ImportGraph {
    modules: Vec<(Name, Names)>,
    // For each module those that it imports and that do not reach back.
    held: Vec<Row>,
    // For each module those that it reaches.
    closed: Vec<Row>,
}

impl Model for ImportGraph {
    ghost use Rattle.cc_graph.specs.Graph.{ImportMap};
    ghost use Rattle.cc_graph.specs.Places.{HoldsUp, IsClosed};

    ghost Value = { ImportMap };

    ghost view = { λ g. g.modules.items };

    ghost invariant = { λ g. HoldsUp g.modules.items g.held.items × IsClosed g.modules.items g.closed.items };
}

impl ImportGraph {
    /// Whether imports lead from a module to another: whether there is a path of at least one import. The other need
    /// not be present. It takes no memory.
    pub fn reaches(&self, from: &Name, to: &Name) -> bool
        ensures test { result ≡ reaches self.now from.now to.now }
        ensures path { IsTrue result ↔ Reaches self.now from.now to.now }
    {
        leads(self.modules.as_slice(), self.closed.as_slice(), from, to)
    }

    /// The names of the present modules, each once, in the order in which the next one is always the first by name of
    /// those whose imported modules are absent, are listed, or reach back.
    ///
    /// Fails only for want of memory.
    pub fn order(&self, alloc: Global) -> Result<Vec<Name>, AllocError>
        ensures { IfOk result (λ names. IsOrder self.now names.items) }
    {
        listing(alloc, self.modules.as_slice(), self.held.as_slice())
    }
}

// The place of the module of the name.
fn place_of(modules: &[(Name, Names)], name: &Name) -> Option<usize>
    requires { IsImportMap modules.now }
    ensures { MatchOption result ((place : ℕ) → place < length modules.now → bytes_eq (name_at modules.now place) name.now ≡ false) (λ found. (found < length modules.now) × ((place : ℕ) → place < length modules.now → bytes_eq (name_at modules.now place) name.now ≡ nat_eq place found)) }
{
    modules.binary_search_by(|module| module.0.cmp(name)).ok()
}

// Whether the module of the name stands at the place.
fn is_at(modules: &[(Name, Names)], at: usize, name: &Name) -> bool
    ensures { result ≡ true → (at < length modules.now) × (bytes_eq (name_at modules.now at) name.now ≡ true) }
{
    match modules.get(at) {
        Some(module) => module.0 == *name,
        None => false,
    }
}

// The place of the module of the name, which may be this one.
fn place_near(modules: &[(Name, Names)], near: usize, name: &Name) -> Option<usize>
    requires { IsImportMap modules.now }
    ensures { MatchOption result ((place : ℕ) → place < length modules.now → bytes_eq (name_at modules.now place) name.now ≡ false) (λ found. (found < length modules.now) × ((place : ℕ) → place < length modules.now → bytes_eq (name_at modules.now place) name.now ≡ nat_eq place found)) }
{
    if is_at(modules, near, name) {
        Some(near)
    } else {
        place_of(modules, name)
    }
}

// The places of the modules of the names. One name comes again and again, mostly.
fn places_of(alloc: Global, modules: &[(Name, Names)], names: &[Name]) -> Result<Row, AllocError>
    requires { IsImportMap modules.now }
    ensures width { IfOk result (λ row. length row ≡ width_for (length modules.now)) }
    ensures bits { IfOk result (λ row. (place : ℕ) → place < length modules.now → has_bit row place ≡ list_any (bytes_eq (name_at modules.now place)) names.now) }
    ensures inside { IfOk result (λ row. (place : ℕ) → length modules.now ≤ place → has_bit row place ≡ false) }
{
    let mut row = Row::new(alloc, modules.len())?;
    let mut near = 0;
    for name in names {
        if let Some(place) = place_near(modules, near, name) {
            row.put(place);
            near = place;
        }
    }
    Ok(row)
}

// For each module the places of those that it imports.
fn import_rows(alloc: Global, modules: &[(Name, Names)]) -> Result<Vec<Row>, AllocError>
    requires { IsImportMap modules.now }
    ensures { IfOk result (λ rows. AreImports modules.now rows.items) }
{
    let mut rows = Vec::with_capacity(alloc, modules.len())?;
    for module in modules {
        let row = places_of(alloc, modules, module.1.names.as_slice())?;
        rows.push(row)?;
    }
    Ok(rows)
}

// Other copies of the rows.
fn copies(alloc: Global, rows: &[Row]) -> Result<Vec<Row>, AllocError>
    ensures { IfOk result (λ all. all.items ≡ rows.now) }
{
    let mut all = Vec::with_capacity(alloc, rows.len())?;
    for row in rows {
        let copy = row.copy(alloc)?;
        all.push(copy)?;
    }
    Ok(all)
}

// For each module those that it reaches.
fn closed_rows(
    alloc: Global,
    modules: &[(Name, Names)],
    rows: &[Row],
) -> Result<Vec<Row>, AllocError>
    requires ordered { IsImportMap modules.now }
    requires rows { AreImports modules.now rows.now }
    ensures { IfOk result (λ closed. IsClosed modules.now closed.items) }
{
    let mut closed = copies(alloc, rows)?;
    close(alloc, closed.as_mut_slice())?;
    Ok(closed)
}

// The graph of the modules.
fn graph_of(alloc: Global, modules: Vec<(Name, Names)>) -> Result<ImportGraph, AllocError>
    requires { IsImportMap modules.items }
    ensures same { IfOk result (λ graph. graph ≡ modules.items) }
{
    let rows = import_rows(alloc, modules.as_slice())?;
    let closed = closed_rows(alloc, modules.as_slice(), rows.as_slice())?;
    let held = held_rows(alloc, rows.as_slice(), closed.as_slice())?;
    Ok(ImportGraph {
        modules,
        held,
        closed,
    })
}

// Whether the first module, or one that the row has, imports the name.
fn is_imported_from(modules: &[(Name, Names)], row: &Row, first: usize, to: &Name) -> bool
    ensures yes { result ≡ true → (last : ℕ) × IsImportedFrom modules.now row.now first to.now last }
    ensures no { result ≡ false → (last : ℕ) → IsImportedFrom modules.now row.now first to.now last → ⊥ }
{
    for (last, module) in modules.iter().enumerate() {
        if (last == first || row.has(last)) && module.1.has(to) {
            return true;
        }
    }
    false
}

// Whether the module reaches the other.
fn leads(modules: &[(Name, Names)], closed: &[Row], from: &Name, to: &Name) -> bool
    requires ordered { IsImportMap modules.now }
    requires closed { IsClosed modules.now closed.now }
    ensures { result ≡ reaches modules.now from.now to.now }
{
    let Some(first) = place_of(modules, from) else {
        return false;
    };
    match place_of(modules, to) {
        Some(last) => closed[first].has(last),
        None => is_imported_from(modules, &closed[first], first, to),
    }
}

// The modules in their order.
fn listing(alloc: Global, modules: &[(Name, Names)], held: &[Row]) -> Result<Vec<Name>, AllocError>
    requires { HoldsUp modules.now held.now }
    ensures { IfOk result (λ names. IsOrder modules.now names.items) }
{
    let mut listed = Row::new(alloc, modules.len())?;
    let mut names = Vec::with_capacity(alloc, modules.len())?;
    while let Some(place) = first_free(held, &listed) {
        listed.put(place);
        let name = modules[place].0.clone()?;
        names.push(name)?;
    }
    Ok(names)
}
