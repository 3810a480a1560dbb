//! Modules by name, and which modules each imports.

ghost use Rattle.std.specs.Prelude.{◌≡◌, ℕ, ◌<◌, ◌||◌, nat_eq, true, length, IfOk, Some, IfSome, MatchOption};
ghost use Rattle.std.specs.List.{list_any};
ghost use Rattle.std.specs.Str.{bytes_eq};
ghost use Rattle.cc_graph.specs.Graph.{IsImportMap, imported};
ghost use Rattle.cc_graph.specs.Places.{name_at};
ghost use Rattle.cc_judge.specs.KnownGraphs.{entries_of};
ghost use Rattle.cc_import_reasoning.specs.Circles.{IsPlaceOf};
ghost use Rattle.cc_import_reasoning.specs.Distances.{is_marked, AreLinks};

use crate::marks::Marks;
use cc_base::name::Name;
use cc_judge::importing::Importing;
use std::alloc::{AllocError, Global};

/// The place of the module of the name.
pub fn place_of(modules: &[Importing], name: &Name) -> Option<usize>
    requires { IsImportMap (entries_of modules.now) }
    ensures { IsPlaceOf (entries_of modules.now) name.now result }
{
    modules
        .binary_search_by(|module| module.name.cmp(name))
        .ok()
}

// Whether the module of the name stands at the place.
fn is_at(modules: &[Importing], at: usize, name: &Name) -> bool
    ensures { result ≡ true → IsPlaceOf (entries_of modules.now) name.now (Some at) }
{
    match modules.get(at) {
        Some(module) => module.name == *name,
        None => false,
    }
}

/// The same, where it may be this place.
pub fn place_near(modules: &[Importing], near: usize, name: &Name) -> Option<usize>
    requires { IsImportMap (entries_of modules.now) }
    ensures { IsPlaceOf (entries_of modules.now) name.now result }
{
    if is_at(modules, near, name) {
        Some(near)
    } else {
        place_of(modules, name)
    }
}

// Marks the place, if there is one.
fn mark(marks: &mut Marks, place: Option<usize>)
    requires { IfSome place (λ at. at < length marks.old) }
    ensures count { length marks.new ≡ length marks.old }
    ensures marks { MatchOption place (marks.new ≡ marks.old) (λ at. (other : ℕ) → is_marked marks.new other ≡ (nat_eq other at || is_marked marks.old other)) }
{
    if let Some(at) = place {
        marks.put(at);
    }
}

// The places of the modules of the names. One name comes again and again, mostly.
fn marks_of(alloc: Global, modules: &[Importing], names: &[Name]) -> Result<Marks, AllocError>
    requires { IsImportMap (entries_of modules.now) }
    ensures count { IfOk result (λ marks. length marks ≡ length modules.now) }
    ensures marks { IfOk result (λ marks. (place : ℕ) → place < length modules.now → is_marked marks place ≡ list_any (bytes_eq (name_at (entries_of modules.now) place)) names.now) }
{
    let mut marks = Marks::new(alloc, modules.len())?;
    let mut near = 0;
    for name in names {
        let place = place_near(modules, near, name);
        mark(&mut marks, place);
        near = place.unwrap_or(near);
    }
    Ok(marks)
}

/// For each module the places of those that it imports from.
pub fn rows_of(alloc: Global, modules: &[Importing]) -> Result<Vec<Marks>, AllocError>
    requires { IsImportMap (entries_of modules.now) }
    ensures count { IfOk result (λ rows. length rows.items ≡ length modules.now) }
    ensures links { IfOk result (λ rows. AreLinks (imported (entries_of modules.now)) (name_at (entries_of modules.now)) rows.items) }
{
    let mut rows = Vec::with_capacity(alloc, modules.len())?;
    for at in 0..modules.len() {
        let row = marks_of(alloc, modules, modules[at].sources.as_slice())?;
        rows.push(row)?;
    }
    Ok(rows)
}
