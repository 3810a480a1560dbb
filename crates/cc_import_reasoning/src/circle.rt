//! The first of the shortest circles.

ghost use Rattle.std.specs.Prelude.{◌≡◌, ◌↔◌, ℕ, ◌+◌, ◌<◌, true, List, length, map, Some, IfOk, MatchOption, IsTrue};
ghost use Rattle.std.specs.Str.{bytes_eq};
ghost use Rattle.cc_explain.specs.Chains.{IsChain};
ghost use Rattle.cc_graph.specs.Graph.{IsImportMap, imported};
ghost use Rattle.cc_graph.specs.Places.{name_at, imports_at};
ghost use Rattle.cc_judge.specs.KnownGraphs.{entries_of};
ghost use Rattle.cc_reasons.specs.ShortestChains.{IsFirstShortestToEnd};
ghost use Rattle.cc_import_reasoning.specs.Circles.{IsAtDistance, FindsFirstAt, FindsAt};
ghost use Rattle.cc_import_reasoning.specs.Distances.{distance_at, AreKnown};

use crate::distances::distances;
use crate::places::{place_of, rows_of};
use cc_base::name::Name;
use cc_judge::importing::Importing;
use std::alloc::{AllocError, Global};

// Whether the distance of the place is this one.
fn is_distant(distances: &[Option<usize>], at: usize, links: usize) -> bool
    requires { at < length distances.now }
    ensures { (result ≡ true) ↔ (distance_at distances.now at ≡ Some links) }
{
    match distances[at] {
        Some(distance) => distance == links,
        None => false,
    }
}

// The place of the module of the name, if its distance is this one.
fn distant(
    modules: &[Importing],
    distances: &[Option<usize>],
    name: &Name,
    links: usize,
) -> Option<usize>
    requires ordered { IsImportMap (entries_of modules.now) }
    requires count { length distances.now ≡ length (entries_of modules.now) }
    ensures { FindsAt (entries_of modules.now) distances.now links name.now result }
{
    let Some(at) = place_of(modules, name) else {
        return None;
    };
    if !is_distant(distances, at, links) {
        return None;
    }
    Some(at)
}

// The place of the first of the names whose module has this distance.
fn nearest(
    modules: &[Importing],
    distances: &[Option<usize>],
    names: &[Name],
    links: usize,
) -> Option<usize>
    requires ordered { IsImportMap (entries_of modules.now) }
    requires count { length distances.now ≡ length (entries_of modules.now) }
    ensures { FindsFirstAt (entries_of modules.now) distances.now links names.now result }
{
    for name in names {
        if let Some(at) = distant(modules, distances, name, links) {
            return Some(at);
        }
    }
    None
}

// The places on the first of the shortest ways from a place on, whose distance is known, to the end.
fn way(
    alloc: Global,
    modules: &[Importing],
    distances: &[Option<usize>],
    from: usize,
    links: usize,
) -> Result<Vec<usize>, AllocError>
    requires ordered { IsImportMap (entries_of modules.now) }
    requires count { length distances.now ≡ length (entries_of modules.now) }
    requires from { from < length (entries_of modules.now) }
    requires links { distance_at distances.now from ≡ Some links }
    ensures { IfOk result (λ places. (end : ℕ) → end < length (entries_of modules.now) → AreKnown (imported (entries_of modules.now)) (name_at (entries_of modules.now)) (name_at (entries_of modules.now) end) distances.now → IsFirstShortestToEnd (imported (entries_of modules.now)) (bytes_eq (name_at (entries_of modules.now) end)) (name_at (entries_of modules.now) from) (map (name_at (entries_of modules.now)) places.items)) }
{
    let mut places = Vec::new(alloc);
    places.push(from)?;
    let mut at = from;
    let mut left = links;
    while left > 0 {
        left -= 1;
        let names = modules[at].sources.as_slice();
        let Some(next) = nearest(modules, distances, names, left) else {
            return Ok(places);
        };
        places.push(next)?;
        at = next;
    }
    Ok(places)
}

/// The places of the modules on the first of the shortest chains of imports from a module to the end: from the one on, in
/// order, to the other. None where imports do not lead there.
///
/// Each import of a module is looked at once for where it leads, and once more where its module is on the chain. Fails only
/// for want of memory.
pub fn shortest(
    alloc: Global,
    modules: &[Importing],
    from: usize,
    end: usize,
) -> Result<Option<Vec<usize>>, AllocError>
    requires ordered { IsImportMap (entries_of modules.now) }
    requires from { from < length modules.now }
    requires end { end < length modules.now }
    ensures { IfOk result (λ found. MatchOption found ((chain : List (List ℕ)) (to : List ℕ) → IsTrue (bytes_eq (name_at (entries_of modules.now) end) to) → IsChain (imported (entries_of modules.now)) (name_at (entries_of modules.now) from) to chain → ⊥) (λ places. IsFirstShortestToEnd (imported (entries_of modules.now)) (bytes_eq (name_at (entries_of modules.now) end)) (name_at (entries_of modules.now) from) (map (name_at (entries_of modules.now)) places.items))) }
{
    let rows = rows_of(alloc, modules)?;
    let known = distances(alloc, rows.as_slice(), end)?;
    match known[from] {
        Some(links) => {
            let places = way(alloc, modules, known.as_slice(), from, links)?;
            Ok(Some(places))
        }
        None => Ok(None),
    }
}
