//! How far places are from one, along links.

ghost use Rattle.std.specs.Prelude.{◌≡◌, ℕ, ◌+◌, ◌<◌, true, false, List, length, slice_set, Some, None, IfOk};
ghost use Rattle.cc_import_reasoning.specs.Distances.{Links, AreLinks, AreKnown, AreKnownTo, HasNear, HasNoneNear, distance_at, is_marked, unknown_count};

use crate::marks::Marks;
use std::alloc::{AllocError, Global};

// Whether the place is marked, and its distance is this one.
fn is_near(row: &Marks, distances: &[Option<usize>], place: usize, links: usize) -> bool
    requires { place < length distances.now }
    ensures yes { result ≡ true → (is_marked row.now place ≡ true) × (distance_at distances.now place ≡ Some links) }
    ensures no { result ≡ false → is_marked row.now place ≡ true → distance_at distances.now place ≡ Some links → ⊥ }
{
    if !row.has(place) {
        return false;
    }
    match distances[place] {
        Some(distance) => distance == links,
        None => false,
    }
}

// Whether at a marked place the distance is this one.
fn has_near(row: &Marks, distances: &[Option<usize>], links: usize) -> bool
    ensures yes { result ≡ true → HasNear row.now distances.now links }
    ensures no { result ≡ false → HasNoneNear row.now distances.now links }
{
    for place in 0..distances.len() {
        if is_near(row, distances, place, links) {
            return true;
        }
    }
    false
}

// Puts the distance of the place, if it is not known, and one link leads to where the distance is this one.
fn reach(row: &Marks, distances: &mut Vec<Option<usize>>, place: usize, links: usize) -> bool
    requires place { place < length distances.old.items }
    requires links { links < 18446744073709551615 }
    ensures yes { result ≡ true → (distance_at distances.old.items place ≡ None) × HasNear row.now distances.old.items links × (distances.new.items ≡ slice_set distances.old.items place (Some (links + 1))) }
    ensures no { result ≡ false → distances.new.items ≡ distances.old.items }
    ensures none { result ≡ false → distance_at distances.old.items place ≡ None → HasNoneNear row.now distances.old.items links }
{
    if distances[place].is_some() {
        return false;
    }
    if !has_near(row, distances.as_slice(), links) {
        return false;
    }
    distances[place] = Some(links + 1);
    true
}

// Puts the distances of all places that are one link farther than this.
fn go_farther(rows: &[Marks], distances: &mut Vec<Option<usize>>, links: usize) -> bool
    requires count { length distances.old.items ≡ length rows.now }
    requires links { links < 18446744073709551615 }
    ensures count { length distances.new.items ≡ length distances.old.items }
    ensures known { (entry : Links) (named : ℕ → List ℕ) (end : ℕ) → AreLinks entry named rows.now → end < length rows.now → AreKnownTo entry named (named end) links distances.old.items → AreKnownTo entry named (named end) (links + 1) distances.new.items }
    ensures fewer { result ≡ true → unknown_count distances.new.items < unknown_count distances.old.items }
    ensures same { result ≡ false → distances.new.items ≡ distances.old.items }
{
    let mut changed = false;
    for place in 0..rows.len() {
        if reach(&rows[place], &mut *distances, place, links) {
            changed = true;
        }
    }
    changed
}

// Nothing is known of so many places.
#[tactic(auto, using(crate::proofs::FartherDistances::none_more))]
fn unknown(alloc: Global, count: usize) -> Result<Vec<Option<usize>>, AllocError>
    ensures count { IfOk result (λ all. length all.items ≡ count) }
    ensures none { IfOk result (λ all. (place : ℕ) → distance_at all.items place ≡ None) }
{
    let mut all = Vec::with_capacity(alloc, count)?;
    for _place in 0..count {
        all.push(None)?;
    }
    Ok(all)
}

/// How many links lead from each place to the end, at least; none where no way leads there.
///
/// Fails only for want of memory.
pub fn distances(
    alloc: Global,
    rows: &[Marks],
    end: usize,
) -> Result<Vec<Option<usize>>, AllocError>
    requires { end < length rows.now }
    ensures count { IfOk result (λ all. length all.items ≡ length rows.now) }
    ensures known { IfOk result (λ all. (entry : Links) (named : ℕ → List ℕ) → AreLinks entry named rows.now → AreKnown entry named (named end) all.items) }
{
    let mut distances = unknown(alloc, rows.len())?;
    distances[end] = Some(0);
    for links in 0..rows.len() {
        if !go_farther(rows, &mut distances, links) {
            return Ok(distances);
        }
    }
    unreachable!()
}
