//! Rows of sets of places: which places lead to which, in one step or in some.

ghost use Rattle.std.specs.Prelude.{◌≡◌, ℕ, ◌+◌, ◌*◌, ◌/◌, ◌<◌, ◌≤◌, true, false, not, ◌&&◌, ◌||◌, [], length, slice_index_or, IfOk, OnOk, MatchOption};
ghost use Rattle.cc_graph.specs.Graph.{leads_through};
ghost use Rattle.cc_graph.specs.Places.{has_bit, has_at, width_for, AreWide, places_below, MayCome, IsHeld};

use crate::bits::Row;
use std::alloc::{AllocError, Global};

// What leads to a place leads on to what is in the set.
fn lead_on(rows: &mut [Row], at: usize, others: &Row)
    requires { AreWide (length others.now) rows.old }
    ensures wide { AreWide (length others.now) rows.new }
    ensures bits { (row place : ℕ) → has_at rows.new row place ≡ (has_at rows.old row place || (has_at rows.old row at && has_bit others.now place)) }
{
    for row in rows.iter_mut() {
        row.join_where(at, others);
    }
}

/// From what leads to what in one step, what leads to what in some steps.
pub fn close(alloc: Global, rows: &mut [Row]) -> Result<(), AllocError>
    requires { AreWide (width_for (length rows.old)) rows.old }
    ensures wide { AreWide (width_for (length rows.old)) rows.new }
    ensures closed { OnOk result ((from to : ℕ) → has_at rows.new from to ≡ leads_through (has_at rows.old) (places_below (length rows.old)) from to) }
{
    for at in 0..rows.len() {
        let others = rows[at].copy(alloc)?;
        lead_on(rows, at, &others);
    }
    Ok(())
}

// The places to which a place leads in one step, but for those that lead back.
fn held_by(alloc: Global, at: usize, row: &Row, closed: &[Row]) -> Result<Row, AllocError>
    ensures width { IfOk result (λ held. length held ≡ width_for (length closed.now)) }
    ensures bits { IfOk result (λ held. (place : ℕ) → place < length closed.now → has_bit held place ≡ (has_bit row.now place && not (has_at closed.now place at))) }
    ensures inside { IfOk result (λ held. (place : ℕ) → length closed.now ≤ place → has_bit held place ≡ false) }
{
    let mut held = Row::new(alloc, closed.len())?;
    for (place, back) in closed.iter().enumerate() {
        if row.has(place) && !back.has(at) {
            held.put(place);
        }
    }
    Ok(held)
}

/// For each place those to which it leads in one step, but for those that lead back.
pub fn held_rows(alloc: Global, rows: &[Row], closed: &[Row]) -> Result<Vec<Row>, AllocError>
    requires { length closed.now ≡ length rows.now }
    ensures count { IfOk result (λ held. length held.items ≡ length rows.now) }
    ensures wide { IfOk result (λ held. AreWide (width_for (length rows.now)) held.items) }
    ensures bits { IfOk result (λ held. (from to : ℕ) → from < length rows.now → to < length rows.now → has_at held.items from to ≡ (has_at rows.now from to && not (has_at closed.now to from))) }
    ensures inside { IfOk result (λ held. (from to : ℕ) → length rows.now ≤ to → has_at held.items from to ≡ false) }
{
    let mut all = Vec::with_capacity(alloc, rows.len())?;
    for (at, row) in rows.iter().enumerate() {
        let held = held_by(alloc, at, row, closed)?;
        all.push(held)?;
    }
    Ok(all)
}

/// The first place that is not in the set and whose row is within it.
pub fn first_free(rows: &[Row], listed: &Row) -> Option<usize>
    requires { AreWide (length listed.now) rows.now }
    ensures { MatchOption result ((place : ℕ) → place < length rows.now → IsHeld (slice_index_or rows.now place []) listed.now place) (λ first. (first < length rows.now) × MayCome (slice_index_or rows.now first []) listed.now first × ((place : ℕ) → place < first → IsHeld (slice_index_or rows.now place []) listed.now place)) }
{
    for (place, row) in rows.iter().enumerate() {
        if !listed.has(place) && row.is_within(listed) {
            return Some(place);
        }
    }
    None
}
