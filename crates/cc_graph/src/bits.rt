//! Sets of places, as bits in words of 64.

ghost use Rattle.std.specs.Prelude.{◌≡◌, ◌↔◌, ℕ, ◌+◌, ◌*◌, ◌/◌, ◌%◌, ◌<◌, ◌≤◌, nat_eq, true, false, ◌&&◌, ◌||◌, length, IfOk, IsTrue};
ghost use Rattle.cc_graph.specs.Places.{has_bit, width_for};

use std::alloc::{AllocError, Global};
use std::marker::Model;

// A word has the bits of 64 places.
const WORD: usize = 64;

// Whether the place is in the set.
#[tactic(auto, unfolding(crate::specs::Places::has_bit))]
fn has(words: &[u64], place: usize) -> bool
    ensures { result ≡ has_bit words.now place }
{
    let at = place / WORD;
    at < words.len() && (words[at] >> (place % WORD)) & 1 == 1
}

// Puts the place into the set.
fn put(words: &mut [u64], place: usize)
    requires { place < 64 * length words.old }
    ensures { (other : ℕ) → has_bit words.new other ≡ (nat_eq other place || has_bit words.old other) }
{
    words[place / WORD] |= 1u64 << (place % WORD);
}

// Puts what another set has into the set.
fn join(words: &mut [u64], others: &[u64])
    requires { length others.now ≡ length words.old }
    ensures { (place : ℕ) → has_bit words.new place ≡ (has_bit words.old place || has_bit others.now place) }
{
    for at in 0..words.len() {
        words[at] |= others[at];
    }
}

// Whether each place of the set is in the other.
fn is_within(words: &[u64], others: &[u64]) -> bool
    requires { length others.now ≡ length words.now }
    ensures yes { result ≡ true → (place : ℕ) → has_bit words.now place ≡ true → has_bit others.now place ≡ true }
    ensures no { result ≡ false → (place : ℕ) × (has_bit words.now place ≡ true) × (has_bit others.now place ≡ false) }
{
    for at in 0..words.len() {
        if words[at] & !others[at] != 0 {
            return false;
        }
    }
    true
}

/// A set of places. Contracts see its words of 64 bits.
#[derive(Drop)]
pub struct Row {
    words: Vec<u64>,
}

impl Model for Row {
    ghost use Rattle.std.specs.Prelude.{List, ℕ};

    ghost Value = { List ℕ };

    ghost view = { λ r. r.words.items };
}

impl Row {
    /// The empty set, with room for so many places.
    pub fn new(alloc: Global, count: usize) -> Result<Row, AllocError>
        ensures room { IfOk result (λ row. length row ≡ width_for count) }
        ensures empty { IfOk result (λ row. (place : ℕ) → has_bit row place ≡ false) }
    {
        let words = vec![in alloc; 0u64; count / WORD + 1]?;
        Ok(Row { words })
    }

    /// Another copy of the set.
    pub fn copy(&self, alloc: Global) -> Result<Row, AllocError>
        ensures { IfOk result (λ row. row ≡ self.now) }
    {
        let words = self.words.as_slice().to_vec(alloc)?;
        Ok(Row { words })
    }

    /// Whether the place is in the set.
    pub fn has(&self, place: usize) -> bool
        ensures { result ≡ has_bit self.now place }
    {
        has(self.words.as_slice(), place)
    }

    /// Puts the place into the set.
    pub fn put(&mut self, place: usize)
        requires { place < 64 * length self.old }
        ensures width { length self.new ≡ length self.old }
        ensures bits { (other : ℕ) → has_bit self.new other ≡ (nat_eq other place || has_bit self.old other) }
    {
        put(self.words.as_mut_slice(), place);
    }

    /// Puts what another set has into the set, where the set has the place.
    pub fn join_where(&mut self, at: usize, others: &Row)
        requires { length others.now ≡ length self.old }
        ensures width { length self.new ≡ length self.old }
        ensures bits { (place : ℕ) → has_bit self.new place ≡ (has_bit self.old place || (has_bit self.old at && has_bit others.now place)) }
    {
        if self.has(at) {
            join(self.words.as_mut_slice(), others.words.as_slice());
        }
    }

    /// Whether each place of the set is in the other.
    pub fn is_within(&self, others: &Row) -> bool
        requires { length others.now ≡ length self.now }
        ensures yes { result ≡ true → (place : ℕ) → has_bit self.now place ≡ true → has_bit others.now place ≡ true }
        ensures no { result ≡ false → (place : ℕ) × (has_bit self.now place ≡ true) × (has_bit others.now place ≡ false) }
    {
        is_within(self.words.as_slice(), others.words.as_slice())
    }
}
