//! Marks at positions of a context, for walks that go from the newest to the oldest.

ghost use Rattle.std.specs.Prelude.{◌≡◌, ℕ, ◌+◌, ◌-◌, ◌*◌, ◌/◌, ◌%◌, ◌<◌, ◌≤◌, true, false, [], length, slice_set, OnOk, OnErr, MatchOption};
ghost use Rattle.std.specs.Int.{bit_at};
ghost use Rattle.cc_sets.specs.Marked.{is_marked, IsClear, IsLastMarked, marks_of};

use std::alloc::{AllocError, Global};
use std::marker::Model;

// A word has the marks of 64 positions.
const WORD: usize = 64;

/// Marks at positions. Contracts see the list that says of each position for which there is room whether it is marked.
#[derive(Drop)]
pub struct Marks {
    words: Vec<u64>,
}

impl Model for Marks {
    ghost use Rattle.std.specs.Prelude.{List, Bool, ◌≤◌, length};
    ghost use Rattle.cc_sets.specs.Marked.{marks_of};

    ghost Value = { List Bool };

    ghost view = { λ m. marks_of m.words.items };

    ghost invariant = { λ m. length m.words.items ≤ 67108864 };
}

// How many words have the marks of so many positions.
fn words_for(count: u32) -> usize
    ensures enough { count ≤ 64 * result }
    ensures least { 64 * result < count + 64 }
{
    (count as usize + 63) / WORD
}

// Marks the position in the words.
fn mark_in(words: &mut [u64], position: u32)
    requires { position < 64 * length words.old }
    ensures { marks_of words.new ≡ slice_set (marks_of words.old) position true }
{
    let at = position as usize / WORD;
    let bit = 63 - position % 64;
    words[at] |= 1u64 << bit;
}

// Takes the mark away from the position in the words.
fn unmark_in(words: &mut [u64], position: u32)
    requires { position < 64 * length words.old }
    ensures { marks_of words.new ≡ slice_set (marks_of words.old) position false }
{
    let at = position as usize / WORD;
    let bit = 63 - position % 64;
    words[at] &= !(1u64 << bit);
}

// The greatest position that is marked in a word that has marks, where it is the word at the index.
fn last_in(at: usize, word: u64) -> u32
    requires few { at < 67108864 }
    requires some { 0 < word }
    ensures place { result / 64 ≡ at }
    ensures marked { bit_at word (63 - result % 64) ≡ 1 }
    ensures last { (position : ℕ) → result < position → position / 64 ≡ at → bit_at word (63 - position % 64) ≡ 0 }
{
    (at * WORD + (63 - word.trailing_zeros() as usize)) as u32
}

// The greatest position that is marked in the words, where none from the limit on is.
fn last_marked(words: &[u64], limit: u32) -> Option<u32>
    requires few { length words.now ≤ 67108864 }
    requires within { limit ≤ 64 * length words.now }
    requires above { (position : ℕ) → limit ≤ position → is_marked position (marks_of words.now) ≡ false }
    ensures { MatchOption result (IsClear (marks_of words.now)) (λ position. IsLastMarked position (marks_of words.now)) }
{
    let mut at = words_for(limit);
    while at > 0 {
        at -= 1;
        let word = words[at];
        if word != 0 {
            return Some(last_in(at, word));
        }
    }
    None
}

// Takes all marks away, where no position from the limit on is marked.
fn clear_words(words: &mut [u64], limit: u32)
    requires within { limit ≤ 64 * length words.old }
    requires above { (position : ℕ) → limit ≤ position → is_marked position (marks_of words.old) ≡ false }
    ensures { IsClear (marks_of words.new) }
{
    for at in 0..words_for(limit) {
        words[at] = 0;
    }
}

impl Marks {
    /// No marks, with no room. It takes no memory.
    #[tactic(auto, unfolding(crate::specs::Marked::marks_of))]
    pub fn new(alloc: Global) -> Marks
        ensures { result ≡ [] }
    {
        Marks {
            words: Vec::new(alloc),
        }
    }

    /// Makes room for so many positions at least. What was marked stays marked, and nothing else is.
    ///
    /// Fails only for want of memory, and leaves the marks as they were then.
    pub fn reserve(&mut self, n: u32) -> Result<(), AllocError>
        ensures room { OnOk result (n ≤ length self.new) }
        ensures wider { OnOk result (length self.old ≤ length self.new) }
        ensures kept { OnOk result ((position : ℕ) → is_marked position self.new ≡ is_marked position self.old) }
        ensures err { OnErr result (self.new ≡ self.old) }
    {
        let count = words_for(n);
        if count > self.words.len() {
            self.words.resize(count, 0)?;
        }
        Ok(())
    }

    /// Marks the position.
    pub fn mark(&mut self, position: u32)
        requires { position < length self.old }
        ensures { self.new ≡ slice_set self.old position true }
    {
        mark_in(self.words.as_mut_slice(), position);
    }

    /// Takes the mark away from the position.
    pub fn unmark(&mut self, position: u32)
        requires { position < length self.old }
        ensures { self.new ≡ slice_set self.old position false }
    {
        unmark_in(self.words.as_mut_slice(), position);
    }

    /// The greatest position that is marked, where none from the limit on is.
    pub fn last_below(&self, limit: u32) -> Option<u32>
        requires within { limit ≤ length self.now }
        requires above { (position : ℕ) → limit ≤ position → is_marked position self.now ≡ false }
        ensures { MatchOption result (IsClear self.now) (λ position. IsLastMarked position self.now) }
    {
        last_marked(self.words.as_slice(), limit)
    }

    /// Takes all marks away, where no position from the limit on is marked.
    pub fn clear_below(&mut self, limit: u32)
        requires within { limit ≤ length self.old }
        requires above { (position : ℕ) → limit ≤ position → is_marked position self.old ≡ false }
        ensures room { length self.new ≡ length self.old }
        ensures clear { IsClear self.new }
    {
        clear_words(self.words.as_mut_slice(), limit);
    }
}
