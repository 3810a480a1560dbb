ghost use Rattle.std.specs.Prelude.{◌≡◌, length, slice_get, IfOk, OnOk, OnErr, IsTrue, ◌↔◌};
ghost use Rattle.std.specs.Cmp.{partial_equiv_from_equiv};
ghost use Rattle.std.specs.Iterator.{YieldsFirst, item_count};
ghost use Rattle.cc_capture.specs.Sets as set;

use crate::numbers::{element_at, element_number};
use crate::var::Elem;
use crate::words;
use crate::words::Word;
use std::alloc::{AllocError, Global};
use std::marker::Model;

/// A capture set. Contracts see the rising list of its elements, with the proof that it rises.
// Each element has a number, and numbers rise in the order of elements: the set is that of their bits.
#[derive(Drop)]
pub struct CapSet {
    words: Vec<Word>,
}

impl Model for CapSet {
    ghost use Rattle.cc_capture.specs.Sets.{Set, set_code, from_list};
    ghost use Rattle.cc_capture.specs.Words.{IsSparse, elements};
    ghost use Rattle.cc_capture.specs.contracts.var.Elem as element;

    ghost Value = { Set };

    ghost coded = { set_code element.the_row.coded };

    ghost view = { λ s. from_list (elements s.words.items) };

    ghost invariant = { λ s. IsSparse s.words.items };
}

impl CapSet {
    /// The set with no element. It takes no memory.
    pub fn new(alloc: Global) -> CapSet
        ensures { result ≡ set.empty }
    {
        CapSet {
            words: Vec::new(alloc),
        }
    }

    /// The allocator that the set takes its memory from.
    pub fn allocator(&self) -> Global {
        *self.words.allocator()
    }

    /// The set of the elements of a slice, in whatever order and however often they stand there.
    pub fn from_elems(alloc: Global, elems: &[Elem]) -> Result<CapSet, AllocError>
        ensures { IfOk result (λ s. s ≡ set.from_list elems.now) }
    {
        let mut set = CapSet::new(alloc);
        for elem in elems {
            set.insert(*elem)?;
        }
        Ok(set)
    }

    /// Whether the element is in the set.
    pub fn contains(&self, elem: Elem) -> bool
        ensures { result ≡ set.contains elem self.now }
    {
        words::holds(self.words.as_slice(), element_number(elem))
    }

    /// How many elements the set has.
    pub fn len(&self) -> usize
        ensures { result ≡ length self.now.list }
    {
        words::count(self.words.as_slice())
    }

    /// Whether the set has no element.
    pub fn is_empty(&self) -> bool
        ensures { IsTrue result ↔ (self.now ≡ set.empty) }
    {
        self.words.len() == 0
    }

    /// The element at an index in the order of elements, if the set has so many.
    pub fn get(&self, index: usize) -> Option<Elem>
        ensures { result ≡ slice_get self.now.list index }
    {
        let number = words::number_at(self.words.as_slice(), index)?;
        Some(element_at(number))
    }

    /// Goes over the elements in their order. It takes no memory.
    pub fn iter(&self) -> Elems<'_>
        ensures { result ≡ self.now.list }
    {
        Elems {
            word: Word { at: 0, bits: 0 },
            words: self.words.as_slice(),
        }
    }

    /// Puts the element into the set, unless it is there.
    ///
    /// Fails only for want of memory, and leaves the set as it was then.
    pub fn insert(&mut self, elem: Elem) -> Result<(), AllocError>
        ensures ok { OnOk result (self.new ≡ set.insert elem self.old) }
        ensures err { OnErr result (self.new ≡ self.old) }
    {
        words::insert_number(&mut self.words, element_number(elem))
    }

    /// Takes the element out of the set, if it is there.
    pub fn remove(&mut self, elem: Elem)
        ensures { self.new ≡ set.remove elem self.old }
    {
        words::remove_number(&mut self.words, element_number(elem));
    }

    /// The set of the elements of both sets.
    pub fn union(&self, alloc: Global, other: &CapSet) -> Result<CapSet, AllocError>
        ensures { IfOk result (λ s. s ≡ set.union self.now other.now) }
    {
        let words = words::join(alloc, self.words.as_slice(), other.words.as_slice())?;
        Ok(CapSet { words })
    }

    /// Whether each element of this set is in the other.
    pub fn is_subset(&self, other: &CapSet) -> bool
        ensures { result ≡ set.is_subset self.now other.now }
    {
        words::is_within(self.words.as_slice(), other.words.as_slice())
    }
}

/// What a walk over a set has still to go over. Contracts see the list of these elements.
#[derive(Drop)]
pub struct Elems<'a> {
    // What is left of one word, before the others.
    word: Word,
    words: &'a [Word],
}

impl<'a> Model for Elems<'a> {
    ghost use Rattle.std.specs.Prelude.{List};
    ghost use Rattle.std.specs.Coded.{codes};
    ghost use Rattle.std.specs.Prelude.{◌∷◌};
    ghost use Rattle.cc_capture.specs.declared.var.Elem.{Elem};
    ghost use Rattle.cc_capture.specs.contracts.var.Elem as element;
    ghost use Rattle.cc_capture.specs.Words.{IsBounded, IsSparse, elements};

    ghost Value = { List Elem };

    ghost coded = { Prim.hlevel (codes, element.the_row.coded) };

    ghost view = { λ s. elements (s.word ∷ s.words.now) };

    ghost invariant = { λ s. IsBounded s.word × IsSparse s.words.now };
}

impl<'a> Iterator for Elems<'a> {
    type Item = Elem;

    ghost next_gives = { YieldsFirst (λ s. s) };

    ghost remaining = { item_count (λ s. s) };

    fn next(&mut self) -> Option<Elem> {
        if self.word.bits == 0 {
            let (first, others) = self.words.split_first()?;
            self.word = *first;
            self.words = others;
        }
        let (number, others) = words::split_lowest(self.word);
        self.word = others;
        Some(element_at(number))
    }
}

/// A clone is the same set. It fails only for want of memory.
impl Clone for CapSet {
    ghost is_clone = { λ s copy. copy ≡ s };

    fn clone(&self) -> Result<CapSet, AllocError> {
        let words = self.words.clone()?;
        Ok(CapSet { words })
    }
}

/// Sets are equal where they have the same elements.
impl PartialEq for CapSet {
    ghost eq = { set.same_set };

    ghost laws = { partial_equiv_from_equiv set.same_set-equivalence };

    fn eq(&self, other: &CapSet) -> bool {
        words::same_words(self.words.as_slice(), other.words.as_slice())
    }
}

impl Eq for CapSet {
    ghost laws = { set.same_set-equivalence };
}
