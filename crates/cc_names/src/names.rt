//! Names, found by their texts.

ghost use Rattle.std.specs.Prelude.{◌≡◌, ◌≤◌, ℕ, List, [], length, position, encode_utf8_all, true, Some, IfOk, OnOk, is_some, if◌then◌else◌};
ghost use Rattle.std.specs.List.{list_any};
ghost use Rattle.std.specs.Str.{bytes_eq};
ghost use Rattle.indexmap.specs.IndexSet.{insert_key};
ghost use Rattle.cc_names.specs.Places.{place_in};

use cc_base::name::Name;
use std::alloc::{AllocError, Global};
use std::collections::BTreeMap;
use std::marker::Model;

// Gives the text, which has a place, this one.
fn put_back(places: &mut BTreeMap<Vec<u8>, usize>, text: &[u8], place: usize)
    requires { is_some (place_in places.old text.now) ≡ true }
    ensures { (other : List ℕ) → place_in places.new other ≡ (if bytes_eq text.now other then Some place else place_in places.old other) }
{
    match places.get_mut(text) {
        Some(stored) => *stored = place,
        None => {}
    }
}

/// Names that differ, in order. Contracts see their list.
#[derive(Drop)]
pub struct Names {
    names: Vec<Name>,
    places: BTreeMap<Vec<u8>, usize>,
    alloc: Global,
}

impl Model for Names {
    ghost use Rattle.std.specs.Prelude.{List, ℕ};
    ghost use Rattle.cc_names.specs.Places.{FindsPlaces};

    ghost Value = { List (List ℕ) };

    ghost view = { λ n. n.names.items };

    ghost invariant = { λ n. FindsPlaces n.places n.names.items };
}

impl Names {
    // The number of names before the one of the text, if it is that of one of these.
    fn place_of(&self, text: &[u8]) -> Option<usize>
        ensures { result ≡ position (λ name. bytes_eq text.now (encode_utf8_all name)) self.now }
    {
        self.places.get(text).copied()
    }

    // The number of names before the name, if it is one of these.
    fn named(&self, name: &Name) -> Option<usize>
        ensures { result ≡ position (bytes_eq name.now) self.now }
    {
        self.place_of(name.as_str().as_bytes())
    }

    /// No name. It takes no memory.
    pub fn new(alloc: Global) -> Names
        ensures { result ≡ [] }
    {
        Names {
            names: Vec::new(alloc),
            places: BTreeMap::new(alloc),
            alloc,
        }
    }

    /// Whether the name is one of these.
    pub fn contains(&self, name: &Name) -> bool
        ensures { result ≡ list_any (bytes_eq name.now) self.now }
    {
        self.named(name).is_some()
    }

    /// The number of names before the name, if it is one of these. Fails only where that is beyond 2^32 - 1.
    pub fn position(&self, name: &Name) -> Result<Option<u32>, AllocError>
        ensures { IfOk result (λ p. p ≡ position (bytes_eq name.now) self.now) }
    {
        match self.named(name) {
            Some(index) => match u32::try_from(index) {
                Ok(place) => Ok(Some(place)),
                Err(_) => Err(AllocError),
            },
            None => Ok(None),
        }
    }

    /// The number of names before the one that the bytes spell, if they spell one of these.
    pub fn spelled(&self, word: &[u8]) -> Option<u32>
        requires { length self.now ≤ 4294967296 }
        ensures { result ≡ position (λ name. bytes_eq word.now (encode_utf8_all name)) self.now }
    {
        match self.place_of(word) {
            Some(index) => Some(index as u32),
            None => None,
        }
    }

    /// Puts the name last, unless it is one of these. Fails only for want of memory.
    pub fn add(&mut self, name: &Name) -> Result<(), AllocError>
        ensures { OnOk result (self.new ≡ insert_key bytes_eq self.old name.now) }
    {
        let copy = name.clone()?;
        let text = name.as_str().as_bytes().to_vec(self.alloc)?;
        let place = self.names.len();
        self.names.reserve(1)?;
        match self.places.insert(text, place)? {
            Some(earlier) => {
                put_back(&mut self.places, name.as_str().as_bytes(), earlier);
                Ok(())
            }
            None => {
                self.names.push_reserved(copy);
                Ok(())
            }
        }
    }
}
