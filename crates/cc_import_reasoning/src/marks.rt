//! Marks on places.

ghost use Rattle.std.specs.Prelude.{◌≡◌, ℕ, ◌<◌, ◌||◌, nat_eq, false, length, IfOk};
ghost use Rattle.cc_import_reasoning.specs.Distances.{is_marked};

use std::alloc::{AllocError, Global};
use std::marker::Model;

/// A mark for each place, or none. Contracts see the list.
#[derive(Drop)]
pub struct Marks {
    marks: Vec<bool>,
}

impl Model for Marks {
    ghost use Rattle.std.specs.Prelude.{List, Bool};

    ghost Value = { List Bool };

    ghost view = { λ m. m.marks.items };
}

impl Marks {
    /// No mark at so many places.
    pub fn new(alloc: Global, count: usize) -> Result<Marks, AllocError>
        ensures count { IfOk result (λ marks. length marks ≡ count) }
        ensures none { IfOk result (λ marks. (place : ℕ) → is_marked marks place ≡ false) }
    {
        let marks = vec![in alloc; false; count]?;
        Ok(Marks { marks })
    }

    /// Marks the place.
    pub fn put(&mut self, place: usize)
        requires { place < length self.old }
        ensures count { length self.new ≡ length self.old }
        ensures marks { (other : ℕ) → is_marked self.new other ≡ (nat_eq other place || is_marked self.old other) }
    {
        self.marks[place] = true;
    }

    /// Whether the place is marked.
    pub fn has(&self, place: usize) -> bool
        ensures { result ≡ is_marked self.now place }
    {
        place < self.marks.len() && self.marks[place]
    }
}
