//! A filling: a set for each hole.

ghost use Rattle.std.specs.Prelude.{◌≡◌, slice_get, option_map};

use cc_capture::CapSet;
use std::marker::Model;

/// A set for each hole, by the number of the hole. Contracts see the list of the sets.
#[derive(Drop)]
pub struct Filling {
    sets: Vec<CapSet>,
}

impl Model for Filling {
    ghost use Rattle.std.specs.Prelude.{List};
    ghost use Rattle.std.specs.Coded.{codes};
    ghost use Rattle.cc_capture.specs.Sets.{Set};
    ghost use Rattle.cc_capture.specs.contracts.set.CapSet as set;

    ghost Value = { List Set };

    ghost coded = { Prim.hlevel (codes, set.the_row.coded) };

    ghost view = { λ f. f.sets.items };
}

impl Filling {
    /// The sets of the holes, in order of the holes' numbers.
    pub fn new(sets: Vec<CapSet>) -> Filling
        ensures { result ≡ sets.items }
    {
        Filling { sets }
    }

    /// The sets, in order of the holes' numbers.
    pub fn as_slice(&self) -> &[CapSet]
        ensures { result.now ≡ self.now }
    {
        self.sets.as_slice()
    }

    /// The set of the hole, if there are so many.
    pub fn get(&self, hole: u32) -> Option<&CapSet>
        ensures { option_map (λ s. s.now) result ≡ slice_get self.now hole }
    {
        self.sets.get(hole as usize)
    }
}
