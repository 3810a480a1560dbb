//! Demands by where the declared sets of their left sides end.

ghost use Rattle.std.specs.Prelude.{◌≡◌, fold};
ghost use Rattle.std.specs.Cmp.{partial_equiv_from_equiv};
ghost use Rattle.cc_known.specs.EndedDemands as ended;

use cc_capture::{CapSet, Elem, Var};
use std::hash::{Hash, Hasher};

/// Where a demand's left set ends, and what of its right set may be put in for holes: all that fillings over the globals
/// see of it.
#[derive(Drop)]
pub struct EndedDemand {
    pub ends: CapSet,
    pub right: CapSet,
}

// The number by which a variable is hashed.
fn variable_number(variable: Var) -> u32
    ensures { result ≡ ended.number_of (Elem.Var variable) }
{
    match variable {
        Var::Free(position) => position,
        Var::Bound(index) => index,
    }
}

// The number by which an element is hashed.
pub(crate) fn number_of(elem: Elem) -> u32
    ensures { result ≡ ended.number_of elem }
{
    match elem {
        Elem::Var(variable) => variable_number(variable),
        Elem::Cap => 0,
        Elem::Hole(number) => number,
    }
}

// Hashes the members of the set.
fn hash_set<H: Hasher>(set: &CapSet, state: &mut H)
    ensures { state.new ≡ fold H.write state.old (ended.set_input set.now) }
{
    for elem in set.iter() {
        number_of(elem).hash(state);
    }
}

/// Demands are equal where their sets are.
impl PartialEq for EndedDemand {
    ghost eq = { ended.same_ended };

    ghost laws = { partial_equiv_from_equiv ended.same_ended-equivalence };

    fn eq(&self, other: &EndedDemand) -> bool {
        self.ends == other.ends && self.right == other.right
    }
}

impl Eq for EndedDemand {
    ghost laws = { ended.same_ended-equivalence };
}

/// The hash of the members of both sets.
impl Hash for EndedDemand {
    ghost hash_input = { ended.ended_input };

    ghost respects_eq = { ended.ended_input-equal };

    fn hash<H: Hasher>(&self, state: &mut H) {
        hash_set(&self.ends, state);
        hash_set(&self.right, state);
    }
}
