//! How many nodes a derivation has.

ghost use Rattle.std.specs.Prelude.{◌≡◌, ◌-◌, ◌^◌, min};
ghost use Rattle.cc_checking.specs.DerivationSizes.{nodes, nodes_of};
ghost use Rattle.cc_derivation.specs.DerivationViews.{premises_of, der_of};

use crate::derivation::{Der, Premises};

/// How many nodes the derivation has, or the greatest number where that is less. A part that is shared counts at each of
/// its places, and is gone over there.
#[cycle(counting)]
pub fn node_count(der: &Der) -> u64
    ensures { result ≡ min (nodes (der_of der.now)) (2 ^ 64 - 1) }
{
    count_all(&der.premises).saturating_add(1)
}

// How many nodes they have together.
#[cycle(counting)]
fn count_all(premises: &Premises) -> u64
    ensures { result ≡ min (nodes_of (premises_of premises.now)) (2 ^ 64 - 1) }
{
    match premises {
        Premises::End => 0,
        Premises::More(first, rest) => node_count(first).saturating_add(count_all(rest)),
    }
}
