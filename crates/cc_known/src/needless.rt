//! What is needless wherever it comes again.

ghost use Rattle.std.specs.Prelude.{◌≡◌};
ghost use Rattle.std.specs.List.{list_all};
ghost use Rattle.cc_capture.specs.Sets.{Set};
ghost use Rattle.cc_core.specs.TermViews.{context_of};
ghost use Rattle.cc_checking.specs.Comparison.{demanded};
ghost use Rattle.cc_known.specs.EndsAgain.{stays_fillable};
ghost use Rattle.cc_known.specs.Keeping.{is_among_oldest};

use crate::fillable::is_among_oldest;
use cc_capture::CapSet;
use cc_core::Ctx;

// Whether the set names no other variables than the oldest.
fn names_oldest(set: &CapSet, oldest: u32) -> bool
    ensures { result ≡ list_all (is_among_oldest oldest) set.now.list }
{
    for elem in set.iter() {
        if !is_among_oldest(elem, oldest) {
            return false;
        }
    }
    true
}

/// Whether what may be put in for holes of a right set is the same wherever it comes again with the oldest variables
/// where they are, of which there are so many.
pub fn stays_fillable(ctx: &Ctx, right: &CapSet, oldest: u32) -> bool
    ensures { (left : Set) → result ≡ stays_fillable oldest (demanded (context_of ctx.now) left right.now) }
{
    ctx.closed() < oldest || names_oldest(right, oldest)
}
