//! What of a right set may be put in for holes.

ghost use Rattle.std.specs.Prelude.{◌≡◌, IfOk, OnOk, if◌then◌else◌};
ghost use Rattle.cc_capture.specs.Sets.{insert};
ghost use Rattle.cc_core.specs.TermViews.{context_of};
ghost use Rattle.cc_known.specs.Keeping.{is_among_oldest, fillable};

use cc_capture::{CapSet, Elem, Var};
use cc_core::Ctx;
use std::alloc::{AllocError, Global};

// Whether the element is no variable but one of the oldest, of which there are so many.
pub(crate) fn is_among_oldest(elem: Elem, oldest: u32) -> bool
    ensures { result ≡ is_among_oldest oldest elem }
{
    match elem {
        Elem::Var(variable) => match variable {
            Var::Free(position) => position < oldest,
            Var::Bound(_) => true,
        },
        Elem::Cap => true,
        Elem::Hole(_) => true,
    }
}

// Puts the element to the others, if it may be put in for a hole.
fn put_if_fillable(kept: &mut CapSet, elem: Elem, closed: u32) -> Result<(), AllocError>
    ensures { OnOk result (kept.new ≡ (if is_among_oldest closed elem then insert elem kept.old else kept.old)) }
{
    if is_among_oldest(elem, closed) {
        return kept.insert(elem);
    }
    Ok(())
}

/// The members of the set that may be put in for holes of the context. Fails only for want of memory.
pub fn fillable(alloc: Global, ctx: &Ctx, set: &CapSet) -> Result<CapSet, AllocError>
    ensures { IfOk result (λ s. s ≡ fillable (context_of ctx.now) set.now) }
{
    let closed = ctx.closed();
    let mut kept = CapSet::new(alloc);
    for elem in set.iter() {
        put_if_fillable(&mut kept, elem, closed)?;
    }
    Ok(kept)
}
