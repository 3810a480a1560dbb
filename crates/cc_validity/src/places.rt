//! The places of nodes.

use crate::captures::KnownTerm;
use cc_core::Ctx;
use std::rc::Rc;

/// What is wanted at the place of a node, in the context of the place.
#[derive(Drop)]
pub enum Spot {
    /// Nothing can be said of it.
    Nowhere,
    /// A type of the term as it is read among so many entries.
    TypeOf(Ctx, KnownTerm, u32),
    /// That a set is below another.
    Sets(Ctx),
    /// That a shape is below another.
    Shapes(Ctx),
    /// That a type is below another.
    Types(Ctx),
}

/// A list of places, in order.
#[cycle(spots)]
pub enum Spots {
    /// There is none, or none that is left.
    End,
    /// One, and those behind it.
    More(Spot, Rc<Spots>),
}

// A long list is dropped by a loop.
impl Drop for Spots {
    fn drop(mut self) {
        loop {
            match self {
                Spots::End => return,
                Spots::More(first, rest) => {
                    drop(first);
                    match Rc::into_inner(rest) {
                        Some(inner) => self = inner,
                        None => return,
                    }
                }
            }
        }
    }
}
