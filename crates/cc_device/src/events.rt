//! The events of a run.
use cc_base::literal::{Lit, Op};

/// An event of a run.
#[derive(Drop)]
pub enum Event {
    /// A device was operated: the literal is what it took, and of operations that take none what it answered.
    Device { device: u32, op: Op, lit: Lit },
    /// The boundary of the label was entered.
    Enter(u32),
    /// The boundary of the label ended with an answer of its body.
    Ended(u32),
    /// The boundary of the label was left by an exit.
    Exited(u32),
}
