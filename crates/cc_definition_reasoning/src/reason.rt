//! Why a definition is refused, with the local variables as its author knows them.

use cc_base::place::Place;
use cc_capture::CapSet;
use cc_causes::reason::{Cause, Locals, Scene};
use cc_solve::Filling;
use std::rc::Rc;

/// Why a definition is refused.
#[derive(Drop)]
pub enum DefinitionReason {
    /// A step of inference is.
    OfStep(Rc<Cause>),
    /// Under the least filling a set is not below another in the scene. The sets are filled; the holes of the scene are not.
    NotBelow {
        scene: Scene,
        filling: Filling,
        left: CapSet,
        right: CapSet,
    },
    /// Under the least filling a set has the universal capability. It is filled.
    WithCap {
        locals: Rc<Locals>,
        set: CapSet,
    },
}

/// A reason, and the place where a definition is refused for it.
#[derive(Drop)]
pub struct Reasoned {
    pub reason: DefinitionReason,
    pub at: Place,
}
