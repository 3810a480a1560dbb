//! What is found for a definition.

ghost use Rattle.cc_core.specs.TermViews.{shape_of};
ghost use Rattle.cc_known.specs.MeasuredOnce.{IsMeasuredBy-prop};
ghost use Rattle.cc_known.specs.Measures.{IsMeasuredBy};

use cc_core::{Node, Note, Ty};
use cc_known::Measure;
use std::rc::Rc;

/// What is found for a definition, before any hole is filled.
#[derive(Drop)]
pub(crate) struct Checking {
    // The type that the right side was compared with, `Absent` where there is none, and never `Own`.
    pub(crate) note: Note,
    // The right side with its omitted sets put in.
    pub(crate) completed: Rc<Node>,
    // Its type.
    pub(crate) ty: Ty,
    // What is known of the shape of that.
    pub(crate) known: Option<Measure>,
    // The type that others see, where it comes before the right side.
    pub(crate) settled: Option<Ty>,
    ghost measured: { IsMeasuredBy known (shape_of ty.shape.value) } by { IsMeasuredBy-prop known (shape_of ty.shape.value) },
}
