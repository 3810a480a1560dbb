//! What inference finds.

ghost use Rattle.std.specs.Prelude.{◌≡◌, true, nat_le};
ghost use Rattle.cc_core.specs.Captured.{captured_variables};
ghost use Rattle.cc_core.specs.Sizes.{type_size};
ghost use Rattle.cc_core.specs.TermViews.{shape_of, type_of, term_of};
ghost use Rattle.cc_checking.specs.Inference.{greatest_size};
ghost use Rattle.cc_known.specs.MeasuredOnce.{IsMeasuredBy-prop};
ghost use Rattle.cc_known.specs.Measures.{IsMeasuredBy};

use crate::measures::Measure;
use cc_capture::CapSet;
use cc_core::{Node, Note, Ty};
use std::rc::Rc;

/// What is found for a term.
#[derive(Drop)]
pub struct Found {
    /// Its type.
    pub ty: Ty,
    /// The term with its omitted sets put in.
    pub node: Rc<Node>,
    /// The captured variables of that.
    pub captured: CapSet,
    /// What is known of the shape of its type.
    pub known: Option<Measure>,
    /// Whether that term is the one that was given, so that no set was put in.
    pub unchanged: bool,
    pub ghost measured: { IsMeasuredBy known (shape_of ty.shape.value) } by { IsMeasuredBy-prop known (shape_of ty.shape.value) },
    pub ghost captures: { captured ≡ captured_variables (term_of node.value) },
    pub ghost fits: { nat_le (type_size (type_of ty)) greatest_size ≡ true },
}

/// The type of what is named, and what is then written for it.
#[derive(Drop)]
pub struct Named {
    pub ty: Ty,
    pub note: Note,
    /// Whether that note is the one that was given.
    pub unchanged: bool,
}
