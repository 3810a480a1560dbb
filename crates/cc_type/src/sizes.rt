//! What is found for a form, and the test of its size.

ghost use Rattle.std.specs.Prelude.{◌≡◌, true, false, nat_le, IfOk};
ghost use Rattle.cc_core.specs.Captured.{captured_variables};
ghost use Rattle.cc_core.specs.Places.{spots_at, places_around, places_of};
ghost use Rattle.cc_core.specs.Sizes.{type_size, size_with};
ghost use Rattle.cc_core.specs.TermViews.{shape_of, type_of, form_of, term_of};
ghost use Rattle.cc_checking.specs.Inference.{result as plain_result, tested, greatest_size};
ghost use Rattle.cc_known.specs.Logs.{Answers};
ghost use Rattle.cc_known.specs.Measures.{IsMeasuredBy};
ghost use Rattle.cc_known.specs.Parts.{found_of};
ghost use Rattle.cc_type.specs.Rows.{ways};

use cc_base::code::Code;
use cc_capture::CapSet;
use cc_captured::captured::cv;
use cc_core::sizes::subst_size;
use cc_core::{Form, Node, Shape, Ty};
use cc_known::found::Found;
use cc_known::measures::{Measure, measured_size};
use cc_known::stop::{Stop, refused};
use std::alloc::{AllocError, Global};
use std::rc::Rc;

// No type may be larger.
const GREATEST_SIZE: u64 = 4096;

// Whether the type is not too large.
#[inline(always)]
fn fits(ty: &Ty, known: Option<Measure>) -> bool
    requires { IsMeasuredBy known (shape_of ty.now.shape.value) }
    ensures { result ≡ nat_le (type_size (type_of ty.now)) greatest_size }
{
    measured_size(known, &ty.shape).saturating_add(ty.set.len() as u64) <= GREATEST_SIZE
}

/// Whether the type is not too large with the shape put for the outermost index.
pub(crate) fn fits_with(ty: &Ty, by: &Shape) -> bool
    ensures { result ≡ nat_le (size_with (shape_of by.now) (type_of ty.now)) greatest_size }
{
    subst_size(ty, by) <= GREATEST_SIZE
}

// The form at the places of the node.
fn at_places_of(alloc: Global, node: &Node, form: Form) -> Result<Rc<Node>, AllocError>
    ensures term { IfOk result (λ n. term_of n.value ≡ form_of form) }
    ensures places { IfOk result (λ n. places_of n.value ≡ places_around (spots_at node.now.at node.now.first node.now.second) form) }
{
    let node = Node {
        form,
        at: node.at,
        first: node.first,
        second: node.second,
    };
    Ok(Rc::new(alloc, node)?)
}

/// What is found for a form without parts that has no omitted set, where the type is not too large and this is known of
/// its shape. The node is shared.
#[inline(always)]
pub(crate) fn fitting_leaf(
    alloc: Global,
    node: &Rc<Node>,
    ty: Ty,
    known: Option<Measure>,
) -> Result<Found, Stop>
    requires fits { nat_le (type_size (type_of ty)) greatest_size ≡ true }
    requires measured { IsMeasuredBy known (shape_of ty.shape.value) }
    ensures exact { Answers found_of result (tested ways node.now.value.at (plain_result (type_of ty) (term_of node.now.value))) }
    ensures places { IfOk result (λ f. places_of f.node.value ≡ places_of node.now.value) }
    ensures unchanged { IfOk result (λ f. f.unchanged ≡ true → term_of f.node.value ≡ term_of node.now.value) }
{
    let captured = cv(alloc, node)?;
    let node = node.clone()?;
    Ok(Found {
        ty,
        node,
        captured,
        known,
        unchanged: true,
    })
}

/// The same of any type. One that is too large is refused.
pub(crate) fn measured_leaf(
    alloc: Global,
    node: &Rc<Node>,
    ty: Ty,
    known: Option<Measure>,
) -> Result<Found, Stop>
    requires { IsMeasuredBy known (shape_of ty.shape.value) }
    ensures exact { Answers found_of result (tested ways node.now.value.at (plain_result (type_of ty) (term_of node.now.value))) }
    ensures places { IfOk result (λ f. places_of f.node.value ≡ places_of node.now.value) }
    ensures unchanged { IfOk result (λ f. f.unchanged ≡ true → term_of f.node.value ≡ term_of node.now.value) }
{
    if !fits(&ty, known) {
        return Err(refused(Code::E18, node.at));
    }
    fitting_leaf(alloc, node, ty, known)
}

/// The same where nothing is known of the shape.
pub(crate) fn leaf(alloc: Global, node: &Rc<Node>, ty: Ty) -> Result<Found, Stop>
    ensures exact { Answers found_of result (tested ways node.now.value.at (plain_result (type_of ty) (term_of node.now.value))) }
    ensures places { IfOk result (λ f. places_of f.node.value ≡ places_of node.now.value) }
    ensures unchanged { IfOk result (λ f. f.unchanged ≡ true → term_of f.node.value ≡ term_of node.now.value) }
{
    measured_leaf(alloc, node, ty, None)
}

/// The same of another form without parts, at the places of the node.
pub(crate) fn changed_leaf(alloc: Global, node: &Node, form: Form, ty: Ty) -> Result<Found, Stop>
    ensures exact { Answers found_of result (tested ways node.now.at (plain_result (type_of ty) (form_of form))) }
    ensures places { IfOk result (λ f. places_of f.node.value ≡ places_around (spots_at node.now.at node.now.first node.now.second) form) }
    ensures unchanged { IfOk result (λ f. f.unchanged ≡ false) }
{
    if !fits(&ty, None) {
        return Err(refused(Code::E18, node.at));
    }
    let node = at_places_of(alloc, node, form)?;
    let captured = cv(alloc, &node)?;
    Ok(Found {
        ty,
        node,
        captured,
        known: None,
        unchanged: false,
    })
}

// The completed form at the places of the node, which is shared where nothing was changed.
fn completed(
    alloc: Global,
    node: &Rc<Node>,
    form: Form,
    unchanged: bool,
) -> Result<Rc<Node>, AllocError>
    requires term { unchanged ≡ true → term_of node.now.value ≡ form_of form }
    requires places { places_of node.now.value ≡ places_around (spots_at node.now.value.at node.now.value.first node.now.value.second) form }
    ensures term { IfOk result (λ n. term_of n.value ≡ form_of form) }
    ensures places { IfOk result (λ n. places_of n.value ≡ places_of node.now.value) }
{
    if unchanged {
        return node.clone();
    }
    at_places_of(alloc, node, form)
}

/// What is found for a completed form with these captured variables, at the places of the node, where the type is not
/// too large and this is known of its shape. The node is shared where nothing was changed.
pub(crate) fn fitting_parts(
    alloc: Global,
    node: &Rc<Node>,
    form: Form,
    unchanged: bool,
    ty: Ty,
    known: Option<Measure>,
    captured: CapSet,
) -> Result<Found, Stop>
    requires term { unchanged ≡ true → term_of node.now.value ≡ form_of form }
    requires places { places_of node.now.value ≡ places_around (spots_at node.now.value.at node.now.value.first node.now.value.second) form }
    requires captured { captured ≡ captured_variables (form_of form) }
    requires fits { nat_le (type_size (type_of ty)) greatest_size ≡ true }
    requires measured { IsMeasuredBy known (shape_of ty.shape.value) }
    ensures exact { Answers found_of result (tested ways node.now.value.at (plain_result (type_of ty) (form_of form))) }
    ensures places { IfOk result (λ f. places_of f.node.value ≡ places_of node.now.value) }
    ensures unchanged { IfOk result (λ f. f.unchanged ≡ true → term_of f.node.value ≡ term_of node.now.value) }
{
    let node = completed(alloc, node, form, unchanged)?;
    Ok(Found {
        ty,
        node,
        captured,
        known,
        unchanged,
    })
}

/// The same of any type. One that is too large is refused.
pub(crate) fn with_parts(
    alloc: Global,
    node: &Rc<Node>,
    form: Form,
    unchanged: bool,
    ty: Ty,
    known: Option<Measure>,
    captured: CapSet,
) -> Result<Found, Stop>
    requires term { unchanged ≡ true → term_of node.now.value ≡ form_of form }
    requires places { places_of node.now.value ≡ places_around (spots_at node.now.value.at node.now.value.first node.now.value.second) form }
    requires captured { captured ≡ captured_variables (form_of form) }
    requires measured { IsMeasuredBy known (shape_of ty.shape.value) }
    ensures exact { Answers found_of result (tested ways node.now.value.at (plain_result (type_of ty) (form_of form))) }
    ensures places { IfOk result (λ f. places_of f.node.value ≡ places_of node.now.value) }
    ensures unchanged { IfOk result (λ f. f.unchanged ≡ true → term_of f.node.value ≡ term_of node.now.value) }
{
    if !fits(&ty, known) {
        return Err(refused(Code::E18, node.at));
    }
    fitting_parts(alloc, node, form, unchanged, ty, known, captured)
}
