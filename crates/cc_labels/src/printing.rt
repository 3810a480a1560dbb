//! The texts of elements and sets with labels, and what shapes and types are written of.

ghost use Rattle.std.specs.Prelude.{◌≡◌, ◌+◌, ◌++◌, OnOk, IfOk};
ghost use Rattle.std.specs.String.{string_bytes};
ghost use Rattle.cc_core.specs.TermViews as views;
ghost use Rattle.cc_print.specs.TypeTexts as plain;
ghost use Rattle.cc_labels.specs.LabelTexts.{labels_in};

use crate::labels::{Labels, put_label};
use cc_base::literal::Base;
use cc_capture::{CapSet, Elem, Elems, Var};
use cc_core::Shape;
use std::alloc::{AllocError, Global};

/// Adds a text.
pub fn put(out: &mut String, text: &str) -> Result<(), AllocError>
    ensures { OnOk result (string_bytes out.new ≡ string_bytes out.old ++ text.now) }
{
    out.push_str(text)
}

/// Adds a text and a number.
pub(crate) fn put_numbered(
    alloc: Global,
    out: &mut String,
    prefix: &str,
    number: u32,
) -> Result<(), AllocError>
    ensures { OnOk result (string_bytes out.new ≡ string_bytes out.old ++ plain.numbered prefix.now number) }
{
    let text = format!(in alloc; "{prefix}{number}")?;
    put(out, text.as_str())
}

// Adds the text of a free position: its label, or its number behind those that have one.
fn put_position(
    alloc: Global,
    out: &mut String,
    labels: &Labels,
    prefix: &str,
    position: u32,
) -> Result<(), AllocError>
    ensures { OnOk result (string_bytes out.new ≡ string_bytes out.old ++ plain.position_text (labels_in labels.now) prefix.now position) }
{
    let place = position as usize;
    if place < labels.labels.len() {
        put_label(alloc, out, &labels.labels[place])
    } else {
        put_numbered(alloc, out, prefix, (place - labels.labels.len()) as u32)
    }
}

/// Adds the text of a variable under so many binders.
pub(crate) fn put_variable(
    alloc: Global,
    out: &mut String,
    labels: &Labels,
    depth: u32,
    prefix: &str,
    variable: Var,
) -> Result<(), AllocError>
    ensures { OnOk result (string_bytes out.new ≡ string_bytes out.old ++ plain.variable_text (labels_in labels.now) depth prefix.now variable) }
{
    match variable {
        Var::Bound(index) => put_numbered(
            alloc,
            out,
            prefix,
            depth.saturating_sub(1).saturating_sub(index),
        ),
        Var::Free(position) => put_position(alloc, out, labels, prefix, position),
    }
}

/// Adds the text of an element under so many binders.
pub fn put_element(
    alloc: Global,
    out: &mut String,
    labels: &Labels,
    depth: u32,
    elem: Elem,
) -> Result<(), AllocError>
    ensures { OnOk result (string_bytes out.new ≡ string_bytes out.old ++ plain.element_text (labels_in labels.now) depth elem) }
{
    match elem {
        Elem::Var(variable) => put_variable(alloc, out, labels, depth, "_", variable),
        Elem::Cap => put(out, "cap"),
        Elem::Hole(_) => Ok(()),
    }
}

// Adds the elements that are left, each with a comma and a space before it.
fn put_others(
    alloc: Global,
    out: &mut String,
    labels: &Labels,
    depth: u32,
    elems: Elems<'_>,
) -> Result<(), AllocError>
    ensures { OnOk result (string_bytes out.new ≡ string_bytes out.old ++ plain.others_text (labels_in labels.now) depth elems.entry) }
{
    let mut left = elems;
    while let Some(elem) = left.next() {
        put(out, ", ")?;
        put_element(alloc, out, labels, depth, elem)?;
    }
    Ok(())
}

// Adds the elements with a comma and a space between them.
fn put_elements(
    alloc: Global,
    out: &mut String,
    labels: &Labels,
    depth: u32,
    set: &CapSet,
) -> Result<(), AllocError>
    ensures { OnOk result (string_bytes out.new ≡ string_bytes out.old ++ plain.elements_text (labels_in labels.now) depth set.now.list) }
{
    let mut elems = set.iter();
    match elems.next() {
        Some(first) => {
            put_element(alloc, out, labels, depth, first)?;
            put_others(alloc, out, labels, depth, elems)
        }
        None => Ok(()),
    }
}

/// Adds the text of a set under so many binders.
pub fn put_set(
    alloc: Global,
    out: &mut String,
    labels: &Labels,
    depth: u32,
    set: &CapSet,
) -> Result<(), AllocError>
    ensures { OnOk result (string_bytes out.new ≡ string_bytes out.old ++ plain.set_under (labels_in labels.now) depth set.now) }
{
    put(out, "{")?;
    put_elements(alloc, out, labels, depth, set)?;
    put(out, "}")
}

/// The name of a base shape.
pub(crate) fn base_name(base: Base) -> &'static str
    ensures { result.now ≡ plain.base_text base }
{
    match base {
        Base::Unit => "Unit",
        Base::Bool => "Bool",
        Base::Int => "Int",
        Base::Str => "Str",
        Base::Console => "Console",
        Base::File => "File",
        Base::Counter => "Counter",
    }
}

/// Whether the shape is that of functions or of type functions.
pub(crate) fn is_arrow(shape: &Shape) -> bool
    ensures { result ≡ plain.is_arrow (views.shape_of shape.now) }
{
    match shape {
        Shape::Fun(_, _) => true,
        Shape::TFun(_, _) => true,
        Shape::Base(_) => false,
        Shape::Any => false,
        Shape::TVar(_) => false,
        Shape::Boxed(_) => false,
        Shape::Exit(_) => false,
    }
}
