//! Texts that are added to another: numbers, variables, sets, shapes and types.

ghost use Rattle.std.specs.Prelude.{◌≡◌, ◌+◌, ◌++◌, OnOk, IfOk};
ghost use Rattle.std.specs.String.{string_bytes};
ghost use Rattle.cc_core.specs.TermViews as views;
ghost use Rattle.cc_print.specs.TypeTexts as types;
ghost use Rattle.cc_print.specs.TermTexts as plain;

use cc_base::name::Name;
use cc_capture::{CapSet, Var};
use cc_core::{Shape, Ty};
use cc_print::{Names, set_text, shape_text, type_text};
use std::alloc::{AllocError, Global};

/// Adds a text.
pub fn put(out: &mut String, text: &str) -> Result<(), AllocError>
    ensures { OnOk result (string_bytes out.new ≡ string_bytes out.old ++ text.now) }
{
    out.push_str(text)
}

/// Adds a text and a number.
pub fn put_numbered(
    alloc: Global,
    out: &mut String,
    prefix: &str,
    number: u32,
) -> Result<(), AllocError>
    ensures { OnOk result (string_bytes out.new ≡ string_bytes out.old ++ types.numbered prefix.now number) }
{
    let text = format!(in alloc; "{prefix}{number}")?;
    put(out, text.as_str())
}

/// Adds the text of a free position.
pub fn put_position(
    alloc: Global,
    out: &mut String,
    names: &Names,
    prefix: &str,
    position: u32,
) -> Result<(), AllocError>
    ensures { OnOk result (string_bytes out.new ≡ string_bytes out.old ++ types.position_text names.now.names.items prefix.now position) }
{
    let place = position as usize;
    if place < names.names.len() {
        put(out, names.names[place].as_str())
    } else {
        put_numbered(alloc, out, prefix, (place - names.names.len()) as u32)
    }
}

/// Adds the text of a variable of terms.
pub fn put_variable(
    alloc: Global,
    out: &mut String,
    names: &Names,
    variable: Var,
) -> Result<(), AllocError>
    ensures { OnOk result (string_bytes out.new ≡ string_bytes out.old ++ plain.named names.now.names.items names.now.locals variable) }
{
    match variable {
        Var::Bound(index) => put_numbered(
            alloc,
            out,
            "_",
            names.locals.saturating_sub(1).saturating_sub(index),
        ),
        Var::Free(position) => put_position(alloc, out, names, "_", position),
    }
}

/// Adds the text of a set.
pub fn put_set(
    alloc: Global,
    out: &mut String,
    names: &Names,
    set: &CapSet,
) -> Result<(), AllocError>
    ensures { OnOk result (string_bytes out.new ≡ string_bytes out.old ++ types.set_under names.now.names.items names.now.locals set.now) }
{
    let text = set_text(alloc, set, names)?;
    put(out, text.as_str())
}

/// Adds the text of a shape.
pub fn put_shape(
    alloc: Global,
    out: &mut String,
    names: &Names,
    shape: &Shape,
) -> Result<(), AllocError>
    ensures { OnOk result (string_bytes out.new ≡ string_bytes out.old ++ types.shape_under names.now.names.items names.now.locals (views.shape_of shape.now)) }
{
    let text = shape_text(alloc, shape, names)?;
    put(out, text.as_str())
}

/// Adds the text of a type.
pub fn put_type(alloc: Global, out: &mut String, names: &Names, ty: &Ty) -> Result<(), AllocError>
    ensures { OnOk result (string_bytes out.new ≡ string_bytes out.old ++ types.type_under names.now.names.items names.now.locals (views.shape_of ty.now.shape.value) ty.now.set) }
{
    let text = type_text(alloc, ty, names)?;
    put(out, text.as_str())
}

/// One binder more. Fails where there are 2^32 - 1, which counts as want of memory.
pub fn deeper(depth: u32) -> Result<u32, AllocError>
    ensures { IfOk result (λ n. n ≡ depth + 1) }
{
    match depth.checked_add(1) {
        Some(deeper) => Ok(deeper),
        None => Err(AllocError),
    }
}

/// The same names.
pub fn same_names(alloc: Global, names: &[Name]) -> Result<Vec<Name>, AllocError>
    ensures { IfOk result (λ copy. copy.items ≡ names.now) }
{
    let mut copy = Vec::with_capacity(alloc, names.len())?;
    for name in names {
        copy.push(name.clone()?)?;
    }
    Ok(copy)
}
