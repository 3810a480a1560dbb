//! What is told for the free positions of a context.

ghost use Rattle.std.specs.Prelude.{◌≡◌, ◌++◌, codes, encode_utf8_all, OnOk};
ghost use Rattle.std.specs.Option.{unwrap_or};
ghost use Rattle.std.specs.String.{string_bytes};
ghost use Rattle.cc_base.specs.Texts.{place_text};
ghost use Rattle.cc_labels.specs.LabelTexts.{label_of};

use crate::printing::put;
use cc_base::name::Name;
use cc_base::place::Place;
use std::alloc::{AllocError, Global};

/// What is told for a position.
#[derive(Drop)]
pub enum Label {
    /// A name.
    Known(Name),
    /// A local variable: its name, if it has one, and its place.
    Local(Option<Name>, Place),
}

/// What is told for the first positions of a context, and how many positions stand behind them, which are told by their
/// numbers.
#[derive(Drop)]
pub struct Labels {
    pub labels: Vec<Label>,
    pub locals: u32,
}

// Adds the name, where there is one.
fn put_name(out: &mut String, name: &Option<Name>) -> Result<(), AllocError>
    ensures { OnOk result (string_bytes out.new ≡ string_bytes out.old ++ encode_utf8_all (unwrap_or name.now (codes "_"))) }
{
    match name {
        Some(name) => out.push_str(name.as_str()),
        None => out.push_str("_"),
    }
}

// Adds the name of a local variable and its place.
fn put_local(
    alloc: Global,
    out: &mut String,
    name: &Option<Name>,
    line: u32,
    col: u32,
) -> Result<(), AllocError>
    ensures { OnOk result (string_bytes out.new ≡ string_bytes out.old ++ encode_utf8_all (unwrap_or name.now (codes "_") ++ codes "@" ++ place_text (record { line = line; col = col }))) }
{
    put_name(out, name)?;
    let place = format!(in alloc; "@{line}:{col}")?;
    put(out, place.as_str())
}

/// Adds a label.
pub fn put_label(alloc: Global, out: &mut String, label: &Label) -> Result<(), AllocError>
    ensures { OnOk result (string_bytes out.new ≡ string_bytes out.old ++ encode_utf8_all (label_of label.now)) }
{
    match label {
        Label::Known(name) => out.push_str(name.as_str()),
        Label::Local(name, at) => put_local(alloc, out, name, at.line, at.col),
    }
}
