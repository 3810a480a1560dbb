//! Single lines of causes.

ghost use Rattle.std.specs.Prelude.{◌≡◌, ◌++◌, codes, encode_utf8_all, slice_index_or, [], ◌∷◌, map, IfOk, OnOk};
ghost use Rattle.std.specs.Fmt.{decimal};
ghost use Rattle.std.specs.String.{string_bytes};
ghost use Rattle.cc_capture.specs.Sets.{empty};
ghost use Rattle.cc_core.specs.Sizes.{type_size};
ghost use Rattle.cc_core.specs.TermViews.{shape_of, type_of};
ghost use Rattle.cc_print.specs.TypeTexts.{base_text, shape_text, type_text};
ghost use Rattle.cc_labels.specs.LabelTexts.{labels_in};
ghost use Rattle.cc_labels.specs.LabelledLines.{line_of};
ghost use Rattle.cc_reasons.specs.ReasonTexts.{head_text};
ghost use Rattle.cc_causes.specs.Views.{head_of};

use cc_base::literal::Base;
use cc_capture::CapSet;
use cc_causes::reason::Head;
use cc_core::sizes::size;
use cc_core::{Shape, Ty};
use cc_labels::labels::put_label;
use cc_labels::printing::put;
use cc_labels::{Labels, Line};
use std::alloc::{AllocError, Global};
use std::rc::Rc;

/// A line of words alone.
pub(crate) fn words_line(
    alloc: Global,
    words: &str,
    labels: &Rc<Labels>,
) -> Result<Line, AllocError>
    ensures { IfOk result (λ l. line_of l ≡ words.now) }
{
    let mut text = String::new(alloc);
    put(&mut text, words)?;
    let labels = labels.clone()?;
    Ok(Line {
        words: text,
        labels,
        ty: None,
    })
}

/// A line of words and a type behind them.
pub(crate) fn type_line(
    alloc: Global,
    words: &str,
    labels: &Rc<Labels>,
    ty: &Ty,
) -> Result<Line, AllocError>
    ensures { IfOk result (λ l. line_of l ≡ words.now ++ type_text (labels_in labels.now.value) labels.now.value.locals (type_of ty.now)) }
{
    let mut text = String::new(alloc);
    put(&mut text, words)?;
    let labels = labels.clone()?;
    let ty = ty.clone()?;
    Ok(Line {
        words: text,
        labels,
        ty: Some(ty),
    })
}

// The type of the shape that captures nothing.
fn pure_type(alloc: Global, shape: &Rc<Shape>) -> Result<Ty, AllocError>
    ensures { IfOk result (λ t. type_of t ≡ record { shape = shape_of shape.now.value; set = empty }) }
{
    let shape = shape.clone()?;
    Ok(Ty {
        shape,
        set: CapSet::new(alloc),
    })
}

/// A line of words and a shape behind them.
pub(crate) fn shape_line(
    alloc: Global,
    words: &str,
    labels: &Rc<Labels>,
    shape: &Rc<Shape>,
) -> Result<Line, AllocError>
    ensures { IfOk result (λ l. line_of l ≡ words.now ++ shape_text (labels_in labels.now.value) labels.now.value.locals (shape_of shape.now.value)) }
{
    let ty = pure_type(alloc, shape)?;
    type_line(alloc, words, labels, &ty)
}

// What is wanted at a head, behind a word.
fn wanted_at(head: Head) -> &'static str
    ensures { result.now ≡ codes "wanted " ++ head_text (head_of head) }
{
    match head {
        Head::AFunction => "wanted function",
        Head::ATypeFunction => "wanted type function",
        Head::ABox => "wanted box",
        Head::AnExit => "wanted exit",
        Head::ABase(base) => wanted_base(base),
    }
}

// The base shape that is wanted, behind a word.
fn wanted_base(base: Base) -> &'static str
    ensures { result.now ≡ codes "wanted " ++ base_text base }
{
    match base {
        Base::Unit => "wanted Unit",
        Base::Bool => "wanted Bool",
        Base::Int => "wanted Int",
        Base::Str => "wanted Str",
        Base::Console => "wanted Console",
        Base::File => "wanted File",
        Base::Counter => "wanted Counter",
    }
}

/// The line of what is wanted at a head.
pub(crate) fn head_line(alloc: Global, head: Head, labels: &Rc<Labels>) -> Result<Line, AllocError>
    ensures { IfOk result (λ l. line_of l ≡ codes "wanted " ++ head_text (head_of head)) }
{
    words_line(alloc, wanted_at(head), labels)
}

// Adds the label of the position, if it has one.
fn put_there(
    alloc: Global,
    out: &mut String,
    labels: &Labels,
    position: u32,
) -> Result<(), AllocError>
    ensures { OnOk result (string_bytes out.new ≡ string_bytes out.old ++ encode_utf8_all (slice_index_or (labels_in labels.now) position [])) }
{
    match labels.labels.get(position as usize) {
        Some(label) => put_label(alloc, out, label),
        None => Ok(()),
    }
}

/// The line of the position's label.
pub(crate) fn name_line(
    alloc: Global,
    labels: &Rc<Labels>,
    position: u32,
) -> Result<Line, AllocError>
    ensures { IfOk result (λ l. line_of l ≡ codes "name " ++ encode_utf8_all (slice_index_or (labels_in labels.now.value) position [])) }
{
    let mut text = String::new(alloc);
    put(&mut text, "name ")?;
    put_there(alloc, &mut text, labels, position)?;
    let labels = labels.clone()?;
    Ok(Line {
        words: text,
        labels,
        ty: None,
    })
}

/// The line of the type's size. Fails for want of memory alone, as which a size of 2^64 - 1 or more counts.
pub(crate) fn size_line(alloc: Global, labels: &Rc<Labels>, ty: &Ty) -> Result<Line, AllocError>
    ensures { IfOk result (λ l. line_of l ≡ codes "size " ++ decimal (type_size (type_of ty.now))) }
{
    let count = size(ty);
    if count == u64::MAX {
        return Err(AllocError);
    }
    let words = format!(in alloc; "size {count}")?;
    words_line(alloc, words.as_str(), labels)
}

/// Two lines.
pub(crate) fn two_lines(alloc: Global, first: Line, second: Line) -> Result<Vec<Line>, AllocError>
    ensures { IfOk result (λ lines. map line_of lines.items ≡ line_of first ∷ line_of second ∷ []) }
{
    let mut lines = Vec::new(alloc);
    lines.push(first)?;
    lines.push(second)?;
    Ok(lines)
}
