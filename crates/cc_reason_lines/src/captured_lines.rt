//! The lines of what was captured and is not allowed, with the chains of it.

ghost use Rattle.std.specs.Prelude.{◌≡◌, ◌++◌, codes, map, IfOk, OnOk};
ghost use Rattle.std.specs.String.{string_bytes};
ghost use Rattle.cc_print.specs.TypeTexts.{set_text};
ghost use Rattle.cc_labels.specs.LabelTexts.{labels_in};
ghost use Rattle.cc_labels.specs.LabelledLines.{line_of};
ghost use Rattle.cc_reason_lines.specs.LabelledChains.{labelled, labelled_all, labelled_chain, labelled_chains};

use cc_capture::{CapSet, Elem};
use cc_labels::printing::{put, put_element, put_set};
use cc_labels::{Labels, Line};
use std::alloc::{AllocError, Global};
use std::rc::Rc;

// A line of words alone.
fn words_line(words: String, labels: &Rc<Labels>) -> Result<Line, AllocError>
    ensures { IfOk result (λ l. line_of l ≡ string_bytes words) }
{
    let labels = labels.clone()?;
    Ok(Line {
        words,
        labels,
        ty: None,
    })
}

// Adds an element.
fn put_labelled(
    alloc: Global,
    out: &mut String,
    labels: &Labels,
    elem: Elem,
) -> Result<(), AllocError>
    ensures { OnOk result (string_bytes out.new ≡ string_bytes out.old ++ labelled labels.now elem) }
{
    put_element(alloc, out, labels, labels.locals, elem)
}

// Adds elements, each behind a space.
fn put_spaced(
    alloc: Global,
    out: &mut String,
    labels: &Labels,
    elems: &[Elem],
) -> Result<(), AllocError>
    ensures { OnOk result (string_bytes out.new ≡ string_bytes out.old ++ labelled_all labels.now elems.now) }
{
    for elem in elems {
        put(out, " ")?;
        put_labelled(alloc, out, labels, *elem)?;
    }
    Ok(())
}

/// The line of the elements that were captured.
pub(crate) fn captured_line(
    alloc: Global,
    labels: &Rc<Labels>,
    elems: &[Elem],
) -> Result<Line, AllocError>
    ensures { IfOk result (λ l. line_of l ≡ codes "captured" ++ labelled_all labels.now.value elems.now) }
{
    let mut text = String::new(alloc);
    put(&mut text, "captured")?;
    put_spaced(alloc, &mut text, labels, elems)?;
    words_line(text, labels)
}

/// The line of words and a set behind them.
pub(crate) fn set_line(
    alloc: Global,
    words: &str,
    labels: &Rc<Labels>,
    set: &CapSet,
) -> Result<Line, AllocError>
    ensures { IfOk result (λ l. line_of l ≡ words.now ++ set_text (labels_in labels.now.value) labels.now.value.locals set.now) }
{
    let mut text = String::new(alloc);
    put(&mut text, words)?;
    put_set(alloc, &mut text, labels, labels.locals, set)?;
    words_line(text, labels)
}

// The line of a chain from an element, with what it goes through.
fn chain_line(
    alloc: Global,
    labels: &Rc<Labels>,
    from: Elem,
    behind: &[Elem],
) -> Result<Line, AllocError>
    ensures { IfOk result (λ l. line_of l ≡ labelled labels.now.value from ++ codes ":" ++ labelled_all labels.now.value behind.now) }
{
    let mut text = String::new(alloc);
    put_labelled(alloc, &mut text, labels, from)?;
    put(&mut text, ":")?;
    put_spaced(alloc, &mut text, labels, behind)?;
    words_line(text, labels)
}

// Adds the line of a chain, if it goes on.
fn put_chain(
    alloc: Global,
    labels: &Rc<Labels>,
    chain: &[Elem],
    lines: &mut Vec<Line>,
) -> Result<(), AllocError>
    ensures { OnOk result (map line_of lines.new.items ≡ map line_of lines.old.items ++ labelled_chain labels.now.value chain.now) }
{
    match chain {
        [] => Ok(()),
        [_] => Ok(()),
        [from, behind @ ..] => {
            lines.push(chain_line(alloc, labels, *from, behind)?)?;
            Ok(())
        }
    }
}

/// Adds a line for each chain that goes on.
pub(crate) fn put_chains(
    alloc: Global,
    labels: &Rc<Labels>,
    chains: &[Vec<Elem>],
    lines: &mut Vec<Line>,
) -> Result<(), AllocError>
    ensures { OnOk result (map line_of lines.new.items ≡ map line_of lines.old.items ++ labelled_chains labels.now.value (map (λ chain. chain.items) chains.now)) }
{
    for chain in chains {
        put_chain(alloc, labels, chain.as_slice(), lines)?;
    }
    Ok(())
}
