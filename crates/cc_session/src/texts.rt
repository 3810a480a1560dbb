//! The present texts of a session, in order of name.

ghost use Rattle.std.specs.Prelude.{◌≡◌, ◌<◌, ◌≤◌, ◌+◌, ◌↔◌, length, slice_set, IsTrue, IsErr, IsErrOf, OnOk, OnErr, Some, None};
ghost use Rattle.std.specs.BTreeMap.{insert_entry};
ghost use Rattle.std.specs.List.{slice_get};
ghost use Rattle.std.specs.Map.{keys_of, remove_entry};
ghost use Rattle.std.specs.Str.{bytes_eq};
ghost use Rattle.cc_base.specs.Names.{compare_names};
ghost use Rattle.cc_verdicts.specs.PresentTexts.{ArePresent, text_of, others_present, longest_text, most_modules};
ghost use Rattle.cc_judge.specs.Places.{IsGap};

use crate::refusals::{NoSuchModule, PutRefused};
use cc_base::name::Name;
use cc_judge::grounds::SharedText;
use cc_judge::names::{place_of_text, search_texts};
use std::alloc::{AllocError, Global};

// A text has at most so many bytes.
const LONGEST_TEXT: usize = 65536;

// At most so many modules are present.
const MOST_MODULES: usize = 256;

// Puts the text in the place of the one that is there.
fn replace_text(texts: &mut Vec<(Name, SharedText)>, at: usize, name: Name, text: SharedText)
    requires { at < length texts.old.items }
    ensures { texts.new.items ≡ slice_set texts.old.items at (name, text) }
{
    texts[at] = (name, text);
}

// Puts the text in where its name would stand.
fn insert_at(
    texts: &mut Vec<(Name, SharedText)>,
    gap: usize,
    name: Name,
    text: SharedText,
) -> Result<(), AllocError>
    requires { IsGap (keys_of texts.old.items) name gap }
    ensures ok { OnOk result (texts.new.items ≡ insert_entry compare_names texts.old.items name text) }
    ensures count { OnOk result (length texts.new.items ≡ length texts.old.items + 1) }
    ensures err { OnErr result (texts.new.items ≡ texts.old.items) }
{
    texts.insert(gap, (name, text))?;
    Ok(())
}

// Puts the text in under the name.
fn insert_text(
    texts: &mut Vec<(Name, SharedText)>,
    name: Name,
    text: SharedText,
) -> Result<(), AllocError>
    requires present { ArePresent texts.old.items }
    requires few { length texts.old.items ≤ most_modules }
    requires room { others_present name texts.old.items < most_modules }
    ensures ok { OnOk result (texts.new.items ≡ insert_entry compare_names texts.old.items name text) }
    ensures few { OnOk result (length texts.new.items ≤ most_modules) }
    ensures err { OnErr result (texts.new.items ≡ texts.old.items) }
{
    match search_texts(texts.as_slice(), &name) {
        Ok(at) => {
            replace_text(&mut *texts, at, name, text);
            Ok(())
        }
        Err(gap) => insert_at(texts, gap, name, text),
    }
}

// Whether so many modules of other names are present that no more fit.
fn is_full(texts: &[(Name, SharedText)], name: &Name) -> bool
    requires present { ArePresent texts.now }
    requires few { length texts.now ≤ most_modules }
    ensures { IsTrue result ↔ (most_modules ≤ others_present name.now texts.now) }
{
    match place_of_text(texts, name) {
        Some(_) => false,
        None => texts.len() >= MOST_MODULES,
    }
}

/// Puts the text in under the name, unless it is too long or too many others are there.
pub(crate) fn put_text(
    alloc: Global,
    texts: &mut Vec<(Name, SharedText)>,
    name: Name,
    text: Vec<u8>,
) -> Result<(), PutRefused>
    requires present { ArePresent texts.old.items }
    requires few { length texts.old.items ≤ most_modules }
    ensures ok { OnOk result (texts.new.items ≡ insert_entry compare_names texts.old.items name text.items) }
    ensures few { OnOk result (length texts.new.items ≤ most_modules) }
    ensures err { OnErr result (texts.new.items ≡ texts.old.items) }
    ensures too_long { IsErrOf result PutRefused.TooLong ↔ (longest_text < length text.items) }
    ensures too_many { IsErrOf result PutRefused.TooMany ↔ ((length text.items ≤ longest_text) × (most_modules ≤ others_present name texts.old.items)) }
{
    if text.len() > LONGEST_TEXT {
        return Err(PutRefused::TooLong);
    }
    if is_full(texts.as_slice(), &name) {
        return Err(PutRefused::TooMany);
    }
    let Ok(shared) = SharedText::new(alloc, text) else {
        return Err(PutRefused::NoMemory);
    };
    match insert_text(texts, name, shared) {
        Ok(()) => Ok(()),
        Err(AllocError) => Err(PutRefused::NoMemory),
    }
}

// Takes out the text at the place.
fn remove_at(texts: &mut Vec<(Name, SharedText)>, at: usize, name: &Name)
    requires present { ArePresent texts.old.items }
    requires stands { slice_get (keys_of texts.old.items) at ≡ Some name.now }
    ensures { texts.new.items ≡ remove_entry (bytes_eq name.now) texts.old.items }
{
    let _ = texts.remove(at);
}

/// Takes out the text of the name.
pub(crate) fn remove_text(
    texts: &mut Vec<(Name, SharedText)>,
    name: &Name,
) -> Result<(), NoSuchModule>
    requires { ArePresent texts.old.items }
    ensures ok { OnOk result (texts.new.items ≡ remove_entry (bytes_eq name.now) texts.old.items) }
    ensures err { OnErr result (texts.new.items ≡ texts.old.items) }
    ensures absent { IsErr result ↔ (text_of texts.old.items name.now ≡ None) }
{
    match place_of_text(texts.as_slice(), name) {
        Some(at) => {
            remove_at(&mut *texts, at, name);
            Ok(())
        }
        None => Err(NoSuchModule),
    }
}
