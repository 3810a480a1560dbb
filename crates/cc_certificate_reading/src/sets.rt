//! Variables, elements and sets.

ghost use Rattle.std.specs.Prelude.{◌≡◌, ◌≤◌, ◌<◌, ◌∷◌, length, map, IfOk, IfSome, option_map};
ghost use Rattle.cc_words.specs.Words.{all_of};
ghost use Rattle.cc_certificate_text.specs.Reading.{
  local_at,
  local_of,
  variable_of,
  element_of,
  other_of,
  bound_before,
  bound_before_element,
  stands_before,
  stand_in_order,
  elements_of,
  set_of,
  some_set_at,
  set_at,
};
ghost use Rattle.cc_capture.specs.Sets.{from_list};
ghost use Rattle.cc_capture.specs.declared.var.Elem.TheVariants as elems;
ghost use Rattle.cc_certificate_reading.specs.Agreement.{Agrees};
ghost use Rattle.cc_certificate_reading.specs.Numberings.{locals_of, follows};

use crate::names::position_of;
use crate::stop::{Reading, Stop};
use cc_capture::{CapSet, Elem, Var, compare_elem};
use cc_names::Names;
use cc_words::words::{behind, cut_at, first_and_rest, number_of, split_at};
use std::alloc::{AllocError, Global};

/// How the local variables are numbered.
#[derive(Clone, Copy, Debug, PartialEq, Eq)]
pub enum Locals {
    /// By the number that is written.
    Printed,
    /// By an index that counts binders from the innermost.
    Counted,
}

// The local variable of the number under so many binders.
fn local_at(locals: Locals, depth: u64, number: u32) -> Option<Var>
    requires { depth ≤ 4294967296 }
    ensures { result ≡ local_at (locals_of locals) depth number }
{
    match locals {
        Locals::Printed => Some(Var::Bound(number)),
        Locals::Counted => {
            if u64::from(number) < depth {
                Some(Var::Bound((depth - 1 - u64::from(number)) as u32))
            } else {
                None
            }
        }
    }
}

/// The local variable of the digits.
#[tactic(auto, unfolding(cc_certificate_text::specs::Reading::local_of))]
pub fn local_of(locals: Locals, depth: u64, digits: &[u8]) -> Option<Var>
    requires { depth ≤ 4294967296 }
    ensures { result ≡ local_of (locals_of locals) depth digits.now }
{
    match number_of(digits, 4_294_967_295) {
        Some(number) => local_at(locals, depth, number as u32),
        None => None,
    }
}

/// The variable of terms that the word is.
#[tactic(auto, unfolding(cc_certificate_text::specs::Reading::variable_of))]
pub fn variable_of(locals: Locals, names: &Names, depth: u64, word: &[u8]) -> Option<Var>
    requires names { length names.now ≤ 4294967296 }
    requires depth { depth ≤ 4294967296 }
    ensures { result ≡ variable_of (locals_of locals) names.now depth word.now }
{
    match behind(word, "_") {
        Some(digits) => local_of(locals, depth, digits),
        None => match position_of(names, word) {
            Some(position) => Some(Var::Free(position)),
            None => None,
        },
    }
}

// The element that the word is.
#[tactic(auto, unfolding(cc_certificate_text::specs::Reading::element_of))]
fn element_of(locals: Locals, names: &Names, depth: u64, word: &[u8]) -> Option<Elem>
    requires names { length names.now ≤ 4294967296 }
    requires depth { depth ≤ 4294967296 }
    ensures { result ≡ element_of (locals_of locals) names.now depth word.now }
{
    if word == "cap".as_bytes() {
        return Some(Elem::Cap);
    }
    match variable_of(locals, names, depth, word) {
        Some(variable) => Some(Elem::Var(variable)),
        None => None,
    }
}

// An element behind a space.
#[tactic(auto, unfolding(cc_certificate_text::specs::Reading::other_of))]
fn other_of(locals: Locals, names: &Names, depth: u64, word: &[u8]) -> Option<Elem>
    requires names { length names.now ≤ 4294967296 }
    requires depth { depth ≤ 4294967296 }
    ensures { result ≡ other_of (locals_of locals) names.now depth word.now }
{
    match behind(word, " ") {
        Some(rest) => element_of(locals, names, depth, rest),
        None => None,
    }
}

// The element and those that the words are, if each is one.
fn elements_behind(
    alloc: Global,
    locals: Locals,
    names: &Names,
    depth: u64,
    first: Elem,
    words: &[&[u8]],
) -> Result<Option<Vec<Elem>>, AllocError>
    requires names { length names.now ≤ 4294967296 }
    requires depth { depth ≤ 4294967296 }
    ensures { IfOk result (λ found. option_map (λ v. v.items) found ≡ option_map (λ others. first ∷ others) (all_of (other_of (locals_of locals) names.now depth) (map (λ word. word.now) words.now))) }
{
    let mut elems = Vec::new(alloc);
    elems.push(first)?;
    for word in words.iter() {
        let Some(elem) = other_of(locals, names, depth, word) else {
            return Ok(None);
        };
        elems.push(elem)?;
    }
    Ok(Some(elems))
}

// The elements that the words are, if there are some and each is one.
#[tactic(auto, unfolding(cc_certificate_text::specs::Reading::elements_of))]
fn elements_of(
    alloc: Global,
    locals: Locals,
    names: &Names,
    depth: u64,
    words: &[&[u8]],
) -> Result<Option<Vec<Elem>>, AllocError>
    requires names { length names.now ≤ 4294967296 }
    requires depth { depth ≤ 4294967296 }
    ensures { IfOk result (λ found. option_map (λ v. v.items) found ≡ elements_of (locals_of locals) names.now depth (map (λ word. word.now) words.now)) }
{
    let Some((word, others)) = first_and_rest(words) else {
        return Ok(None);
    };
    let Some(first) = element_of(locals, names, depth, word) else {
        return Ok(None);
    };
    elements_behind(alloc, locals, names, depth, first, others)
}

fn bound_before(locals: Locals, left: u32, right: u32) -> bool
    ensures { result ≡ bound_before (locals_of locals) left right }
{
    match locals {
        Locals::Printed => left < right,
        Locals::Counted => right < left,
    }
}

// Whether the bound variable stands before the variable.
fn bound_before_variable(locals: Locals, left: u32, right: Var) -> bool
    ensures { result ≡ bound_before_element (locals_of locals) left (elems.Var right) }
{
    match right {
        Var::Bound(index) => bound_before(locals, left, index),
        Var::Free(_) => compare_elem(Elem::Var(Var::Bound(left)), Elem::Var(right)).is_lt(),
    }
}

// Whether the bound variable stands before the element.
fn bound_before_element(locals: Locals, left: u32, right: Elem) -> bool
    ensures { result ≡ bound_before_element (locals_of locals) left right }
{
    match right {
        Elem::Var(variable) => bound_before_variable(locals, left, variable),
        Elem::Cap => compare_elem(Elem::Var(Var::Bound(left)), right).is_lt(),
        Elem::Hole(_) => compare_elem(Elem::Var(Var::Bound(left)), right).is_lt(),
    }
}

// Whether the variable stands before the element.
fn variable_before(locals: Locals, left: Var, right: Elem) -> bool
    ensures { result ≡ stands_before (locals_of locals) (elems.Var left) right }
{
    match left {
        Var::Bound(index) => bound_before_element(locals, index, right),
        Var::Free(_) => compare_elem(Elem::Var(left), right).is_lt(),
    }
}

// Whether the one element stands before the other in the text of a set.
fn stands_before(locals: Locals, left: Elem, right: Elem) -> bool
    ensures { result ≡ stands_before (locals_of locals) left right }
{
    match left {
        Elem::Var(variable) => variable_before(locals, variable, right),
        Elem::Cap => compare_elem(left, right).is_lt(),
        Elem::Hole(_) => compare_elem(left, right).is_lt(),
    }
}

// Whether the element, if there is one, stands before the other.
fn stands_behind(locals: Locals, last: Option<Elem>, elem: Elem) -> bool
    ensures { result ≡ follows (locals_of locals) last elem }
{
    match last {
        Some(last) => stands_before(locals, last, elem),
        None => true,
    }
}

// Whether each of the elements stands before the next one.
fn stand_in_order(locals: Locals, elems: &[Elem]) -> bool
    ensures { result ≡ stand_in_order (locals_of locals) elems.now }
{
    let mut last: Option<Elem> = None;
    for elem in elems.iter() {
        if !stands_behind(locals, last, *elem) {
            return false;
        }
        last = Some(*elem);
    }
    true
}

// The set of the elements, put into it from the last one on. In the text of a set the numbers of local variables rise,
// and in the order of elements their indices fall: so each of them stands behind those that are in the set already.
fn gathered(alloc: Global, elems: Vec<Elem>) -> Result<CapSet, AllocError>
    ensures { IfOk result (λ set. set ≡ from_list elems.items) }
{
    let mut left = elems;
    let mut set = CapSet::new(alloc);
    while let Some(elem) = left.pop() {
        set.insert(elem)?;
    }
    Ok(set)
}

// The set of what stands between the braces.
#[tactic(auto, unfolding(cc_certificate_text::specs::Reading::set_of))]
fn set_of(
    alloc: Global,
    locals: Locals,
    names: &Names,
    depth: u64,
    content: &[u8],
) -> Result<Option<CapSet>, AllocError>
    requires names { length names.now ≤ 4294967296 }
    requires depth { depth ≤ 4294967296 }
    ensures { IfOk result (λ set. set ≡ set_of (locals_of locals) names.now depth content.now) }
{
    let words = split_at(alloc, content, b',')?;
    let Some(elems) = elements_of(alloc, locals, names, depth, words.as_slice())? else {
        return Ok(None);
    };
    if !stand_in_order(locals, elems.as_slice()) {
        return Ok(None);
    }
    let set = gathered(alloc, elems)?;
    Ok(Some(set))
}

/// A set with elements, behind its first brace.
#[tactic(auto, unfolding(cc_certificate_text::specs::Reading::some_set_at))]
pub fn read_some_set<'a>(
    alloc: Global,
    locals: Locals,
    names: &Names,
    depth: u64,
    bytes: &'a [u8],
) -> Reading<'a, CapSet>
    requires names { length names.now ≤ 4294967296 }
    requires depth { depth ≤ 4294967296 }
    ensures { Agrees (λ set. set) result (some_set_at (locals_of locals) names.now depth bytes.now) }
{
    let Some((content, rest)) = cut_at(bytes, b'}') else {
        return Err(Stop::Misfit);
    };
    match set_of(alloc, locals, names, depth, content)? {
        Some(set) => Ok((set, rest)),
        None => Err(Stop::Misfit),
    }
}

/// A set, behind its first brace.
#[tactic(auto, unfolding(cc_certificate_text::specs::Reading::set_at, cc_certificate_text::specs::Reading::begun))]
pub fn read_set<'a>(
    alloc: Global,
    locals: Locals,
    names: &Names,
    depth: u64,
    bytes: &'a [u8],
) -> Reading<'a, CapSet>
    requires names { length names.now ≤ 4294967296 }
    requires depth { depth ≤ 4294967296 }
    ensures { Agrees (λ set. set) result (set_at (locals_of locals) names.now depth bytes.now) }
{
    match behind(bytes, "}") {
        Some(rest) => Ok((CapSet::new(alloc), rest)),
        None => read_some_set(alloc, locals, names, depth, bytes),
    }
}
