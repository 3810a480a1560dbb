//! Entries in order of name.

ghost use Rattle.std.specs.Prelude.{◌≡◌, ◌↔◌, MatchOption, MatchResult, slice_get, Some, true};
ghost use Rattle.std.specs.List.Sorted.{IsStrictlySortedBy};
ghost use Rattle.std.specs.Map.{keys_of};
ghost use Rattle.cc_base.specs.Names.{compare_names};
ghost use Rattle.cc_judge.specs.Places.{IsGap, IsAbsentKey};

use crate::grounds::SharedText;
use cc_base::name::Name;
use cc_module::judgement::ModuleVerdict;

/// The place of the present module of the name, or the place where it would stand.
pub fn search_texts(texts: &[(Name, SharedText)], name: &Name) -> Result<usize, usize>
    requires { IsStrictlySortedBy compare_names (keys_of texts.now) }
    ensures { MatchResult result (λ at. slice_get (keys_of texts.now) at ≡ Some name.now) (λ gap. IsGap (keys_of texts.now) name.now gap) }
{
    texts.binary_search_by(|entry| entry.0.cmp(name))
}

/// The place of the present module of the name.
pub fn place_of_text(texts: &[(Name, SharedText)], name: &Name) -> Option<usize>
    requires { IsStrictlySortedBy compare_names (keys_of texts.now) }
    ensures { MatchOption result (IsAbsentKey (keys_of texts.now) name.now) (λ at. slice_get (keys_of texts.now) at ≡ Some name.now) }
{
    search_texts(texts, name).ok()
}

// Whether the present module of the name stands at the place.
fn is_text_at(texts: &[(Name, SharedText)], at: usize, name: &Name) -> bool
    ensures { (result ≡ true) ↔ (slice_get (keys_of texts.now) at ≡ Some name.now) }
{
    match texts.get(at) {
        Some(entry) => entry.0 == *name,
        None => false,
    }
}

/// The place of the present module of the name, which may be this place.
pub(crate) fn place_of_text_near(
    texts: &[(Name, SharedText)],
    near: usize,
    name: &Name,
) -> Option<usize>
    requires { IsStrictlySortedBy compare_names (keys_of texts.now) }
    ensures { MatchOption result (IsAbsentKey (keys_of texts.now) name.now) (λ at. slice_get (keys_of texts.now) at ≡ Some name.now) }
{
    if is_text_at(texts, near, name) {
        Some(near)
    } else {
        place_of_text(texts, name)
    }
}

/// The place of the verdict of the module of the name.
pub fn place_of_verdict(verdicts: &[(Name, ModuleVerdict)], name: &Name) -> Option<usize>
    requires { IsStrictlySortedBy compare_names (keys_of verdicts.now) }
    ensures { MatchOption result (IsAbsentKey (keys_of verdicts.now) name.now) (λ at. slice_get (keys_of verdicts.now) at ≡ Some name.now) }
{
    verdicts.binary_search_by(|entry| entry.0.cmp(name)).ok()
}

// Whether the verdict of the module of the name stands at the place.
fn is_at(verdicts: &[(Name, ModuleVerdict)], at: usize, name: &Name) -> bool
    ensures { (result ≡ true) ↔ (slice_get (keys_of verdicts.now) at ≡ Some name.now) }
{
    match verdicts.get(at) {
        Some(entry) => entry.0 == *name,
        None => false,
    }
}

/// The same, where it may be this place.
pub fn place_near(verdicts: &[(Name, ModuleVerdict)], near: usize, name: &Name) -> Option<usize>
    requires { IsStrictlySortedBy compare_names (keys_of verdicts.now) }
    ensures { MatchOption result (IsAbsentKey (keys_of verdicts.now) name.now) (λ at. slice_get (keys_of verdicts.now) at ≡ Some name.now) }
{
    if is_at(verdicts, near, name) {
        Some(near)
    } else {
        place_of_verdict(verdicts, name)
    }
}
