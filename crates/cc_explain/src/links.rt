//! The links of definitions.

ghost use Rattle.std.specs.Prelude.{◌≡◌, ℕ, ◌<◌, length, map};
ghost use Rattle.std.specs.List.{Contains};
ghost use Rattle.cc_explain.specs.Entries.{targets_of, NamesEarlier};

use crate::target::Target;
use std::marker::Model;

/// The links of definitions: an entry for each definition, in an order in which what an entry names has an earlier one.
/// Contracts see the list of the entries, each as the list of its targets.
#[derive(Drop)]
pub struct Links {
    entries: Vec<Vec<Target>>,
}

impl Model for Links {
    ghost use Rattle.std.specs.Prelude.{List, map};
    ghost use Rattle.cc_explain.specs.declared.target.Target.{Target as AnyTarget};
    ghost use Rattle.cc_explain.specs.Entries.{NamesEarlier};

    ghost Value = { List (List AnyTarget) };

    ghost view = { λ l. map (λ entry. entry.items) l.entries.items };

    ghost invariant = { λ l. NamesEarlier (map (λ entry. entry.items) l.entries.items) };
}

impl Links {
    /// The links of these entries, each of which names definitions of earlier ones alone.
    pub fn new(entries: Vec<Vec<Target>>) -> Links
        requires { NamesEarlier (map (λ entry. entry.items) entries.items) }
        ensures { result ≡ map (λ entry. entry.items) entries.items }
    {
        Links { entries }
    }

    /// How many definitions have an entry.
    pub fn count(&self) -> usize
        ensures { result ≡ length self.now }
    {
        self.entries.len()
    }

    /// The targets of a definition.
    pub fn entry(&self, number: usize) -> &[Target]
        requires { number < length self.now }
        ensures targets { result.now ≡ targets_of self.now (Target.Definition number) }
        ensures earlier { (named : ℕ) → Contains result.now (Target.Definition named) → named < number }
    {
        self.entries[number].as_slice()
    }
}
