//! A text that is not kept: proofs read it, and at run time there is nothing of it.
ghost use Rattle.std.specs.Prelude.{◌≡◌, ℕ, List, [], ◌++◌};

use std::marker::Model;

/// All that was written, as a value of the proofs alone.
///
/// No bytes hold it: it is what the calls of `new` and `append` make of it.
#[derive(Drop)]
pub struct History {
    pub ghost text: { List ℕ },
}

impl Model for History {
    ghost use base.Fml.{ftrue};

    ghost also_owns = { λ _. ftrue };
}

impl History {
    /// Of the empty text.
    pub fn new() -> History
        ensures { result.text ≡ [] }
    {
        History {}
    }

    /// Puts the piece behind the text.
    pub fn append(&mut self, piece: &[u8])
        ensures { self.new.text ≡ self.old.text ++ piece.now }
    {}
}
