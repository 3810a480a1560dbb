//! What is kept of a text while it is written.
ghost use Rattle.std.specs.Prelude.{◌≡◌, ℕ, ◌+◌, ◌-◌, ◌^◌, min, if◌then◌else◌, List, [], ◌∷◌, ◌++◌, IfOk};
ghost use Rattle.cc_summary.specs.Summaries.{IsTally};

use std::alloc::{AllocError, Global};

/// What is kept of a text. The counts stop at the largest `u64`.
#[derive(Drop)]
pub struct Tally {
    /// How many lines it has.
    pub lines: u64,
    /// How many bytes it has.
    pub bytes: u64,
    /// Its last line, without the line feed.
    pub last: Vec<u8>,
    /// Whether the line feed behind the last line was seen; true of an empty text.
    pub ended: bool,
}

impl Tally {
    /// Of the empty text.
    pub fn new(alloc: Global) -> Tally
        ensures { IsTally [] result.lines result.bytes result.last.items result.ended }
    {
        Tally {
            lines: 0,
            bytes: 0,
            last: Vec::new(alloc),
            ended: true,
        }
    }

    /// Begins the next line where the last one has its line feed.
    fn begin_line(&mut self)
        ensures lines { self.new.lines ≡ if self.old.ended then min (self.old.lines + 1) (2 ^ 64 - 1) else self.old.lines }
        ensures bytes { self.new.bytes ≡ self.old.bytes }
        ensures last { self.new.last.items ≡ if self.old.ended then [] else self.old.last.items }
    {
        if self.ended {
            self.lines = self.lines.saturating_add(1);
            self.last.clear();
        }
    }

    /// Takes the next byte of the text. Fails only for want of memory, and is of no text then.
    fn take(&mut self, byte: u8) -> Result<(), AllocError>
        ensures { (text : List ℕ) → IsTally text self.old.lines self.old.bytes self.old.last.items self.old.ended
            → IfOk result (λ _. IsTally (text ++ byte ∷ []) self.new.lines self.new.bytes self.new.last.items self.new.ended) }
    {
        self.begin_line();
        self.bytes = self.bytes.saturating_add(1);
        self.ended = byte == b'\n';
        if !self.ended {
            self.last.push(byte)?;
        }
        Ok(())
    }

    /// Of the text with the piece behind it. Fails only for want of memory.
    pub fn followed(&self, alloc: Global, piece: &[u8]) -> Result<Tally, AllocError>
        ensures { (text : List ℕ) → IsTally text self.now.lines self.now.bytes self.now.last.items self.now.ended
            → IfOk result (λ next. IsTally (text ++ piece.now) next.lines next.bytes next.last.items next.ended) }
    {
        let mut last = Vec::new(alloc);
        last.extend_from_slice(&self.last)?;
        let mut next = Tally {
            lines: self.lines,
            bytes: self.bytes,
            last,
            ended: self.ended,
        };
        let mut at = 0;
        while at < piece.len() {
            next.take(piece[at])?;
            at += 1;
        }
        Ok(next)
    }
}
