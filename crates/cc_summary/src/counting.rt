//! A sink that keeps what a summary tells, and writes nothing anywhere.
ghost use Rattle.std.specs.Prelude.{◌≡◌, ℕ, List, [], Some, IfOk};
ghost use Rattle.cc_summary.specs.Summaries.{summary_text};

use crate::summary::summary;
use crate::tally::Tally;
use cc_io::{History, Sink, WriteError};
use std::alloc::{AllocError, Global};
use std::marker::Model;

/// A sink that counts the lines and the bytes of what is written, and keeps the last line alone. It takes whole pieces and
/// fails only for want of memory.
///
/// The text itself is not kept: proofs alone see it.
#[derive(Drop)]
pub struct CountingSink {
    tally: Tally,
    history: History,
    alloc: Global,
}

impl Model for CountingSink {
    ghost use Rattle.std.specs.Prelude.{List, ℕ};
    ghost use Rattle.cc_summary.specs.Summaries.{IsTally};

    ghost Value = { List ℕ };

    ghost view = { λ s. s.history.text };

    ghost invariant = { λ s. IsTally s.history.text s.tally.lines s.tally.bytes s.tally.last.items s.tally.ended };
}

impl CountingSink {
    /// A sink to which nothing was written.
    pub fn new(alloc: Global) -> CountingSink
        ensures written { ⟦<CountingSink as Sink>⟧.written result ≡ Some [] }
        ensures faults { ⟦<CountingSink as Sink>⟧.faults result ≡ 0 }
    {
        CountingSink {
            tally: Tally::new(alloc),
            history: History::new(),
            alloc,
        }
    }

    /// The summary of what was written, of the workload with this number. Fails only for want of memory.
    pub fn summary(&self, alloc: Global, workload: u32) -> Result<Vec<u8>, AllocError>
        ensures { (text : List ℕ) → Some text ≡ ⟦<CountingSink as Sink>⟧.written self.now
            → IfOk result (λ told. told.items ≡ summary_text workload text) }
    {
        summary(alloc, workload, &self.tally)
    }
}

impl Sink for CountingSink {
    ghost written = { λ s. Some s };

    ghost faults = { λ _. 0 };

    fn write(&mut self, piece: &[u8]) -> Result<usize, WriteError> {
        match self.tally.followed(self.alloc, piece) {
            Ok(next) => {
                self.tally = next;
                self.history.append(piece);
                Ok(piece.len())
            }
            Err(AllocError) => Err(WriteError::NoMemory),
        }
    }
}
