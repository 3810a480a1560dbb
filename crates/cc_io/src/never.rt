ghost use Rattle.std.specs.Prelude.{◌≡◌, [], Some};

use crate::copy::copy_from;
use crate::traits::{Failed, Sink, Source, WriteError};
use std::alloc::{AllocError, Global};
use std::marker::Model;

/// A source that gives bytes of memory and never fails.
#[derive(Drop)]
pub struct NeverSource {
    bytes: Vec<u8>,
    at: usize,
}

impl Model for NeverSource {
    ghost use Rattle.std.specs.Prelude.{◌≤◌, List, ℕ, drop, vec_len};

    ghost Value = { List ℕ };

    ghost view = { λ s. drop s.at s.bytes.items };

    ghost invariant = { λ s. s.at ≤ vec_len s.bytes };
}

impl NeverSource {
    /// Gives `bytes`.
    pub fn new(bytes: Vec<u8>) -> NeverSource
        ensures left { ⟦<NeverSource as Source>⟧.left result ≡ Some bytes.items }
        ensures faults { ⟦<NeverSource as Source>⟧.faults result ≡ 0 }
    {
        NeverSource { bytes, at: 0 }
    }
}

impl Source for NeverSource {
    ghost left = { λ s. Some s };

    ghost faults = { λ _. 0 };

    fn read(&mut self, buf: &mut [u8]) -> Result<usize, Failed> {
        let given = copy_from(&self.bytes, self.at, usize::MAX, buf);
        self.at += given;
        Ok(given)
    }
}

/// A sink that keeps its bytes in memory and never fails, but for want of memory.
#[derive(Drop)]
pub struct NeverSink {
    bytes: Vec<u8>,
}

impl Model for NeverSink {
    ghost use Rattle.std.specs.Prelude.{List, ℕ};

    ghost Value = { List ℕ };

    ghost view = { λ s. s.bytes.items };
}

impl NeverSink {
    /// A sink with no bytes.
    pub fn new(alloc: Global) -> NeverSink
        ensures written { ⟦<NeverSink as Sink>⟧.written result ≡ Some [] }
        ensures faults { ⟦<NeverSink as Sink>⟧.faults result ≡ 0 }
    {
        NeverSink {
            bytes: Vec::new(alloc),
        }
    }

    /// The bytes that were written.
    pub fn bytes(&self) -> &[u8]
        ensures { Some result.now ≡ ⟦<NeverSink as Sink>⟧.written self.now }
    {
        self.bytes.as_slice()
    }
}

impl Sink for NeverSink {
    ghost written = { λ s. Some s };

    ghost faults = { λ _. 0 };

    fn write(&mut self, piece: &[u8]) -> Result<usize, WriteError> {
        match self.bytes.extend_from_slice(piece) {
            Ok(()) => Ok(piece.len()),
            Err(AllocError) => Err(WriteError::NoMemory),
        }
    }
}
