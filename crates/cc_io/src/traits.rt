ghost use Rattle.std.specs.Prelude.{ℕ, ◌+◌, ◌-◌, ◌^◌, ◌<◌, ◌≤◌, List, Option};
ghost use Rattle.std.specs.Io.{ReadsAtMost};
ghost use Rattle.std.specs.Io.KnownBytes.{ReadConsumes};
ghost use Rattle.cc_io.specs.Calls.{ReadCause, WriteCause, Writes};

/// A read or a write failed.
#[derive(Clone, Copy, Debug, PartialEq, Eq)]
pub struct Failed;

/// Why a sink took nothing.
#[derive(Clone, Copy, Debug, PartialEq, Eq)]
pub enum WriteError {
    /// The sink failed, and its count of faults rose.
    Failed,
    /// There is no memory for the bytes.
    NoMemory,
}

/// Where bytes come from. A source may tell the bytes that are left, and counts its faults.
pub trait Source {
    // the bytes that are left, where the source tells them
    ghost left: { Self → Option (List ℕ) };

    // how often a read failed
    ghost faults: { Self → ℕ };

    // how many reads were made, where the source counts them
    ghost read_count: { Self → ℕ } = { λ _. 0 };

    /// Puts bytes to the front of `buf` and answers how many. It answers 0 to a nonempty `buf` only at the end.
    ///
    /// `Failed`: the count of faults rose, and no byte was taken.
    fn read(&mut self, buf: &mut [u8]) -> Result<usize, Failed>
        requires { faults self.old < 2 ^ 64 - 1 }
        ensures bound { ReadsAtMost result buf.new }
        ensures bytes { ReadConsumes (left self.old) (left self.new) result buf.new }
        ensures cause { ReadCause (faults self.old) (faults self.new) result }
        ensures counted { read_count self.new ≤ read_count self.old + 1 };
}

/// Where bytes go. A sink may tell the bytes that were written, and counts its faults. It may take memory to write.
pub trait Sink {
    // the bytes that were written, where the sink tells them
    ghost written: { Self → Option (List ℕ) };

    // how often a write failed
    ghost faults: { Self → ℕ };

    /// Takes bytes from the front of `piece` and answers how many, at least one of a nonempty piece.
    ///
    /// `Failed`: the count of faults rose, and no byte was written. `NoMemory`: neither.
    fn write(&mut self, piece: &[u8]) -> Result<usize, WriteError>
        requires { faults self.old < 2 ^ 64 - 1 }
        ensures taken { Writes (written self.old) (written self.new) result piece.now }
        ensures cause { WriteCause (faults self.old) (faults self.new) result };
}
