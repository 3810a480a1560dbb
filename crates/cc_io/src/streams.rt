//! The readers and the writers of std, with a word for each call that one of them has answered.
ghost use Rattle.std.specs.Prelude.{◌≡◌, ℕ, List, Option, Result, IfSome};
ghost use Rattle.std.specs.Fmt.{with_newline};
ghost use Rattle.std.specs.Io.{ReadsAtMost, WritesAtMost};
ghost use Rattle.std.specs.Io.KnownBytes.{Keeps, ReadConsumes, WriteAppends};
ghost use Rattle.std.specs.declared.io.Error.{Error};

use std::fmt::Display;
use std::io::{Eprint, Read, Result, Write};

/// A reader whose calls contracts can name. Each reader of std is one.
pub trait Reader {
    // the bytes that reads will give from here on, where they are known
    ghost remaining: { Self → Option (List ℕ) };

    // a read from the one state into this room was answered so, with these bytes in the room, and left the other state
    ghost reads: { Self → List ℕ → Result ℕ Error → List ℕ → Self → Type 0 };

    /// Reads once.
    fn read_once(&mut self, buf: &mut [u8]) -> Result<usize>
        ensures bound { ReadsAtMost result buf.new }
        ensures bytes { ReadConsumes (remaining self.old) (remaining self.new) result buf.new }
        ensures call { reads self.old buf.old result buf.new self.new };
}

impl<R: Read> Reader for R {
    ghost remaining = { R.remaining };

    // std says no more of a call
    ghost reads = { λ _ _ _ _ _. Unit {0} };

    fn read_once(&mut self, buf: &mut [u8]) -> Result<usize> {
        self.read(buf)
    }
}

/// A writer whose calls contracts can name. Each writer of std is one.
pub trait Writer {
    // the bytes that the writer holds, where they are known
    ghost contents: { Self → Option (List ℕ) };

    // a write of this piece from the one state was answered so, and left the other state
    ghost writes: { Self → List ℕ → Result ℕ Error → Self → Type 0 };

    // a flush from the one state was answered so, and left the other state
    ghost flushes: { Self → Result (Unit {0}) Error → Self → Type 0 };

    /// Writes once.
    fn write_once(&mut self, piece: &[u8]) -> Result<usize>
        ensures bound { WritesAtMost result piece.now }
        ensures bytes { WriteAppends (contents self.old) (contents self.new) result piece.now }
        ensures call { writes self.old piece.now result self.new };

    /// Flushes once.
    fn flush_once(&mut self) -> Result<()>
        ensures bytes { Keeps (contents self.old) (contents self.new) }
        ensures call { flushes self.old result self.new };
}

impl<W: Write> Writer for W {
    ghost contents = { W.contents };

    // std says no more of a call
    ghost writes = { λ _ _ _ _. Unit {0} };

    ghost flushes = { λ _ _ _. Unit {0} };

    fn write_once(&mut self, piece: &[u8]) -> Result<usize> {
        self.write(piece)
    }

    fn flush_once(&mut self) -> Result<()> {
        self.flush()
    }
}

/// A writer of messages whose calls contracts can name. Each handle of std that prints to standard error is one.
pub trait Messages {
    // These bytes were given to the writer in the one state, which answered so and was left in the other state. All of
    // them are written, or a front of them where the answer is an error.
    ghost gives: { Self → List ℕ → Result (Unit {0}) Error → Self → Type 0 };

    /// Writes the text and a line feed, in one call.
    fn give_line<D: Display + Drop>(&mut self, text: D) -> Result<()>
        ensures call { IfSome (with_newline (D.output text)) (λ bytes. gives self.old bytes result self.new) };
}

impl<E: Eprint> Messages for E {
    // std says no more of a call
    ghost gives = { λ _ _ _ _. Unit {0} };

    fn give_line<D: Display + Drop>(&mut self, text: D) -> Result<()> {
        self.eprintln(text)
    }
}
