ghost use Rattle.std.specs.Prelude.{◌≡◌, ◌+◌, ◌-◌, ◌^◌, ◌<◌, [], Some, None, OnErr};
ghost use Rattle.std.specs.Io.{ReadsAtMost};
ghost use Rattle.std.specs.Io.KnownBytes.{Appends, ReadConsumes};
ghost use Rattle.cc_io.specs.Calls.{ReadCause, WriteCause, Writes};
ghost use Rattle.cc_io.specs.HandedOn.{HandsOnRead, HandsOnWrite, GivesFront, counted};
ghost use Rattle.cc_io.specs.Acknowledged.{acknowledging, StdWrites, StdFlushes, HasAcknowledged, HoldsAcknowledged};

use crate::history::History;
use crate::streams::{Reader, Writer};
use crate::traits::{Failed, Sink, Source, WriteError};
use std::marker::Model;
use std::snapshot::Snapshot;

/// A source over a reader of std, such as standard input. It tells the bytes that the reader tells.
#[derive(Drop)]
pub struct StdSource<R: Reader + Drop> {
    reader: R,
    faults: u64,
}

impl<R: Reader + Drop> Model for StdSource<R> {
    ghost use Rattle.cc_io.specs.HandedOn.{Counted, counted};

    ghost Value = { Counted R };

    ghost view = { λ s. counted s.reader s.faults };
}

impl<R: Reader + Drop> StdSource<R> {
    /// Reads from `reader`, with no fault so far.
    pub fn new(reader: R) -> StdSource<R>
        ensures { result ≡ counted reader 0 }
    {
        StdSource { reader, faults: 0 }
    }
}

impl<R: Reader + Drop> Source for StdSource<R> {
    ghost left = { λ s. R.remaining s.stream };

    ghost faults = { λ s. s.faults };

    /// Reads the reader once, and hands on what it answers.
    fn read(&mut self, buf: &mut [u8]) -> Result<usize, Failed>
        requires { self.old.faults < 2 ^ 64 - 1 }
        ensures bound { ReadsAtMost result buf.new }
        ensures bytes { ReadConsumes (R.remaining self.old.stream) (R.remaining self.new.stream) result buf.new }
        ensures cause { ReadCause self.old.faults self.new.faults result }
        ensures by_one { OnErr result (self.new.faults ≡ self.old.faults + 1) }
        ensures call { HandsOnRead R.reads self.old.stream self.new.stream buf.old buf.new result }
    {
        match self.reader.read_once(buf) {
            Ok(read) => Ok(read),
            Err(_) => {
                self.faults += 1;
                Err(Failed)
            }
        }
    }
}

/// A sink over a writer of std, such as standard output. It flushes the writer at each write. It tells the bytes that it
/// has acknowledged: of each write that succeeded, what the writer took before it was flushed. At a write that fails it
/// acknowledges nothing, though the writer may have taken some of the piece.
///
/// Neither the writer as it was given nor the bytes are kept: proofs alone see them.
#[derive(Drop)]
pub struct StdSink<W: Writer + Drop> {
    writer: W,
    faults: u64,
    begun: Snapshot<W>,
    acknowledged: History,
}

impl<W: Writer + Drop> Model for StdSink<W> {
    ghost use Rattle.cc_io.specs.Acknowledged.{Acknowledging, acknowledging, StdWrites, StdFlushes, HasAcknowledged};

    ghost Value = { Acknowledging W };

    ghost view = { λ s. acknowledging s.writer s.faults s.begun.value s.acknowledged.text };

    ghost invariant = { λ s. HasAcknowledged (StdWrites W.contents W.writes) (StdFlushes W.contents W.flushes) s.begun.value
        s.writer s.faults s.acknowledged.text };
}

impl<W: Writer + Drop> StdSink<W> {
    /// Writes to `writer`, with no fault and nothing acknowledged so far.
    pub fn new(writer: W) -> StdSink<W>
        ensures { result ≡ acknowledging writer 0 writer [] }
    {
        let begun = Snapshot::of(&writer);
        StdSink {
            writer,
            faults: 0,
            begun,
            acknowledged: History::new(),
        }
    }

    /// What the acknowledged bytes are, at every moment. The function does nothing.
    pub fn acknowledges(&self)
        // They are those of the writer's calls since it was given to the sink, and it came to its state by these alone.
        ensures chain { HasAcknowledged (StdWrites W.contents W.writes) (StdFlushes W.contents W.flushes) self.now.begun
            self.now.stream self.now.faults self.now.acknowledged }

        // Where the writer tells what it holds, that has grown by them, and by what it took of pieces whose write failed.
        ensures held { HoldsAcknowledged W.contents self.now.begun self.now.stream self.now.faults self.now.acknowledged }

        // Where no write has failed, by them alone.
        ensures whole { self.now.faults ≡ 0
            → Appends (W.contents self.now.begun) (W.contents self.now.stream) self.now.acknowledged }
    {
        // reading a field has the proof see what is so of all of them
        let _faults = self.faults;
    }
}

impl<W: Writer + Drop> Sink for StdSink<W> {
    ghost written = { λ s. Some s.acknowledged };

    ghost faults = { λ s. s.faults };

    /// Writes to the writer once and then flushes it once. A writer that takes nothing of a nonempty piece fails.
    fn write(&mut self, piece: &[u8]) -> Result<usize, WriteError>
        requires { self.old.faults < 2 ^ 64 - 1 }
        ensures taken { Writes (Some self.old.acknowledged) (Some self.new.acknowledged) result piece.now }
        ensures cause { WriteCause self.old.faults self.new.faults result }
        ensures by_one { OnErr result (self.new.faults ≡ self.old.faults + 1) }
        ensures calls { HandsOnWrite W.writes W.flushes self.old.stream self.new.stream piece.now result }
        ensures given { GivesFront (W.contents self.old.stream) (W.contents self.new.stream) result piece.now }
        ensures begun { self.new.begun ≡ self.old.begun }
    {
        match write_and_flush(&mut self.writer, piece) {
            Ok(taken) => {
                self.acknowledged.append(&piece[..taken]);
                Ok(taken)
            }
            Err(error) => {
                self.faults += 1;
                Err(error)
            }
        }
    }
}

/// Writes to the writer once and then flushes it once. A writer that takes nothing of a nonempty piece fails.
fn write_and_flush<W: Writer>(writer: &mut W, piece: &[u8]) -> Result<usize, WriteError>
    ensures taken { Writes None None result piece.now }
    ensures calls { HandsOnWrite W.writes W.flushes writer.old writer.new piece.now result }
    ensures std_calls { HandsOnWrite (StdWrites W.contents W.writes) (StdFlushes W.contents W.flushes) writer.old writer.new
        piece.now result }
    ensures given { GivesFront (W.contents writer.old) (W.contents writer.new) result piece.now }
{
    let Ok(taken) = writer.write_once(piece) else {
        return Err(WriteError::Failed);
    };
    if taken == 0 && !piece.is_empty() {
        return Err(WriteError::Failed);
    }
    match writer.flush_once() {
        Ok(()) => Ok(taken),
        Err(_) => Err(WriteError::Failed),
    }
}
