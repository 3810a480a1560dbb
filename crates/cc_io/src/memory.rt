ghost use Rattle.std.specs.Prelude.{◌≡◌, ◌≢◌, ◌+◌, ◌-◌, ◌^◌, ◌<◌, ◌≤◌, [], length, Some, IfOk};
ghost use Rattle.std.specs.Io.{ReadsAtMost};
ghost use Rattle.std.specs.Io.KnownBytes.{ReadConsumes};
ghost use Rattle.cc_io.specs.Calls.{ReadCause, WriteCause, Writes};
ghost use Rattle.cc_io.specs.CallPlans.{ReadFollows, WriteFollows, after_call, fresh_plan};

use crate::copy::copy_from;
use crate::plan::Plan;
use crate::traits::{Failed, Sink, Source, WriteError};
use std::alloc::{AllocError, Global};
use std::marker::Model;

/// A source that gives bytes of memory, at most so many a call, and fails at the calls that it is set to fail at.
#[derive(Drop)]
pub struct MemSource {
    bytes: Vec<u8>,
    at: usize,
    faults: u64,
    plan: Plan,
}

impl Model for MemSource {
    ghost use Rattle.std.specs.Prelude.{◌≤◌, drop, vec_len};
    ghost use Rattle.cc_io.specs.CallPlans.{SourceInMemory};

    ghost Value = { SourceInMemory };

    ghost view = { λ s. record { left = drop s.at s.bytes.items; faults = s.faults; plan = s.plan } };

    ghost invariant = { λ s. s.at ≤ vec_len s.bytes };
}

impl MemSource {
    /// Gives `bytes`, at most `most` a call. The calls whose numbers stand in `fails`, counted from 1, fail and take nothing.
    pub fn new(bytes: Vec<u8>, most: usize, fails: Vec<u32>) -> MemSource
        requires { 0 < most }
        ensures left { ⟦<MemSource as Source>⟧.left result ≡ Some bytes.items }
        ensures faults { ⟦<MemSource as Source>⟧.faults result ≡ 0 }
        ensures plan { result.plan ≡ fresh_plan most fails.items }
    {
        MemSource {
            bytes,
            at: 0,
            faults: 0,
            plan: Plan::new(most, fails),
        }
    }
}

impl Source for MemSource {
    ghost left = { λ s. Some s.left };

    ghost faults = { λ s. s.faults };

    ghost read_count = { λ s. s.plan.calls };

    /// Gives at least one byte while bytes are left and `buf` is not empty.
    fn read(&mut self, buf: &mut [u8]) -> Result<usize, Failed>
        requires { self.old.faults < 2 ^ 64 - 1 }
        ensures bound { ReadsAtMost result buf.new }
        ensures bytes { ReadConsumes (Some self.old.left) (Some self.new.left) result buf.new }
        ensures cause { ReadCause self.old.faults self.new.faults result }
        ensures counted { self.new.plan.calls ≤ self.old.plan.calls + 1 }
        ensures most { IfOk result (λ n. n ≤ self.old.plan.most) }
        ensures some { IfOk result (λ n. 0 < length buf.old → self.old.left ≢ [] → 0 < n) }
        ensures planned { ReadFollows self.old.plan result }
        ensures plan { self.new.plan ≡ after_call self.old.plan }
    {
        if self.plan.begin_call() {
            self.faults += 1;
            return Err(Failed);
        }
        let given = copy_from(&self.bytes, self.at, self.plan.most(), buf);
        self.at += given;
        Ok(given)
    }
}

/// A sink that keeps its bytes in memory, takes at most so many a call, and fails at the calls that it is set to fail at.
#[derive(Drop)]
pub struct MemSink {
    bytes: Vec<u8>,
    faults: u64,
    plan: Plan,
}

impl Model for MemSink {
    ghost use Rattle.cc_io.specs.CallPlans.{SinkInMemory};

    ghost Value = { SinkInMemory };

    ghost view = { λ s. record { written = s.bytes.items; faults = s.faults; plan = s.plan } };
}

impl MemSink {
    /// Takes at most `most` bytes a call. The calls whose numbers stand in `fails`, counted from 1, fail and take nothing.
    pub fn new(alloc: Global, most: usize, fails: Vec<u32>) -> MemSink
        requires { 0 < most }
        ensures written { ⟦<MemSink as Sink>⟧.written result ≡ Some [] }
        ensures faults { ⟦<MemSink as Sink>⟧.faults result ≡ 0 }
        ensures plan { result.plan ≡ fresh_plan most fails.items }
    {
        MemSink {
            bytes: Vec::new(alloc),
            faults: 0,
            plan: Plan::new(most, fails),
        }
    }

    /// The bytes that were written.
    pub fn bytes(&self) -> &[u8]
        ensures { Some result.now ≡ ⟦<MemSink as Sink>⟧.written self.now }
    {
        self.bytes.as_slice()
    }
}

impl Sink for MemSink {
    ghost written = { λ s. Some s.written };

    ghost faults = { λ s. s.faults };

    /// Takes at least one byte of a nonempty `piece`.
    fn write(&mut self, piece: &[u8]) -> Result<usize, WriteError>
        requires { self.old.faults < 2 ^ 64 - 1 }
        ensures taken { Writes (Some self.old.written) (Some self.new.written) result piece.now }
        ensures cause { WriteCause self.old.faults self.new.faults result }
        ensures most { IfOk result (λ n. n ≤ self.old.plan.most) }
        ensures planned { WriteFollows self.old.plan result }
        ensures plan { self.new.plan ≡ after_call self.old.plan }
    {
        if self.plan.begin_call() {
            self.faults += 1;
            return Err(WriteError::Failed);
        }
        let taken = piece.len().min(self.plan.most());
        match self.bytes.extend_from_slice(&piece[..taken]) {
            Ok(()) => Ok(taken),
            Err(AllocError) => Err(WriteError::NoMemory),
        }
    }
}
