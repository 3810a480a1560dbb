ghost use Rattle.std.specs.Prelude.{ℕ, ◌+◌, ◌-◌, ◌^◌, ◌<◌, ◌≤◌, length, IfOk};
ghost use Rattle.std.specs.Io.KnownBytes.{Consumes, IsAtEnd};
ghost use Rattle.cc_io.specs.Wholes.{Takes, ReadAllCause, WritesWhole, WriteAllCause};

use crate::traits::{Failed, Sink, Source, WriteError};
use std::alloc::{AllocError, Global};

/// How many bytes are asked for at most in one read.
const CHUNK: usize = 4096;

/// Why not all bytes of a source were read.
#[derive(Clone, Copy, Debug, PartialEq, Eq)]
pub enum ReadAll {
    /// A read failed.
    ReadFault,
    /// There are more bytes than the limit.
    TooLong,
    /// There is no memory for the bytes.
    NoMemory,
}

/// Why not all bytes were written.
#[derive(Clone, Copy, Debug, PartialEq, Eq)]
pub enum WriteAll {
    /// A write failed.
    WriteFault,
    /// There is no memory for the bytes.
    NoMemory,
}

/// Reads to the end: all the bytes that were left, if they are at most `limit`. It takes no more than `limit + 1` bytes,
/// in no more than `limit + 1` reads.
///
/// `ReadFault`: a read failed, and the count of faults rose. `TooLong`: `limit + 1` bytes were taken.
/// `NoMemory`: there is no memory for the bytes. At an error the source does not get back what was taken.
pub fn read_all<S: Source>(alloc: Global, source: &mut S, limit: usize) -> Result<Vec<u8>, ReadAll>
    requires count { S.faults source.old < 2 ^ 64 - 1 }
    requires limit { limit < 2 ^ 32 }

    // The answer holds all bytes that were left, and none is left.
    ensures whole { IfOk result (λ v. Consumes (S.left source.old) (S.left source.new) v.items
        × IsAtEnd (S.left source.new) × (length v.items ≤ limit)) }

    // How many bytes were taken at each answer.
    ensures taken { Takes limit (S.left source.old) (S.left source.new) result }
    ensures cause { ReadAllCause (S.faults source.old) (S.faults source.new) result }
    ensures reads { S.read_count source.new ≤ S.read_count source.old + limit + 1 }
{
    let mut bytes = Vec::new(alloc);
    let mut buf = [0; CHUNK];
    loop {
        let room = (limit + 1 - bytes.len()).min(CHUNK);
        let read = match source.read(&mut buf[..room]) {
            Ok(read) => read,
            Err(Failed) => return Err(ReadAll::ReadFault),
        };
        if read == 0 {
            return Ok(bytes);
        }
        if bytes.len() + read > limit {
            return Err(ReadAll::TooLong);
        }
        match bytes.extend_from_slice(&buf[..read]) {
            Ok(()) => {}
            Err(AllocError) => return Err(ReadAll::NoMemory),
        }
    }
}

/// Writes all of `bytes`. At an error a front of them was written.
///
/// `WriteFault`: a write failed, and the count of faults rose. `NoMemory`: the sink has no memory for the bytes.
pub fn write_all<K: Sink>(sink: &mut K, bytes: &[u8]) -> Result<(), WriteAll>
    requires { K.faults sink.old < 2 ^ 64 - 1 }
    ensures written { WritesWhole (K.written sink.old) (K.written sink.new) result bytes.now }
    ensures cause { WriteAllCause (K.faults sink.old) (K.faults sink.new) result }
{
    let mut at = 0;
    while at < bytes.len() {
        match sink.write(&bytes[at..]) {
            Ok(taken) => at += taken,
            Err(WriteError::Failed) => return Err(WriteAll::WriteFault),
            Err(WriteError::NoMemory) => return Err(WriteAll::NoMemory),
        }
    }
    Ok(())
}
