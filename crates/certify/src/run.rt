//! Reading a certificate, and writing what is found of it.
ghost use Rattle.std.specs.Prelude.{◌≡◌, ◌-◌, ◌^◌, ◌<◌};
ghost use Rattle.certify.specs.Calls.{IsCall};
ghost use Rattle.certify.specs.Outcome.{Outcome, ends};

use crate::status::Status;
use cc_certificate_judging::answer_to;
use cc_io::{ReadAll, Sink, Source, WriteAll, read_all, write_all};
use std::alloc::{AllocError, Global};

/// The greatest number of bytes of a certificate.
const LIMIT: usize = 4_294_967_295;

// Reads the certificate, judges it, and writes the line of the answer. Nothing is written before all is read.
fn judge_source<S: Source, K: Sink>(alloc: Global, source: &mut S, sink: &mut K) -> Status
    requires source { S.faults source.old < 2 ^ 64 - 1 }
    requires sink { K.faults sink.old < 2 ^ 64 - 1 }
    ensures { Outcome
        (ends (S.left source.old) (S.faults source.old) (K.written sink.old) (K.faults sink.old))
        (ends (S.left source.new) (S.faults source.new) (K.written sink.new) (K.faults sink.new))
        result }
{
    let bytes = match read_all(alloc, source, LIMIT) {
        Ok(bytes) => bytes,
        Err(ReadAll::ReadFault) => return Status::ReadFault,
        Err(ReadAll::TooLong) => return Status::TooLong,
        Err(ReadAll::NoMemory) => return Status::NoMemory,
    };
    let answer = match answer_to(alloc, bytes.as_slice()) {
        Ok(answer) => answer,
        Err(AllocError) => return Status::NoMemory,
    };
    let line = match format!(in alloc; "{answer}\n") {
        Ok(line) => line,
        Err(AllocError) => return Status::NoMemory,
    };
    match write_all(sink, line.as_bytes()) {
        Ok(()) => {
            if answer.is_valid() {
                Status::Valid
            } else {
                Status::Invalid
            }
        }
        Err(WriteAll::WriteFault) => Status::WriteFault,
        Err(WriteAll::NoMemory) => Status::NoMemory,
    }
}

/// Judges the certificate of the source where there is no word after the program's name, and writes the line of the
/// answer. Where there is one it touches nothing.
pub fn certify<S: Source, K: Sink>(
    alloc: Global,
    words: &[String],
    source: &mut S,
    sink: &mut K,
) -> Status
    requires source { S.faults source.old < 2 ^ 64 - 1 }
    requires sink { K.faults sink.old < 2 ^ 64 - 1 }
    ensures { IsCall (source.new ≡ source.old) (sink.new ≡ sink.old)
        (ends (S.left source.old) (S.faults source.old) (K.written sink.old) (K.faults sink.old))
        (ends (S.left source.new) (S.faults source.new) (K.written sink.new) (K.faults sink.new))
        words.now result }
{
    match words {
        [] => judge_source(alloc, source, sink),
        _ => Status::BadWords,
    }
}
