//! Writing replies.

ghost use Rattle.std.specs.Prelude.{◌≡◌, ◌-◌, ◌^◌, ◌<◌, ℕ, List, Option, IfOk};
ghost use Rattle.std.specs.String.{string_bytes};
ghost use Rattle.cc_io.specs.Wholes.{WritesWhole, WriteAllCause};

use cc_io::{Sink, WriteAll, write_all};
use std::alloc::AllocError;

/// Writes the reply, if there is memory for it, and tells whether it is a refusal, as it is told.
pub fn write_reply<K: Sink>(
    sink: &mut K,
    reply: Result<String, AllocError>,
    refused: bool,
) -> Result<bool, WriteAll>
    requires { K.faults sink.old < 2 ^ 64 - 1 }
    ensures written { (text : List ℕ) → IfOk reply (λ it. string_bytes it ≡ text)
        → WritesWhole (K.written sink.old) (K.written sink.new) result text }
    ensures refused { IfOk result (λ answer. answer ≡ refused) }
    ensures cause { WriteAllCause (K.faults sink.old) (K.faults sink.new) result }
{
    match reply {
        Ok(text) => {
            write_all(sink, text.as_bytes())?;
            Ok(refused)
        }
        Err(AllocError) => Err(WriteAll::NoMemory),
    }
}

/// Tells of a reply that was written in pieces whether it is a refusal, as it is told.
pub fn told(written: Result<(), WriteAll>, refused: bool) -> Result<bool, WriteAll>
    ensures written { (old new : Option (List ℕ)) (text : List ℕ) → WritesWhole old new written text → WritesWhole old new result text }
    ensures refused { IfOk result (λ answer. answer ≡ refused) }
    ensures cause { (before after : ℕ) → WriteAllCause before after written → WriteAllCause before after result }
{
    match written {
        Ok(()) => Ok(refused),
        Err(error) => Err(error),
    }
}
