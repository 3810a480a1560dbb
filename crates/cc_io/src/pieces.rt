//! Writing a text in pieces, so that the whole of it need not be held: pieces are put behind what waits, and what waits is
//! written as soon as it is much.
ghost use Rattle.std.specs.Prelude.{◌≡◌, ◌-◌, ◌^◌, ◌<◌, ◌++◌, ℕ, List, [], length, IfOk, OnOk};
ghost use Rattle.std.specs.String.{string_bytes};
ghost use Rattle.cc_io.specs.Pieces.{Streams};
ghost use Rattle.cc_io.specs.Wholes.{WriteAllCause};

use crate::traits::Sink;
use crate::whole::{WriteAll, write_all};
use std::alloc::AllocError;

/// How many bytes are enough to be written: fewer wait for more of them.
const MUCH: usize = 65_536;

/// Writes what waits, if it is much: fewer than 65,536 bytes wait behind it.
///
/// `WriteFault`: a write failed, and the count of faults rose. `NoMemory`: the sink has no memory for the bytes.
pub fn spill<K: Sink>(sink: &mut K, waiting: &mut String) -> Result<(), WriteAll>
    requires { K.faults sink.old < 2 ^ 64 - 1 }
    ensures streams { Streams (K.written sink.old) (K.written sink.new) (string_bytes waiting.old) (string_bytes waiting.new) result [] }
    ensures short { IfOk result (λ u. length (string_bytes waiting.new) < 65536) }
    ensures cause { WriteAllCause (K.faults sink.old) (K.faults sink.new) result }
{
    if waiting.len() < MUCH {
        return Ok(());
    }
    write_all(sink, waiting.as_bytes())?;
    waiting.clear();
    Ok(())
}

/// Goes on where a text was put behind what waits, if there was memory for it: what waits is written, if it is much, and
/// fewer than 65,536 bytes wait behind it.
///
/// `WriteFault`: a write failed, and the count of faults rose. `NoMemory`: there was no memory for the text, or the sink
/// has none.
pub fn pass_on<K: Sink>(
    sink: &mut K,
    waiting: &mut String,
    put: Result<(), AllocError>,
) -> Result<(), WriteAll>
    requires { K.faults sink.old < 2 ^ 64 - 1 }
    ensures streams { (before text : List ℕ) → OnOk put (string_bytes waiting.old ≡ before ++ text)
        → Streams (K.written sink.old) (K.written sink.new) before (string_bytes waiting.new) result text }
    ensures short { IfOk result (λ u. length (string_bytes waiting.new) < 65536) }
    ensures cause { WriteAllCause (K.faults sink.old) (K.faults sink.new) result }
{
    match put {
        Ok(()) => spill(sink, waiting),
        Err(AllocError) => Err(WriteAll::NoMemory),
    }
}
