//! Writing the lines of a cause.

ghost use Rattle.std.specs.Prelude.{ℕ, ◌-◌, ◌^◌, ◌<◌};
ghost use Rattle.std.specs.String.{string_bytes};
ghost use Rattle.cc_io.specs.Pieces.{Streams};
ghost use Rattle.cc_io.specs.Wholes.{WriteAllCause};
ghost use Rattle.cc_labels.specs.LabelledLines.{indented_lines};
ghost use Rattle.cc_reasons.specs.ReasonTexts.{IsCompared};
ghost use Rattle.cc_reasons.specs.ReasonTexts as plain;
ghost use Rattle.cc_causes.specs.Views.{cause_of};
ghost use Rattle.cc_cause_texts.specs.CauseLines.{CanBeTold};

use crate::cause_lines::cause_lines;
use cc_base::name::Name;
use cc_causes::reason::Cause;
use cc_io::{Sink, WriteAll};
use cc_labels::write_lines;
use std::alloc::{AllocError, Global};

/// Writes the lines of a cause, each behind two spaces and with a line feed, where the first positions have these names: what
/// was found, what was wanted, and where the two do not match. The text is written in pieces.
///
/// `WriteFault`: a write failed, and the count of faults rose. `NoMemory`: there was no memory, as which the number of a
/// binder past 2^32 - 1 counts, and a size past 2^64 - 2, or the sink has none.
pub fn write_cause<K: Sink>(
    alloc: Global,
    sink: &mut K,
    waiting: &mut String,
    names: &[Name],
    cause: &Cause,
) -> Result<(), WriteAll>
    requires count { K.faults sink.old < 2 ^ 64 - 1 }
    requires told { CanBeTold (cause_of cause.now) }
    ensures streams { (steps : ℕ) × IsCompared steps (cause_of cause.now)
        × Streams (K.written sink.old) (K.written sink.new) (string_bytes waiting.old) (string_bytes waiting.new) result
        (indented_lines (plain.cause_lines steps names.now (cause_of cause.now))) }
    ensures cause { WriteAllCause (K.faults sink.old) (K.faults sink.new) result }
{
    match cause_lines(alloc, names, cause) {
        Ok(lines) => write_lines(alloc, sink, waiting, lines.as_slice()),
        Err(AllocError) => Err(WriteAll::NoMemory),
    }
}
