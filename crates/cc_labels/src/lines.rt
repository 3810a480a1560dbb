//! Lines that tell something.

ghost use Rattle.std.specs.Prelude.{◌≡◌, ◌-◌, ◌^◌, ◌<◌, ◌++◌, [], ◌∷◌, map, codes, OnOk};
ghost use Rattle.std.specs.String.{string_bytes};
ghost use Rattle.cc_io.specs.Pieces.{Streams};
ghost use Rattle.cc_io.specs.Wholes.{WriteAllCause};
ghost use Rattle.cc_labels.specs.LabelledLines.{told, line_of, indented, indented_lines};

use crate::labels::Labels;
use crate::pieces::write_type;
use crate::printing::put;
use cc_core::Ty;
use cc_io::{Sink, WriteAll, pass_on};
use std::alloc::{AllocError, Global};
use std::rc::Rc;

/// Words, and maybe a type behind them, whose positions have these labels.
#[derive(Drop)]
pub struct Line {
    pub words: String,
    pub labels: Rc<Labels>,
    pub ty: Option<Ty>,
}

// Adds the words behind two spaces.
fn put_words(out: &mut String, words: &str) -> Result<(), AllocError>
    ensures { OnOk result (string_bytes out.new ≡ string_bytes out.old ++ (codes "  " ++ words.now)) }
{
    put(out, "  ")?;
    put(out, words)
}

// Writes the words behind two spaces.
fn write_words<K: Sink>(sink: &mut K, waiting: &mut String, words: &str) -> Result<(), WriteAll>
    requires { K.faults sink.old < 2 ^ 64 - 1 }
    ensures streams { Streams (K.written sink.old) (K.written sink.new) (string_bytes waiting.old) (string_bytes waiting.new) result
        (codes "  " ++ words.now) }
    ensures cause { WriteAllCause (K.faults sink.old) (K.faults sink.new) result }
{
    let put = put_words(waiting, words);
    pass_on(sink, waiting, put)
}

// Writes the end of a line.
fn write_line_feed<K: Sink>(sink: &mut K, waiting: &mut String) -> Result<(), WriteAll>
    requires { K.faults sink.old < 2 ^ 64 - 1 }
    ensures streams { Streams (K.written sink.old) (K.written sink.new) (string_bytes waiting.old) (string_bytes waiting.new) result
        (10 ∷ []) }
    ensures cause { WriteAllCause (K.faults sink.old) (K.faults sink.new) result }
{
    let put = put(waiting, "\n");
    pass_on(sink, waiting, put)
}

// Writes the type, if there is one.
fn write_told<K: Sink>(
    alloc: Global,
    sink: &mut K,
    waiting: &mut String,
    labels: &Labels,
    ty: &Option<Ty>,
) -> Result<(), WriteAll>
    requires { K.faults sink.old < 2 ^ 64 - 1 }
    ensures streams { Streams (K.written sink.old) (K.written sink.new) (string_bytes waiting.old) (string_bytes waiting.new) result
        (told labels.now ty.now) }
    ensures cause { WriteAllCause (K.faults sink.old) (K.faults sink.new) result }
{
    match ty {
        Some(ty) => write_type(alloc, sink, waiting, labels, ty),
        None => Ok(()),
    }
}

// Writes a line.
fn write_line<K: Sink>(
    alloc: Global,
    sink: &mut K,
    waiting: &mut String,
    line: &Line,
) -> Result<(), WriteAll>
    requires { K.faults sink.old < 2 ^ 64 - 1 }
    ensures streams { Streams (K.written sink.old) (K.written sink.new) (string_bytes waiting.old) (string_bytes waiting.new) result
        (indented (line_of line.now)) }
    ensures cause { WriteAllCause (K.faults sink.old) (K.faults sink.new) result }
{
    write_words(sink, waiting, line.words.as_str())?;
    write_told(alloc, sink, waiting, &line.labels, &line.ty)?;
    write_line_feed(sink, waiting)
}

/// Writes lines, each behind two spaces and with a line feed. The text is written in pieces.
///
/// `WriteFault`: a write failed, and the count of faults rose. `NoMemory`: there was no memory, as which the number of a
/// binder past 2^32 - 1 counts, or the sink has none.
pub fn write_lines<K: Sink>(
    alloc: Global,
    sink: &mut K,
    waiting: &mut String,
    lines: &[Line],
) -> Result<(), WriteAll>
    requires { K.faults sink.old < 2 ^ 64 - 1 }
    ensures streams { Streams (K.written sink.old) (K.written sink.new) (string_bytes waiting.old) (string_bytes waiting.new) result
        (indented_lines (map line_of lines.now)) }
    ensures cause { WriteAllCause (K.faults sink.old) (K.faults sink.new) result }
{
    for line in lines {
        write_line(alloc, sink, waiting, line)?;
    }
    Ok(())
}
