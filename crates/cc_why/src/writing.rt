//! Writing why a module is refused: a head line, and behind it the refusal and the lines of its reason.

ghost use Rattle.std.specs.Prelude.{◌≡◌, ◌-◌, ◌^◌, ◌<◌, ◌++◌, ℕ, List, Option, map, codes, IfOk, OnOk};
ghost use Rattle.std.specs.List.{flat_map};
ghost use Rattle.std.specs.String.{string_bytes};
ghost use Rattle.cc_base.specs.Texts.{code_text, place_text};
ghost use Rattle.cc_base.specs.declared.code.Code.TheVariants.{E32};
ghost use Rattle.cc_io.specs.Pieces.{Streams};
ghost use Rattle.cc_io.specs.Wholes.{WritesWhole, WriteAllCause};
ghost use Rattle.cc_replies.specs.ReplyTexts as plain;
ghost use Rattle.cc_replies.specs.ReplyTexts.{inner_line};
ghost use Rattle.cc_why.specs.ToldReasons.{lines_in, why_of};
ghost use Rattle.cc_why.specs.WhyTexts.{why_text, is_refusal};

use crate::why::{ReasonLines, Why};
use cc_base::code::{Code, Diag};
use cc_base::name::Name;
use cc_elaboration_reasoning::lines::write_cause_lines;
use cc_io::{Sink, WriteAll, pass_on, write_all};
use cc_labels::write_lines;
use std::alloc::{AllocError, Global};

// Adds a line behind two spaces.
fn put_line(out: &mut String, line: &str) -> Result<(), AllocError>
    ensures { OnOk result (string_bytes out.new ≡ string_bytes out.old ++ inner_line line.now) }
{
    out.push_str("  ")?;
    out.push_str(line)?;
    out.push_str("\n")
}

// Writes a line behind two spaces.
fn write_line<K: Sink>(sink: &mut K, waiting: &mut String, line: &str) -> Result<(), WriteAll>
    requires { K.faults sink.old < 2 ^ 64 - 1 }
    ensures streams { Streams (K.written sink.old) (K.written sink.new) (string_bytes waiting.old) (string_bytes waiting.new) result
        (inner_line line.now) }
    ensures cause { WriteAllCause (K.faults sink.old) (K.faults sink.new) result }
{
    let put = put_line(waiting, line);
    pass_on(sink, waiting, put)
}

// Writes lines of words.
fn write_words<K: Sink>(
    sink: &mut K,
    waiting: &mut String,
    lines: &[String],
) -> Result<(), WriteAll>
    requires { K.faults sink.old < 2 ^ 64 - 1 }
    ensures streams { Streams (K.written sink.old) (K.written sink.new) (string_bytes waiting.old) (string_bytes waiting.new) result
        (flat_map inner_line (map string_bytes lines.now)) }
    ensures cause { WriteAllCause (K.faults sink.old) (K.faults sink.new) result }
{
    for line in lines {
        write_line(sink, waiting, line.as_str())?;
    }
    Ok(())
}

// Writes the lines of a reason.
fn write_reason<K: Sink>(
    alloc: Global,
    sink: &mut K,
    waiting: &mut String,
    lines: &ReasonLines,
) -> Result<(), WriteAll>
    requires { K.faults sink.old < 2 ^ 64 - 1 }
    ensures streams { Streams (K.written sink.old) (K.written sink.new) (string_bytes waiting.old) (string_bytes waiting.new) result
        (flat_map inner_line (lines_in lines.now)) }
    ensures cause { WriteAllCause (K.faults sink.old) (K.faults sink.new) result }
{
    match lines {
        ReasonLines::Words(lines) => write_words(sink, waiting, lines),
        ReasonLines::OfCause(cause) => write_cause_lines(alloc, sink, waiting, "  ", cause),
        ReasonLines::Labelled(lines) => write_lines(alloc, sink, waiting, lines),
    }
}

// Writes what waits, and the lines of a reason behind it.
fn write_behind<K: Sink>(
    alloc: Global,
    sink: &mut K,
    waiting: &mut String,
    lines: &ReasonLines,
) -> Result<(), WriteAll>
    requires { K.faults sink.old < 2 ^ 64 - 1 }
    ensures written { WritesWhole (K.written sink.old) (K.written sink.new) result
        (string_bytes waiting.old ++ flat_map inner_line (lines_in lines.now)) }
    ensures cause { WriteAllCause (K.faults sink.old) (K.faults sink.new) result }
{
    write_reason(alloc, sink, waiting, lines)?;
    write_all(sink, waiting.as_bytes())
}

// That no module of the name is present.
fn absent_text(alloc: Global, name: &Name) -> Result<String, AllocError>
    ensures { IfOk result (λ text. string_bytes text ≡ plain.refused_head (codes "why") name.now E32) }
{
    let code = Code::E32;
    format!(in alloc; "why {name} refused {code}\n")
}

// The head line.
fn head_text(alloc: Global, name: &Name) -> Result<String, AllocError>
    ensures { IfOk result (λ text. string_bytes text ≡ plain.head (codes "why") name.now) }
{
    format!(in alloc; "why {name}\n")
}

// The code and the place of the refusal.
fn refusal_text(alloc: Global, diag: Diag) -> Result<String, AllocError>
    ensures { IfOk result (λ text. string_bytes text ≡ code_text diag.code ++ codes " " ++ place_text diag.place) }
{
    let code = diag.code;
    let place = diag.place;
    format!(in alloc; "{code} {place}")
}

// The head line, and the line of the refusal.
fn refused_text(alloc: Global, name: &Name, diag: Diag) -> Result<String, AllocError>
    ensures { IfOk result (λ text. string_bytes text ≡ plain.head (codes "why") name.now ++ inner_line (code_text diag.code ++ codes " " ++ place_text diag.place)) }
{
    let mut text = head_text(alloc, name)?;
    let refusal = refusal_text(alloc, diag)?;
    put_line(&mut text, refusal.as_str())?;
    Ok(text)
}

// Writes why the module is refused, with this refusal.
fn write_refused<K: Sink>(
    alloc: Global,
    sink: &mut K,
    name: &Name,
    diag: Diag,
    lines: &ReasonLines,
) -> Result<(), WriteAll>
    requires { K.faults sink.old < 2 ^ 64 - 1 }
    ensures written { WritesWhole (K.written sink.old) (K.written sink.new) result
        (plain.head (codes "why") name.now ++ inner_line (code_text diag.code ++ codes " " ++ place_text diag.place) ++ flat_map inner_line (lines_in lines.now)) }
    ensures cause { WriteAllCause (K.faults sink.old) (K.faults sink.new) result }
{
    match refused_text(alloc, name, diag) {
        Ok(mut waiting) => write_behind(alloc, sink, &mut waiting, lines),
        Err(AllocError) => Err(WriteAll::NoMemory),
    }
}

// Writes the text, if there is memory for it.
fn write_text<K: Sink>(sink: &mut K, text: Result<String, AllocError>) -> Result<(), WriteAll>
    requires { K.faults sink.old < 2 ^ 64 - 1 }
    ensures written { (bytes : List ℕ) → IfOk text (λ it. string_bytes it ≡ bytes)
        → WritesWhole (K.written sink.old) (K.written sink.new) result bytes }
    ensures cause { WriteAllCause (K.faults sink.old) (K.faults sink.new) result }
{
    match text {
        Ok(text) => write_all(sink, text.as_bytes()),
        Err(AllocError) => Err(WriteAll::NoMemory),
    }
}

/// Writes the answer. The lines of a reason are written in pieces.
///
/// `WriteFault`: a write failed, and the count of faults rose. `NoMemory`: there was no memory, or the sink has none.
pub(crate) fn write_why<K: Sink>(
    alloc: Global,
    sink: &mut K,
    name: &Name,
    why: &Why,
) -> Result<(), WriteAll>
    requires { K.faults sink.old < 2 ^ 64 - 1 }
    ensures written { WritesWhole (K.written sink.old) (K.written sink.new) result (why_text name.now (why_of why.now)) }
    ensures cause { WriteAllCause (K.faults sink.old) (K.faults sink.new) result }
{
    match why {
        Why::NoSuchModule => write_text(sink, absent_text(alloc, name)),
        Why::NotRefused => write_text(sink, head_text(alloc, name)),
        Why::RefusedSince(diag, lines) => write_refused(alloc, sink, name, *diag, lines),
    }
}
