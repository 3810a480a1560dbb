//! The reply to a command that runs a definition.

ghost use Rattle.std.specs.Prelude.{◌≡◌, ◌-◌, ◌^◌, ◌<◌, ◌++◌, [], map, IfOk, OnOk};
ghost use Rattle.std.specs.List.{flat_map};
ghost use Rattle.std.specs.String.{string_bytes};
ghost use Rattle.cc_device.specs.DeviceViews.{event_of, end_of};
ghost use Rattle.cc_io.specs.Pieces.{Streams};
ghost use Rattle.cc_io.specs.Wholes.{WritesWhole, WriteAllCause};
ghost use Rattle.cc_machine.specs.Reports.{events_of};
ghost use Rattle.cc_runs.specs.Runs.{Ends};
ghost use Rattle.cc_replies.specs.ReplyTexts.{RunRefused, inner_line, reply_text, run_text, is_unfinished};
ghost use Rattle.cc_replay.specs.RunTexts as plain;

use crate::heads::head_text;
use cc_base::code::Code;
use cc_base::name::Name;
use cc_certificate_writing::writing::put;
use cc_device::{End, Event};
use cc_io::{Sink, WriteAll, pass_on, write_all};
use cc_machine::RunReport;
use cc_print::Names;
use cc_replay::run_texts::{put_authority, put_end, put_event};
use std::alloc::{AllocError, Global};

// Adds the line of an event.
fn put_event_line(
    alloc: Global,
    out: &mut String,
    names: &Names,
    event: &Event,
) -> Result<(), AllocError>
    ensures { OnOk result (string_bytes out.new ≡ string_bytes out.old ++ inner_line (plain.event_text names.now.names.items (event_of event.now))) }
{
    put(out, "  ")?;
    put_event(alloc, out, names, event)?;
    put(out, "\n")
}

// Writes the line of an event.
fn write_event_line<K: Sink>(
    alloc: Global,
    sink: &mut K,
    waiting: &mut String,
    names: &Names,
    event: &Event,
) -> Result<(), WriteAll>
    requires { K.faults sink.old < 2 ^ 64 - 1 }
    ensures streams { Streams (K.written sink.old) (K.written sink.new) (string_bytes waiting.old) (string_bytes waiting.new) result
        (inner_line (plain.event_text names.now.names.items (event_of event.now))) }
    ensures cause { WriteAllCause (K.faults sink.old) (K.faults sink.new) result }
{
    let put = put_event_line(alloc, waiting, names, event);
    pass_on(sink, waiting, put)
}

// Writes the lines of events, in order.
fn write_events<K: Sink>(
    alloc: Global,
    sink: &mut K,
    waiting: &mut String,
    names: &Names,
    events: &[Event],
) -> Result<(), WriteAll>
    requires { K.faults sink.old < 2 ^ 64 - 1 }
    ensures streams { Streams (K.written sink.old) (K.written sink.new) (string_bytes waiting.old) (string_bytes waiting.new) result
        (flat_map inner_line (map (plain.event_text names.now.names.items) (map event_of events.now))) }
    ensures cause { WriteAllCause (K.faults sink.old) (K.faults sink.new) result }
{
    for event in events {
        write_event_line(alloc, sink, waiting, names, event)?;
    }
    Ok(())
}

// Adds the line about what a run may operate.
fn put_authority_line(
    alloc: Global,
    out: &mut String,
    names: &Names,
    authority: &[u32],
) -> Result<(), AllocError>
    ensures { OnOk result (string_bytes out.new ≡ string_bytes out.old ++ inner_line (plain.authority_text names.now.names.items authority.now)) }
{
    put(out, "  ")?;
    put_authority(alloc, out, names, authority)?;
    put(out, "\n")
}

// Writes the line about what a run may operate.
fn write_authority_line<K: Sink>(
    alloc: Global,
    sink: &mut K,
    waiting: &mut String,
    names: &Names,
    authority: &[u32],
) -> Result<(), WriteAll>
    requires { K.faults sink.old < 2 ^ 64 - 1 }
    ensures streams { Streams (K.written sink.old) (K.written sink.new) (string_bytes waiting.old) (string_bytes waiting.new) result
        (inner_line (plain.authority_text names.now.names.items authority.now)) }
    ensures cause { WriteAllCause (K.faults sink.old) (K.faults sink.new) result }
{
    let put = put_authority_line(alloc, waiting, names, authority);
    pass_on(sink, waiting, put)
}

// Adds the line about how a run ends.
fn put_end_line(
    alloc: Global,
    out: &mut String,
    names: &Names,
    end: End,
    steps: u32,
) -> Result<(), AllocError>
    ensures { OnOk result (string_bytes out.new ≡ string_bytes out.old ++ inner_line (plain.end_text names.now.names.items (Ends (end_of end.entry)) steps)) }
{
    put(out, "  ")?;
    put_end(alloc, out, names, end, steps)?;
    put(out, "\n")
}

// Writes the line about how a run ends.
fn write_end_line<K: Sink>(
    alloc: Global,
    sink: &mut K,
    waiting: &mut String,
    names: &Names,
    end: End,
    steps: u32,
) -> Result<(), WriteAll>
    requires { K.faults sink.old < 2 ^ 64 - 1 }
    ensures streams { Streams (K.written sink.old) (K.written sink.new) (string_bytes waiting.old) (string_bytes waiting.new) result
        (inner_line (plain.end_text names.now.names.items (Ends (end_of end.entry)) steps)) }
    ensures cause { WriteAllCause (K.faults sink.old) (K.faults sink.new) result }
{
    let put = put_end_line(alloc, waiting, names, end, steps);
    pass_on(sink, waiting, put)
}

// Writes the lines of a run.
fn write_lines<K: Sink>(
    alloc: Global,
    sink: &mut K,
    waiting: &mut String,
    names: &Names,
    authority: &[u32],
    report: &RunReport,
) -> Result<(), WriteAll>
    requires { K.faults sink.old < 2 ^ 64 - 1 }
    ensures streams { Streams (K.written sink.old) (K.written sink.new) (string_bytes waiting.old) (string_bytes waiting.new) result
        (flat_map inner_line (plain.run_lines names.now.names.items authority.now (events_of report.now) (Ends (end_of report.now.end)) report.now.steps)) }
    ensures cause { WriteAllCause (K.faults sink.old) (K.faults sink.new) result }
{
    write_authority_line(alloc, sink, waiting, names, authority)?;
    write_events(alloc, sink, waiting, names, &report.trace)?;
    write_end_line(alloc, sink, waiting, names, report.end, report.steps)
}

// Writes what waits, and the lines of a run behind it.
fn write_behind<K: Sink>(
    alloc: Global,
    sink: &mut K,
    waiting: &mut String,
    names: &Names,
    authority: &[u32],
    report: &RunReport,
) -> Result<(), WriteAll>
    requires { K.faults sink.old < 2 ^ 64 - 1 }
    ensures written { WritesWhole (K.written sink.old) (K.written sink.new) result (string_bytes waiting.old
        ++ flat_map inner_line (plain.run_lines names.now.names.items authority.now (events_of report.now) (Ends (end_of report.now.end)) report.now.steps)) }
    ensures cause { WriteAllCause (K.faults sink.old) (K.faults sink.new) result }
{
    write_lines(alloc, sink, waiting, names, authority, report)?;
    write_all(sink, waiting.as_bytes())
}

/// Writes the reply to a command of this word that runs the definition of a module, whose run may operate these devices: a
/// line for these, one for each event, and one for its end. Devices have their names. The text is written in pieces.
pub fn write_run<K: Sink>(
    alloc: Global,
    sink: &mut K,
    word: &str,
    module: &Name,
    def: &Name,
    authority: &[u32],
    report: &RunReport,
    names: &Names,
) -> Result<(), WriteAll>
    requires { K.faults sink.old < 2 ^ 64 - 1 }
    ensures written { WritesWhole (K.written sink.old) (K.written sink.new) result
        (run_text word.now names.now.names.items «module».now def.now authority.now (events_of report.now) (Ends (end_of report.now.end)) report.now.steps) }
    ensures cause { WriteAllCause (K.faults sink.old) (K.faults sink.new) result }
{
    match head_text(alloc, word, module, def) {
        Ok(mut head) => write_behind(alloc, sink, &mut head, names, authority, report),
        Err(AllocError) => Err(WriteAll::NoMemory),
    }
}

/// The reply to a command `run` that is refused with the code. Fails only for want of memory.
pub fn run_refusal(
    alloc: Global,
    module: &Name,
    def: &Name,
    code: Code,
) -> Result<String, AllocError>
    ensures { IfOk result (λ text. string_bytes text ≡ reply_text [] (RunRefused «module».now def.now code)) }
{
    format!(in alloc; "run {module}.{def} refused {code}\n")
}

/// Whether a run that ends so did not come to its end.
pub fn is_cut_short(end: End) -> bool
    ensures { result ≡ is_unfinished (Ends (end_of end.entry)) }
{
    match end {
        End::Done(_) => false,
        End::OutOfFuel => true,
    }
}
