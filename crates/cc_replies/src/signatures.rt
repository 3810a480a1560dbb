//! The reply to a command that shows the signature of a module.

ghost use Rattle.std.specs.Prelude.{◌≡◌, ◌-◌, ◌^◌, ◌<◌, ◌++◌, [], map, codes, encode_utf8_all, IfOk, OnOk};
ghost use Rattle.std.specs.List.{flat_map};
ghost use Rattle.std.specs.String.{string_bytes};
ghost use Rattle.cc_io.specs.Pieces.{Streams};
ghost use Rattle.cc_io.specs.Wholes.{WritesWhole, WriteAllCause};
ghost use Rattle.cc_mnf.specs.ElaboratedModules.{device_names};
ghost use Rattle.cc_module.specs.Judgements.{checked_definition_of};
ghost use Rattle.cc_replies.specs.ReplyTexts as plain;
ghost use Rattle.cc_replies.specs.ReplyTexts.{Signatures, SignaturesRefused, reply_text};

use crate::heads::write_line_feed;
use cc_base::code::Code;
use cc_base::device::DeviceDecl;
use cc_base::name::Name;
use cc_certificate_writing::writing::put;
use cc_io::{Sink, WriteAll, pass_on, write_all};
use cc_module::judgement::CheckedDef;
use cc_print::{Names, write_type};
use std::alloc::{AllocError, Global};

/// The names of the devices, in order, which is that of their positions. Fails only for want of memory.
pub fn names_of(alloc: Global, devices: &[DeviceDecl]) -> Result<Names, AllocError>
    ensures names { IfOk result (λ names. names.names.items ≡ device_names devices.now) }
    ensures locals { IfOk result (λ names. names.locals ≡ 0) }
{
    let mut names = Vec::with_capacity(alloc, devices.len())?;
    for device in devices {
        names.push(device.name.clone()?)?;
    }
    Ok(Names { names, locals: 0 })
}

// Adds the front of the line of a definition.
fn put_front(out: &mut String, name: &Name) -> Result<(), AllocError>
    ensures { OnOk result (string_bytes out.new ≡ string_bytes out.old ++ (codes "  " ++ encode_utf8_all name.now ++ codes ": ")) }
{
    put(out, "  ")?;
    put(out, name.as_str())?;
    put(out, ": ")
}

// Writes the front of the line of a definition.
fn write_front<K: Sink>(sink: &mut K, waiting: &mut String, name: &Name) -> Result<(), WriteAll>
    requires { K.faults sink.old < 2 ^ 64 - 1 }
    ensures streams { Streams (K.written sink.old) (K.written sink.new) (string_bytes waiting.old) (string_bytes waiting.new) result
        (codes "  " ++ encode_utf8_all name.now ++ codes ": ") }
    ensures cause { WriteAllCause (K.faults sink.old) (K.faults sink.new) result }
{
    let put = put_front(waiting, name);
    pass_on(sink, waiting, put)
}

// Writes the line of a definition.
fn write_signature<K: Sink>(
    alloc: Global,
    sink: &mut K,
    waiting: &mut String,
    names: &Names,
    def: &CheckedDef,
) -> Result<(), WriteAll>
    requires count { K.faults sink.old < 2 ^ 64 - 1 }
    requires names { names.now.locals ≡ 0 }
    ensures streams { Streams (K.written sink.old) (K.written sink.new) (string_bytes waiting.old) (string_bytes waiting.new) result
        (plain.signature_line names.now.names.items (checked_definition_of def.now)) }
    ensures cause { WriteAllCause (K.faults sink.old) (K.faults sink.new) result }
{
    write_front(sink, waiting, &def.name)?;
    write_type(alloc, sink, waiting, names, &def.checked.sig)?;
    write_line_feed(sink, waiting)
}

// Writes a line for each definition.
fn write_lines<K: Sink>(
    alloc: Global,
    sink: &mut K,
    waiting: &mut String,
    names: &Names,
    defs: &[CheckedDef],
) -> Result<(), WriteAll>
    requires count { K.faults sink.old < 2 ^ 64 - 1 }
    requires names { names.now.locals ≡ 0 }
    ensures streams { Streams (K.written sink.old) (K.written sink.new) (string_bytes waiting.old) (string_bytes waiting.new) result
        (flat_map (plain.signature_line names.now.names.items) (map checked_definition_of defs.now)) }
    ensures cause { WriteAllCause (K.faults sink.old) (K.faults sink.new) result }
{
    for def in defs {
        write_signature(alloc, sink, waiting, names, def)?;
    }
    Ok(())
}

// Writes what waits, and a line for each definition behind it.
fn write_behind<K: Sink>(
    alloc: Global,
    sink: &mut K,
    waiting: &mut String,
    names: &Names,
    defs: &[CheckedDef],
) -> Result<(), WriteAll>
    requires count { K.faults sink.old < 2 ^ 64 - 1 }
    requires names { names.now.locals ≡ 0 }
    ensures written { WritesWhole (K.written sink.old) (K.written sink.new) result (string_bytes waiting.old
        ++ flat_map (plain.signature_line names.now.names.items) (map checked_definition_of defs.now)) }
    ensures cause { WriteAllCause (K.faults sink.old) (K.faults sink.new) result }
{
    write_lines(alloc, sink, waiting, names, defs)?;
    write_all(sink, waiting.as_bytes())
}

// The head line of the reply. Fails only for want of memory.
fn sig_head(alloc: Global, name: &Name) -> Result<String, AllocError>
    ensures { IfOk result (λ text. string_bytes text ≡ plain.head (codes "sig") name.now) }
{
    format!(in alloc; "sig {name}\n")
}

/// Writes the reply to a command that shows the signature of a module, which is accepted with these definitions: a line
/// for each, in their order. Types have the names of the devices. The text is written in pieces.
///
/// `WriteFault`: a write failed, and the count of faults rose. `NoMemory`: there was no memory, as which the number of a
/// binder past 2^32 - 1 counts, or the sink has none.
pub fn write_signatures<K: Sink>(
    alloc: Global,
    sink: &mut K,
    name: &Name,
    names: &Names,
    defs: &[CheckedDef],
) -> Result<(), WriteAll>
    requires count { K.faults sink.old < 2 ^ 64 - 1 }
    requires names { names.now.locals ≡ 0 }
    ensures written { WritesWhole (K.written sink.old) (K.written sink.new) result
        (reply_text names.now.names.items (Signatures name.now (map checked_definition_of defs.now))) }
    ensures cause { WriteAllCause (K.faults sink.old) (K.faults sink.new) result }
{
    match sig_head(alloc, name) {
        Ok(mut head) => write_behind(alloc, sink, &mut head, names, defs),
        Err(AllocError) => Err(WriteAll::NoMemory),
    }
}

/// The reply to such a command that is refused with the code. Fails only for want of memory.
pub fn sig_refusal(alloc: Global, name: &Name, code: Code) -> Result<String, AllocError>
    ensures { IfOk result (λ text. string_bytes text ≡ reply_text [] (SignaturesRefused name.now code)) }
{
    format!(in alloc; "sig {name} refused {code}\n")
}
