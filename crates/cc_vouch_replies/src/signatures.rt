//! The reply to a module that is vouched for.

ghost use Rattle.std.specs.Prelude.{◌≡◌, ◌-◌, ◌^◌, ◌<◌, ◌++◌, ◌∷◌, [], map, codes, encode_utf8_all, IfOk, OnOk};
ghost use Rattle.std.specs.List.{flat_map};
ghost use Rattle.std.specs.String.{string_bytes};
ghost use Rattle.cc_io.specs.Pieces.{Streams};
ghost use Rattle.cc_io.specs.Wholes.{WritesWhole, WriteAllCause};
ghost use Rattle.cc_mnf.specs.ElaboratedModules.{device_names};
ghost use Rattle.cc_vouching.specs.VouchedModules.{Vouches};
ghost use Rattle.cc_vouching.specs.VouchingReplies.{line, signature_line, reply_text};
ghost use Rattle.cc_vouch.specs.VouchViews.{definition_of};

use cc_base::device::DeviceDecl;
use cc_base::name::Name;
use cc_io::{Sink, WriteAll, pass_on, write_all};
use cc_print::{Names, write_type};
use cc_vouch::definitions::Vouched;
use std::alloc::{AllocError, Global};

/// The names of the devices, in order, which is that of their positions. Fails only for want of memory.
pub fn names_of(alloc: Global, devices: &[DeviceDecl]) -> Result<Names, AllocError>
    ensures names { IfOk result (λ names. names.names.items ≡ device_names devices.now) }
    ensures locals { IfOk result (λ names. names.locals ≡ 0) }
{
    let mut names = Vec::with_capacity(alloc, devices.len())?;
    for device in devices {
        names.push(device.name.clone()?)?;
    }
    Ok(Names { names, locals: 0 })
}

// Adds the front of the line of a definition.
fn put_front(out: &mut String, name: &Name) -> Result<(), AllocError>
    ensures { OnOk result (string_bytes out.new ≡ string_bytes out.old ++ (codes "  " ++ encode_utf8_all name.now ++ codes ": ")) }
{
    out.push_str("  ")?;
    out.push_str(name.as_str())?;
    out.push_str(": ")
}

// Adds the end of a line.
fn put_line_feed(out: &mut String) -> Result<(), AllocError>
    ensures { OnOk result (string_bytes out.new ≡ string_bytes out.old ++ (10 ∷ [])) }
{
    out.push_str("\n")
}

// Writes the front of the line of a definition.
fn write_front<K: Sink>(sink: &mut K, waiting: &mut String, name: &Name) -> Result<(), WriteAll>
    requires { K.faults sink.old < 2 ^ 64 - 1 }
    ensures streams { Streams (K.written sink.old) (K.written sink.new) (string_bytes waiting.old) (string_bytes waiting.new) result
        (codes "  " ++ encode_utf8_all name.now ++ codes ": ") }
    ensures cause { WriteAllCause (K.faults sink.old) (K.faults sink.new) result }
{
    let put = put_front(waiting, name);
    pass_on(sink, waiting, put)
}

// Writes the end of a line.
fn write_line_feed<K: Sink>(sink: &mut K, waiting: &mut String) -> Result<(), WriteAll>
    requires { K.faults sink.old < 2 ^ 64 - 1 }
    ensures streams { Streams (K.written sink.old) (K.written sink.new) (string_bytes waiting.old) (string_bytes waiting.new) result
        (10 ∷ []) }
    ensures cause { WriteAllCause (K.faults sink.old) (K.faults sink.new) result }
{
    let put = put_line_feed(waiting);
    pass_on(sink, waiting, put)
}

// Writes the line of a definition.
fn write_signature<K: Sink>(
    alloc: Global,
    sink: &mut K,
    waiting: &mut String,
    names: &Names,
    def: &Vouched,
) -> Result<(), WriteAll>
    requires count { K.faults sink.old < 2 ^ 64 - 1 }
    requires names { names.now.locals ≡ 0 }
    ensures streams { Streams (K.written sink.old) (K.written sink.new) (string_bytes waiting.old) (string_bytes waiting.new) result
        (signature_line names.now.names.items (definition_of def.now)) }
    ensures cause { WriteAllCause (K.faults sink.old) (K.faults sink.new) result }
{
    write_front(sink, waiting, &def.name)?;
    write_type(alloc, sink, waiting, names, &def.sig)?;
    write_line_feed(sink, waiting)
}

// Writes a line for each definition.
fn write_lines<K: Sink>(
    alloc: Global,
    sink: &mut K,
    waiting: &mut String,
    names: &Names,
    defs: &[Vouched],
) -> Result<(), WriteAll>
    requires count { K.faults sink.old < 2 ^ 64 - 1 }
    requires names { names.now.locals ≡ 0 }
    ensures streams { Streams (K.written sink.old) (K.written sink.new) (string_bytes waiting.old) (string_bytes waiting.new) result
        (flat_map (signature_line names.now.names.items) (map definition_of defs.now)) }
    ensures cause { WriteAllCause (K.faults sink.old) (K.faults sink.new) result }
{
    for def in defs {
        write_signature(alloc, sink, waiting, names, def)?;
    }
    Ok(())
}

// Writes what waits, and a line for each definition behind it.
fn write_behind<K: Sink>(
    alloc: Global,
    sink: &mut K,
    waiting: &mut String,
    names: &Names,
    defs: &[Vouched],
) -> Result<(), WriteAll>
    requires count { K.faults sink.old < 2 ^ 64 - 1 }
    requires names { names.now.locals ≡ 0 }
    ensures written { WritesWhole (K.written sink.old) (K.written sink.new) result (string_bytes waiting.old
        ++ flat_map (signature_line names.now.names.items) (map definition_of defs.now)) }
    ensures cause { WriteAllCause (K.faults sink.old) (K.faults sink.new) result }
{
    write_lines(alloc, sink, waiting, names, defs)?;
    write_all(sink, waiting.as_bytes())
}

// The head line of the reply. Fails only for want of memory.
fn module_head(alloc: Global, name: &Name) -> Result<String, AllocError>
    ensures { IfOk result (λ text. string_bytes text ≡ line (codes "module " ++ encode_utf8_all name.now)) }
{
    format!(in alloc; "module {name}\n")
}

/// Writes the reply to a module that is vouched for with these definitions: a head, and a line for each, in their order.
/// Types have the names of the devices. The text is written in pieces.
///
/// `WriteFault`: a write failed, and the count of faults rose. `NoMemory`: there was no memory, as which the number of a
/// binder past 2^32 - 1 counts, or the sink has none.
pub fn write_signatures<K: Sink>(
    alloc: Global,
    sink: &mut K,
    name: &Name,
    names: &Names,
    defs: &[Vouched],
) -> Result<(), WriteAll>
    requires count { K.faults sink.old < 2 ^ 64 - 1 }
    requires names { names.now.locals ≡ 0 }
    ensures written { WritesWhole (K.written sink.old) (K.written sink.new) result
        (reply_text names.now.names.items name.now (Vouches (map definition_of defs.now))) }
    ensures cause { WriteAllCause (K.faults sink.old) (K.faults sink.new) result }
{
    match module_head(alloc, name) {
        Ok(mut head) => write_behind(alloc, sink, &mut head, names, defs),
        Err(AllocError) => Err(WriteAll::NoMemory),
    }
}
