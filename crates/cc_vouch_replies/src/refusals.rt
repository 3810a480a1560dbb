//! The reply to a module that is not vouched for.

ghost use Rattle.std.specs.Prelude.{◌≡◌, ◌-◌, ◌^◌, ◌<◌, ◌++◌, [], codes, encode_utf8_all, IfOk, OnOk};
ghost use Rattle.std.specs.String.{string_bytes};
ghost use Rattle.cc_io.specs.Wholes.{WritesWhole, WriteAllCause};
ghost use Rattle.cc_words.specs.Words.{pair_text};
ghost use Rattle.cc_vouching.specs.VouchedModules.{RefusesText, RefusesDefinition};
ghost use Rattle.cc_vouching.specs.VouchingReplies as plain;
ghost use Rattle.cc_vouching.specs.VouchingReplies.{inner_line, reply_text};
ghost use Rattle.cc_vouch.specs.VouchViews.{reason_of};

use cc_base::code::Diag;
use cc_base::name::Name;
use cc_io::{Sink, WriteAll, write_all};
use cc_vouch::definitions::Reason;
use std::alloc::{AllocError, Global};

// A refusal with its code and its place. Fails only for want of memory.
fn refusal_text(alloc: Global, diag: &Diag) -> Result<String, AllocError>
    ensures { IfOk result (λ text. string_bytes text ≡ plain.refusal_text diag.now.code diag.now.place) }
{
    let code = diag.code;
    let place = diag.place;
    format!(in alloc; "refused {code} {place}")
}

// Why a definition is not vouched for. Fails only for want of memory.
fn reason_text(alloc: Global, reason: &Reason) -> Result<String, AllocError>
    ensures { IfOk result (λ text. string_bytes text ≡ plain.reason_text (reason_of reason.now)) }
{
    match reason {
        Reason::NoClaim => String::from_str(alloc, "no claim"),
        Reason::BadLine(number) => format!(in alloc; "bad line {number}"),
        Reason::BadNode(number) => format!(in alloc; "bad node {number}"),
        Reason::AnotherTerm => String::from_str(alloc, "another term"),
        Reason::AnotherBind(number) => format!(in alloc; "another bind {number}"),
        Reason::Refused(diag) => refusal_text(alloc, diag),
    }
}

// Adds the line of a module that is refused.
fn put_text_line(out: &mut String, name: &Name, refusal: &str) -> Result<(), AllocError>
    ensures { OnOk result (string_bytes out.new ≡ string_bytes out.old
        ++ inner_line (encode_utf8_all name.now ++ codes ": " ++ refusal.now)) }
{
    out.push_str("  ")?;
    out.push_str(name.as_str())?;
    out.push_str(": ")?;
    out.push_str(refusal)?;
    out.push_str("\n")
}

// Adds the line of a definition that is not vouched for.
fn put_definition_line(
    out: &mut String,
    name: &Name,
    def: &Name,
    reason: &str,
) -> Result<(), AllocError>
    ensures { OnOk result (string_bytes out.new ≡ string_bytes out.old
        ++ inner_line (pair_text (name.now, def.now) ++ codes ": " ++ reason.now)) }
{
    out.push_str("  ")?;
    out.push_str(name.as_str())?;
    out.push_str(".")?;
    out.push_str(def.as_str())?;
    out.push_str(": ")?;
    out.push_str(reason)?;
    out.push_str("\n")
}

// The reply to a module whose text is refused. Fails only for want of memory.
fn text_reply(alloc: Global, name: &Name, diag: &Diag) -> Result<String, AllocError>
    ensures { IfOk result (λ text. string_bytes text ≡ reply_text [] name.now (RefusesText diag.now.code diag.now.place)) }
{
    let refusal = refusal_text(alloc, diag)?;
    let mut out = String::new(alloc);
    put_text_line(&mut out, name, refusal.as_str())?;
    Ok(out)
}

// The reply to a module with a definition that is not vouched for. Fails only for want of memory.
fn definition_reply(
    alloc: Global,
    name: &Name,
    def: &Name,
    reason: &Reason,
) -> Result<String, AllocError>
    ensures { IfOk result (λ text. string_bytes text ≡ reply_text [] name.now (RefusesDefinition def.now (reason_of reason.now))) }
{
    let reason = reason_text(alloc, reason)?;
    let mut out = String::new(alloc);
    put_definition_line(&mut out, name, def, reason.as_str())?;
    Ok(out)
}

/// Writes the reply to a module whose text is refused: one line with the code and the place.
///
/// `WriteFault`: a write failed, and the count of faults rose. `NoMemory`: there was no memory, or the sink has none.
pub fn write_text_refusal<K: Sink>(
    alloc: Global,
    sink: &mut K,
    name: &Name,
    diag: &Diag,
) -> Result<(), WriteAll>
    requires count { K.faults sink.old < 2 ^ 64 - 1 }
    ensures written { WritesWhole (K.written sink.old) (K.written sink.new) result
        (reply_text [] name.now (RefusesText diag.now.code diag.now.place)) }
    ensures cause { WriteAllCause (K.faults sink.old) (K.faults sink.new) result }
{
    match text_reply(alloc, name, diag) {
        Ok(text) => write_all(sink, text.as_bytes()),
        Err(AllocError) => Err(WriteAll::NoMemory),
    }
}

/// Writes the reply to a module with a definition that is not vouched for: one line with its name and the reason.
///
/// `WriteFault`: a write failed, and the count of faults rose. `NoMemory`: there was no memory, or the sink has none.
pub fn write_definition_refusal<K: Sink>(
    alloc: Global,
    sink: &mut K,
    name: &Name,
    def: &Name,
    reason: &Reason,
) -> Result<(), WriteAll>
    requires count { K.faults sink.old < 2 ^ 64 - 1 }
    ensures written { WritesWhole (K.written sink.old) (K.written sink.new) result
        (reply_text [] name.now (RefusesDefinition def.now (reason_of reason.now))) }
    ensures cause { WriteAllCause (K.faults sink.old) (K.faults sink.new) result }
{
    match definition_reply(alloc, name, def, reason) {
        Ok(text) => write_all(sink, text.as_bytes()),
        Err(AllocError) => Err(WriteAll::NoMemory),
    }
}
