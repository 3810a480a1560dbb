//! The reply to a command that shows the derivation of a definition.

ghost use Rattle.std.specs.Prelude.{◌≡◌, ◌-◌, ◌^◌, ◌<◌, ◌++◌, [], nat_lt, IfOk};
ghost use Rattle.std.specs.List.{flat_map};
ghost use Rattle.std.specs.String.{string_bytes};
ghost use Rattle.cc_certificate_writing.specs.DefinitionCertificates.{definition_certificate_lines};
ghost use Rattle.cc_checking.specs.DerivationSizes.{nodes};
ghost use Rattle.cc_checking_laws.specs.AcceptedDefinitions.{accepted_derived};
ghost use Rattle.cc_check.specs.Definitions.{accepted_of};
ghost use Rattle.cc_core.specs.TermViews.{context_of};
ghost use Rattle.cc_derive.specs.Accepting.{IsAcceptedIn};
ghost use Rattle.cc_io.specs.Wholes.{WritesWhole, WriteAllCause};
ghost use Rattle.cc_replies.specs.ReplyTexts.{Derived, DerivationRefused, inner_line, reply_text};

use crate::heads::head_text;
use cc_base::code::Code;
use cc_base::name::Name;
use cc_certificate_writing::write_cert;
use cc_core::{Checked, Ctx};
use cc_derive::{derive, has_more_nodes};
use cc_io::{Sink, WriteAll, write_all};
use cc_print::Names;
use std::alloc::{AllocError, Global};

/// Whether the reply to a command that shows the derivation of the definition is refused: its canonical derivation has
/// more than 100,000 nodes. These are counted before the derivation is built.
///
/// Fails only for want of memory, as which a comparison of more than 2^32 - 1 levels counts.
pub fn has_too_many_nodes(alloc: Global, ctx: &Ctx, checked: &Checked) -> Result<bool, AllocError>
    requires { IsAcceptedIn (context_of ctx.now) checked.now }
    ensures { IfOk result (λ many. many ≡ nat_lt 100000 (nodes (accepted_derived (context_of ctx.now) (accepted_of checked.now)))) }
{
    has_more_nodes(alloc, ctx, checked, 100_000)
}

// Writes what waits, and the lines of the certificate behind it.
fn write_behind<K: Sink>(
    alloc: Global,
    sink: &mut K,
    waiting: &mut String,
    names: &Names,
    ctx: &Ctx,
    checked: &Checked,
) -> Result<(), WriteAll>
    requires count { K.faults sink.old < 2 ^ 64 - 1 }
    requires accepted { IsAcceptedIn (context_of ctx.now) checked.now }
    ensures written { WritesWhole (K.written sink.old) (K.written sink.new) result (string_bytes waiting.old
        ++ flat_map inner_line (definition_certificate_lines names.now.names.items (context_of ctx.now) (accepted_of checked.now))) }
    ensures cause { WriteAllCause (K.faults sink.old) (K.faults sink.new) result }
{
    let der = match derive(alloc, ctx, checked) {
        Ok(der) => der,
        Err(AllocError) => return Err(WriteAll::NoMemory),
    };
    write_cert(
        alloc,
        sink,
        waiting,
        "  ",
        names,
        ctx,
        &checked.filled,
        &der,
    )?;
    write_all(sink, waiting.as_bytes())
}

/// Writes the reply to a command that shows the derivation of the definition of the module: the lines of its certificate,
/// in the context of its right side, where the positions of that have the names, however many nodes there are. The number
/// of local binders beside the names is not looked at. The text is written in pieces.
///
/// A comparison of more than 2^32 - 1 levels and the number of a binder past 2^32 - 1 count as want of memory.
pub fn write_derivation<K: Sink>(
    alloc: Global,
    sink: &mut K,
    module: &Name,
    def: &Name,
    names: &Names,
    ctx: &Ctx,
    checked: &Checked,
) -> Result<(), WriteAll>
    requires count { K.faults sink.old < 2 ^ 64 - 1 }
    requires accepted { IsAcceptedIn (context_of ctx.now) checked.now }
    ensures written { WritesWhole (K.written sink.old) (K.written sink.new) result
        (reply_text [] (Derived «module».now def.now (definition_certificate_lines names.now.names.items (context_of ctx.now) (accepted_of checked.now)))) }
    ensures cause { WriteAllCause (K.faults sink.old) (K.faults sink.new) result }
{
    match head_text(alloc, "derive", module, def) {
        Ok(mut head) => write_behind(alloc, sink, &mut head, names, ctx, checked),
        Err(AllocError) => Err(WriteAll::NoMemory),
    }
}

/// The reply to such a command that is refused with the code. Fails only for want of memory.
pub fn derive_refusal(
    alloc: Global,
    module: &Name,
    def: &Name,
    code: Code,
) -> Result<String, AllocError>
    ensures { IfOk result (λ text. string_bytes text ≡ reply_text [] (DerivationRefused «module».now def.now code)) }
{
    format!(in alloc; "derive {module}.{def} refused {code}\n")
}
