//! The reply to a command that explains the signature of a definition.

ghost use Rattle.std.specs.Prelude.{◌≡◌, ◌-◌, ◌^◌, ◌<◌, ◌++◌, [], ◌∷◌, map, slice_get, codes, IfOk, OnOk};
ghost use Rattle.std.specs.List.{flat_map};
ghost use Rattle.std.specs.String.{string_bytes};
ghost use Rattle.cc_io.specs.Pieces.{Streams};
ghost use Rattle.cc_io.specs.Wholes.{WritesWhole, WriteAllCause};
ghost use Rattle.cc_replies.specs.Explanations.{names_of, definition_or, target_named, explanation_named};
ghost use Rattle.cc_replies.specs.ReplyTexts as plain;
ghost use Rattle.cc_replies.specs.ReplyTexts.{Explained, ExplainRefused, reply_text};

use crate::chains::{DefinitionName, FoundChain};
use crate::heads::{head_text, write_line_feed};
use cc_base::code::Code;
use cc_base::name::Name;
use cc_certificate_writing::writing::{put, put_position};
use cc_explain::target::Target;
use cc_io::{Sink, WriteAll, pass_on, write_all};
use cc_print::Names;
use std::alloc::{AllocError, Global};

// Adds the names of a module and of its definition.
fn put_pair(out: &mut String, module: &Name, def: &Name) -> Result<(), AllocError>
    ensures { OnOk result (string_bytes out.new ≡ string_bytes out.old ++ plain.pair_text «module».now def.now) }
{
    put(out, module.as_str())?;
    put(out, ".")?;
    put(out, def.as_str())
}

// Adds the definition of the number.
fn put_definition(
    out: &mut String,
    definitions: &[DefinitionName<'_>],
    number: u32,
) -> Result<(), AllocError>
    ensures { OnOk result (string_bytes out.new ≡ string_bytes out.old ++ plain.target_text [] (definition_or (slice_get (map names_of definitions.now) number))) }
{
    match definitions.get(number as usize) {
        Some(it) => put_pair(out, it.module, it.def),
        None => put(out, "."),
    }
}

// Adds a target.
fn put_target(
    alloc: Global,
    out: &mut String,
    names: &Names,
    definitions: &[DefinitionName<'_>],
    target: Target,
) -> Result<(), AllocError>
    ensures { OnOk result (string_bytes out.new ≡ string_bytes out.old ++ plain.target_text names.now.names.items (target_named (map names_of definitions.now) target)) }
{
    match target {
        Target::Definition(number) => put_definition(out, definitions, number),
        Target::Device(device) => put_position(alloc, out, names, "_", device),
        Target::Cap => put(out, "cap"),
    }
}

// Adds a target behind a space.
fn put_other(
    alloc: Global,
    out: &mut String,
    names: &Names,
    definitions: &[DefinitionName<'_>],
    target: Target,
) -> Result<(), AllocError>
    ensures { OnOk result (string_bytes out.new ≡ string_bytes out.old ++ (32 ∷ plain.target_text names.now.names.items (target_named (map names_of definitions.now) target))) }
{
    put(out, " ")?;
    put_target(alloc, out, names, definitions, target)
}

// Writes a target behind a space.
fn write_other<K: Sink>(
    alloc: Global,
    sink: &mut K,
    waiting: &mut String,
    names: &Names,
    definitions: &[DefinitionName<'_>],
    target: Target,
) -> Result<(), WriteAll>
    requires { K.faults sink.old < 2 ^ 64 - 1 }
    ensures streams { Streams (K.written sink.old) (K.written sink.new) (string_bytes waiting.old) (string_bytes waiting.new) result
        (32 ∷ plain.target_text names.now.names.items (target_named (map names_of definitions.now) target)) }
    ensures cause { WriteAllCause (K.faults sink.old) (K.faults sink.new) result }
{
    let put = put_other(alloc, waiting, names, definitions, target);
    pass_on(sink, waiting, put)
}

// Writes targets, each behind a space.
fn write_others<K: Sink>(
    alloc: Global,
    sink: &mut K,
    waiting: &mut String,
    names: &Names,
    definitions: &[DefinitionName<'_>],
    others: &[Target],
) -> Result<(), WriteAll>
    requires { K.faults sink.old < 2 ^ 64 - 1 }
    ensures streams { Streams (K.written sink.old) (K.written sink.new) (string_bytes waiting.old) (string_bytes waiting.new) result
        (flat_map (λ target. 32 ∷ plain.target_text names.now.names.items (target_named (map names_of definitions.now) target)) others.now) }
    ensures cause { WriteAllCause (K.faults sink.old) (K.faults sink.new) result }
{
    for target in others {
        write_other(alloc, sink, waiting, names, definitions, *target)?;
    }
    Ok(())
}

// Writes the first target of a chain.
fn write_first<K: Sink>(
    alloc: Global,
    sink: &mut K,
    waiting: &mut String,
    names: &Names,
    definitions: &[DefinitionName<'_>],
    first: Target,
) -> Result<(), WriteAll>
    requires { K.faults sink.old < 2 ^ 64 - 1 }
    ensures streams { Streams (K.written sink.old) (K.written sink.new) (string_bytes waiting.old) (string_bytes waiting.new) result
        (plain.target_text names.now.names.items (target_named (map names_of definitions.now) first)) }
    ensures cause { WriteAllCause (K.faults sink.old) (K.faults sink.new) result }
{
    let put = put_target(alloc, waiting, names, definitions, first);
    pass_on(sink, waiting, put)
}

// Writes the targets of a chain, with a space between them.
fn write_chain<K: Sink>(
    alloc: Global,
    sink: &mut K,
    waiting: &mut String,
    names: &Names,
    definitions: &[DefinitionName<'_>],
    chain: &[Target],
) -> Result<(), WriteAll>
    requires { K.faults sink.old < 2 ^ 64 - 1 }
    ensures streams { Streams (K.written sink.old) (K.written sink.new) (string_bytes waiting.old) (string_bytes waiting.new) result
        (plain.chain_text names.now.names.items (map (target_named (map names_of definitions.now)) chain.now)) }
    ensures cause { WriteAllCause (K.faults sink.old) (K.faults sink.new) result }
{
    match chain.split_first() {
        Some((first, others)) => {
            write_first(alloc, sink, waiting, names, definitions, *first)?;
            write_others(alloc, sink, waiting, names, definitions, others)
        }
        None => Ok(()),
    }
}

// Adds the beginning of the line of an element.
fn put_element(
    alloc: Global,
    out: &mut String,
    names: &Names,
    definitions: &[DefinitionName<'_>],
    target: Target,
) -> Result<(), AllocError>
    ensures { OnOk result (string_bytes out.new ≡ string_bytes out.old
        ++ (codes "  " ++ plain.target_text names.now.names.items (target_named (map names_of definitions.now) target) ++ codes ": ")) }
{
    put(out, "  ")?;
    put_target(alloc, out, names, definitions, target)?;
    put(out, ": ")
}

// Writes the beginning of the line of an element.
fn write_element<K: Sink>(
    alloc: Global,
    sink: &mut K,
    waiting: &mut String,
    names: &Names,
    definitions: &[DefinitionName<'_>],
    target: Target,
) -> Result<(), WriteAll>
    requires { K.faults sink.old < 2 ^ 64 - 1 }
    ensures streams { Streams (K.written sink.old) (K.written sink.new) (string_bytes waiting.old) (string_bytes waiting.new) result
        (codes "  " ++ plain.target_text names.now.names.items (target_named (map names_of definitions.now) target) ++ codes ": ") }
    ensures cause { WriteAllCause (K.faults sink.old) (K.faults sink.new) result }
{
    let put = put_element(alloc, waiting, names, definitions, target);
    pass_on(sink, waiting, put)
}

// Writes the line of an element.
fn write_line<K: Sink>(
    alloc: Global,
    sink: &mut K,
    waiting: &mut String,
    names: &Names,
    definitions: &[DefinitionName<'_>],
    found: &FoundChain,
) -> Result<(), WriteAll>
    requires { K.faults sink.old < 2 ^ 64 - 1 }
    ensures streams { Streams (K.written sink.old) (K.written sink.new) (string_bytes waiting.old) (string_bytes waiting.new) result
        (plain.explanation_line names.now.names.items (explanation_named (map names_of definitions.now) found.now)) }
    ensures cause { WriteAllCause (K.faults sink.old) (K.faults sink.new) result }
{
    write_element(alloc, sink, waiting, names, definitions, found.target)?;
    write_chain(alloc, sink, waiting, names, definitions, &found.chain)?;
    write_line_feed(sink, waiting)
}

// Writes a line for each element.
fn write_lines<K: Sink>(
    alloc: Global,
    sink: &mut K,
    waiting: &mut String,
    names: &Names,
    definitions: &[DefinitionName<'_>],
    found: &[FoundChain],
) -> Result<(), WriteAll>
    requires { K.faults sink.old < 2 ^ 64 - 1 }
    ensures streams { Streams (K.written sink.old) (K.written sink.new) (string_bytes waiting.old) (string_bytes waiting.new) result
        (flat_map (plain.explanation_line names.now.names.items) (map (explanation_named (map names_of definitions.now)) found.now)) }
    ensures cause { WriteAllCause (K.faults sink.old) (K.faults sink.new) result }
{
    for it in found {
        write_line(alloc, sink, waiting, names, definitions, it)?;
    }
    Ok(())
}

// Writes what waits, and a line for each element behind it.
fn write_behind<K: Sink>(
    alloc: Global,
    sink: &mut K,
    waiting: &mut String,
    names: &Names,
    definitions: &[DefinitionName<'_>],
    found: &[FoundChain],
) -> Result<(), WriteAll>
    requires { K.faults sink.old < 2 ^ 64 - 1 }
    ensures written { WritesWhole (K.written sink.old) (K.written sink.new) result (string_bytes waiting.old
        ++ flat_map (plain.explanation_line names.now.names.items) (map (explanation_named (map names_of definitions.now)) found.now)) }
    ensures cause { WriteAllCause (K.faults sink.old) (K.faults sink.new) result }
{
    write_lines(alloc, sink, waiting, names, definitions, found)?;
    write_all(sink, waiting.as_bytes())
}

/// Writes the reply to a command that explains the definition of a module: a line for each element that was found a chain
/// to. Devices and definitions have their names by their numbers. The text is written in pieces.
pub fn write_explanation<K: Sink>(
    alloc: Global,
    sink: &mut K,
    module: &Name,
    def: &Name,
    names: &Names,
    definitions: &[DefinitionName<'_>],
    found: &[FoundChain],
) -> Result<(), WriteAll>
    requires { K.faults sink.old < 2 ^ 64 - 1 }
    ensures written { WritesWhole (K.written sink.old) (K.written sink.new) result
        (reply_text names.now.names.items (Explained «module».now def.now (map (explanation_named (map names_of definitions.now)) found.now))) }
    ensures cause { WriteAllCause (K.faults sink.old) (K.faults sink.new) result }
{
    match head_text(alloc, "explain", module, def) {
        Ok(mut head) => write_behind(alloc, sink, &mut head, names, definitions, found),
        Err(AllocError) => Err(WriteAll::NoMemory),
    }
}

/// The reply to such a command that is refused with the code. Fails only for want of memory.
pub fn explain_refusal(
    alloc: Global,
    module: &Name,
    def: &Name,
    code: Code,
) -> Result<String, AllocError>
    ensures { IfOk result (λ text. string_bytes text ≡ reply_text [] (ExplainRefused «module».now def.now code)) }
{
    format!(in alloc; "explain {module}.{def} refused {code}\n")
}
