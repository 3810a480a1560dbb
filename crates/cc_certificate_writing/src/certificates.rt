//! The text of a derivation, with the context and the term that it is about.

ghost use Rattle.std.specs.Prelude.{◌≡◌, ◌-◌, ◌^◌, ◌<◌, ◌++◌, codes, OnOk, IfOk};
ghost use Rattle.std.specs.String.{string_bytes};
ghost use Rattle.cc_io.specs.Pieces.{Streams};
ghost use Rattle.cc_io.specs.Wholes.{WriteAllCause};
ghost use Rattle.cc_core.specs.Contexts.{TermEntry, TypeEntry, lookup};
ghost use Rattle.cc_core.specs.Reading as reading;
ghost use Rattle.cc_core.specs.TermViews.{shape_of, term_of, bind_of, context_of};
ghost use Rattle.cc_derivation.specs.DerivationViews.{der_of};
ghost use Rattle.cc_certificate_writing.specs.Certificates as plain;
ghost use Rattle.cc_print.specs.TermTexts.{term_text};

use crate::nodes::{put_nodes, write_nodes};
use crate::terms::put_term;
use crate::writing::{put, put_position, put_shape, put_type, same_names};
use cc_capture::CapSet;
use cc_core::reading::read_shape;
use cc_core::{Bind, Ctx, Node, Shape, Ty};
use cc_derivation::Der;
use cc_io::{Sink, WriteAll, pass_on};
use cc_print::Names;
use std::alloc::{AllocError, Global};
use std::rc::Rc;

// Adds the line of a variable of terms.
fn put_variable_line(
    alloc: Global,
    out: &mut String,
    front: &str,
    names: &Names,
    position: u32,
    ty: &Ty,
) -> Result<(), AllocError>
    requires { names.now.locals ≡ 0 }
    ensures { OnOk result (string_bytes out.new ≡ string_bytes out.old ++ plain.line (front.now ++ plain.bind_line names.now.names.items position (TermEntry (shape_of ty.now.shape.value) ty.now.set))) }
{
    put(out, front)?;
    put(out, "bind ")?;
    put_position(alloc, out, names, "_", position)?;
    put(out, ": ")?;
    put_type(alloc, out, names, ty)?;
    put(out, "\n")
}

// Adds the line of a type variable.
fn put_type_variable_line(
    alloc: Global,
    out: &mut String,
    front: &str,
    names: &Names,
    position: u32,
    bound: &Shape,
) -> Result<(), AllocError>
    requires { names.now.locals ≡ 0 }
    ensures { OnOk result (string_bytes out.new ≡ string_bytes out.old ++ plain.line (front.now ++ plain.bind_line names.now.names.items position (TypeEntry (shape_of bound.now)))) }
{
    put(out, front)?;
    put(out, "bind ")?;
    put_position(alloc, out, names, "_T", position)?;
    put(out, " <: ")?;
    put_shape(alloc, out, names, bound)?;
    put(out, "\n")
}

// Adds the line of a variable whose shape is still to be read.
fn put_unread_line(
    alloc: Global,
    out: &mut String,
    front: &str,
    names: &Names,
    position: u32,
    shape: &Rc<Shape>,
    set: &CapSet,
    entries: u32,
) -> Result<(), AllocError>
    requires { names.now.locals ≡ 0 }
    ensures { OnOk result (string_bytes out.new ≡ string_bytes out.old ++ plain.line (front.now ++ plain.bind_line names.now.names.items position (TermEntry (reading.read_shape entries (shape_of shape.now.value)) set.now))) }
{
    let shape = read_shape(alloc, shape, entries)?;
    let set = set.clone()?;
    put_variable_line(alloc, out, front, names, position, &Ty { shape, set })
}

// Adds the line of what stands at a position.
fn put_bind(
    alloc: Global,
    out: &mut String,
    front: &str,
    names: &Names,
    position: u32,
    bind: &Bind,
) -> Result<(), AllocError>
    requires { names.now.locals ≡ 0 }
    ensures { OnOk result (string_bytes out.new ≡ string_bytes out.old ++ plain.line (front.now ++ plain.bind_line names.now.names.items position (bind_of bind.now))) }
{
    match bind {
        Bind::Var(ty) => put_variable_line(alloc, out, front, names, position, ty),
        Bind::TVar(bound) => put_type_variable_line(alloc, out, front, names, position, bound),
        Bind::Unread {
            shape,
            set,
            entries,
        } => put_unread_line(alloc, out, front, names, position, shape, set, *entries),
    }
}

// Adds the line of what stands at a position of a context, if anything does.
fn put_bind_at(
    alloc: Global,
    out: &mut String,
    front: &str,
    names: &Names,
    ctx: &Ctx,
    position: u32,
) -> Result<(), AllocError>
    requires { names.now.locals ≡ 0 }
    ensures { OnOk result (string_bytes out.new ≡ string_bytes out.old ++ plain.lines_behind front.now (plain.lines_at names.now.names.items position (lookup (context_of ctx.now) position))) }
{
    match ctx.get(position) {
        Some(bind) => put_bind(alloc, out, front, names, position, bind),
        None => Ok(()),
    }
}

// Adds a line for each entry of a context, the oldest first.
fn put_binds(
    alloc: Global,
    out: &mut String,
    front: &str,
    names: &Names,
    ctx: &Ctx,
) -> Result<(), AllocError>
    requires { names.now.locals ≡ 0 }
    ensures { OnOk result (string_bytes out.new ≡ string_bytes out.old ++ plain.lines_behind front.now (plain.bind_lines names.now.names.items (context_of ctx.now))) }
{
    for position in 0..ctx.len() {
        put_bind_at(alloc, out, front, names, ctx, position)?;
    }
    Ok(())
}

// Adds the line of the term.
fn put_term_line(
    alloc: Global,
    out: &mut String,
    front: &str,
    names: &mut Names,
    term: &Node,
) -> Result<(), AllocError>
    ensures text { OnOk result (string_bytes out.new ≡ string_bytes out.old ++ plain.line (front.now ++ (codes "term " ++ term_text names.old.names.items 0 (term_of term.now)))) }
    ensures names { names.new.names.items ≡ names.old.names.items }
{
    put(out, front)?;
    put(out, "term ")?;
    put_term(alloc, out, names, 0, term)?;
    put(out, "\n")
}

// Adds the line of the form.
fn put_form(out: &mut String, front: &str) -> Result<(), AllocError>
    ensures { OnOk result (string_bytes out.new ≡ string_bytes out.old ++ plain.line (front.now ++ codes "cert 1")) }
{
    put(out, front)?;
    put(out, "cert 1\n")
}

/// Adds the lines of a certificate, each behind a front: that of a derivation of a type of the term in the context. These
/// are which form it has, what stands at each position of the context, the term, and the nodes in post-order. The
/// positions have the names; the number of local binders beside these is not looked at, since those of the term alone
/// are local. A part of the derivation that is shared has its lines at each of its places.
///
/// Nodes are gone through by a loop, so the depth of calls does not grow with the depth of the derivation. Fails only
/// for want of memory, as which the number of a binder past 2^32 - 1 and that of a node past 2^64 - 1 count.
pub fn put_cert(
    alloc: Global,
    out: &mut String,
    front: &str,
    names: &Names,
    ctx: &Ctx,
    term: &Node,
    der: &Der,
) -> Result<(), AllocError>
    ensures { OnOk result (string_bytes out.new ≡ string_bytes out.old ++ plain.lines_behind front.now (plain.certificate_lines names.now.names.items (context_of ctx.now) (term_of term.now) (der_of der.now))) }
{
    let mut inside = Names {
        names: same_names(alloc, &names.names)?,
        locals: 0,
    };
    put_form(out, front)?;
    put_binds(alloc, out, front, &inside, ctx)?;
    put_term_line(alloc, out, front, &mut inside, term)?;
    put_nodes(alloc, out, front, &mut inside, der)
}

// Writes the line of the form.
fn write_form<K: Sink>(sink: &mut K, waiting: &mut String, front: &str) -> Result<(), WriteAll>
    requires { K.faults sink.old < 2 ^ 64 - 1 }
    ensures streams { Streams (K.written sink.old) (K.written sink.new) (string_bytes waiting.old) (string_bytes waiting.new) result
        (plain.line (front.now ++ codes "cert 1")) }
    ensures cause { WriteAllCause (K.faults sink.old) (K.faults sink.new) result }
{
    let put = put_form(waiting, front);
    pass_on(sink, waiting, put)
}

// Writes the line of what stands at a position of a context, if anything does.
fn write_bind_at<K: Sink>(
    alloc: Global,
    sink: &mut K,
    waiting: &mut String,
    front: &str,
    names: &Names,
    ctx: &Ctx,
    position: u32,
) -> Result<(), WriteAll>
    requires locals { names.now.locals ≡ 0 }
    requires count { K.faults sink.old < 2 ^ 64 - 1 }
    ensures streams { Streams (K.written sink.old) (K.written sink.new) (string_bytes waiting.old) (string_bytes waiting.new) result
        (plain.lines_behind front.now (plain.lines_at names.now.names.items position (lookup (context_of ctx.now) position))) }
    ensures cause { WriteAllCause (K.faults sink.old) (K.faults sink.new) result }
{
    let put = put_bind_at(alloc, waiting, front, names, ctx, position);
    pass_on(sink, waiting, put)
}

// Writes a line for each entry of a context, the oldest first.
fn write_binds<K: Sink>(
    alloc: Global,
    sink: &mut K,
    waiting: &mut String,
    front: &str,
    names: &Names,
    ctx: &Ctx,
) -> Result<(), WriteAll>
    requires locals { names.now.locals ≡ 0 }
    requires count { K.faults sink.old < 2 ^ 64 - 1 }
    ensures streams { Streams (K.written sink.old) (K.written sink.new) (string_bytes waiting.old) (string_bytes waiting.new) result
        (plain.lines_behind front.now (plain.bind_lines names.now.names.items (context_of ctx.now))) }
    ensures cause { WriteAllCause (K.faults sink.old) (K.faults sink.new) result }
{
    for position in 0..ctx.len() {
        write_bind_at(alloc, sink, waiting, front, names, ctx, position)?;
    }
    Ok(())
}

// Writes the line of the term.
fn write_term_line<K: Sink>(
    alloc: Global,
    sink: &mut K,
    waiting: &mut String,
    front: &str,
    names: &mut Names,
    term: &Node,
) -> Result<(), WriteAll>
    requires { K.faults sink.old < 2 ^ 64 - 1 }
    ensures streams { Streams (K.written sink.old) (K.written sink.new) (string_bytes waiting.old) (string_bytes waiting.new) result
        (plain.line (front.now ++ (codes "term " ++ term_text names.old.names.items 0 (term_of term.now)))) }
    ensures names { names.new.names.items ≡ names.old.names.items }
    ensures cause { WriteAllCause (K.faults sink.old) (K.faults sink.new) result }
{
    let put = put_term_line(alloc, waiting, front, names, term);
    pass_on(sink, waiting, put)
}

// Writes all lines of a certificate, in order.
fn write_lines<K: Sink>(
    alloc: Global,
    sink: &mut K,
    waiting: &mut String,
    front: &str,
    names: &mut Names,
    ctx: &Ctx,
    term: &Node,
    der: &Der,
) -> Result<(), WriteAll>
    requires locals { names.old.locals ≡ 0 }
    requires count { K.faults sink.old < 2 ^ 64 - 1 }
    ensures streams { Streams (K.written sink.old) (K.written sink.new) (string_bytes waiting.old) (string_bytes waiting.new) result
        (plain.lines_behind front.now (plain.certificate_lines names.old.names.items (context_of ctx.now) (term_of term.now) (der_of der.now))) }
    ensures cause { WriteAllCause (K.faults sink.old) (K.faults sink.new) result }
{
    write_form(sink, waiting, front)?;
    write_binds(alloc, sink, waiting, front, &*names, ctx)?;
    write_term_line(alloc, sink, waiting, front, &mut *names, term)?;
    write_nodes(alloc, sink, waiting, front, names, der)
}

// The same names, with no local binder.
fn names_alone(alloc: Global, names: &Names) -> Result<Names, AllocError>
    ensures names { IfOk result (λ alone. alone.names.items ≡ names.now.names.items) }
    ensures locals { IfOk result (λ alone. alone.locals ≡ 0) }
{
    let names = same_names(alloc, &names.names)?;
    Ok(Names { names, locals: 0 })
}

/// Writes the lines of a certificate as `put_cert` adds them, in pieces: what is not written waits, and the lines come
/// behind what waited before.
pub fn write_cert<K: Sink>(
    alloc: Global,
    sink: &mut K,
    waiting: &mut String,
    front: &str,
    names: &Names,
    ctx: &Ctx,
    term: &Node,
    der: &Der,
) -> Result<(), WriteAll>
    requires { K.faults sink.old < 2 ^ 64 - 1 }
    ensures streams { Streams (K.written sink.old) (K.written sink.new) (string_bytes waiting.old) (string_bytes waiting.new) result
        (plain.lines_behind front.now (plain.certificate_lines names.now.names.items (context_of ctx.now) (term_of term.now) (der_of der.now))) }
    ensures cause { WriteAllCause (K.faults sink.old) (K.faults sink.new) result }
{
    match names_alone(alloc, names) {
        Ok(mut inside) => write_lines(alloc, sink, waiting, front, &mut inside, ctx, term, der),
        Err(AllocError) => Err(WriteAll::NoMemory),
    }
}

/// The text of a certificate, which has those lines with nothing before them. Fails as `put_cert` does.
pub fn cert_text(
    alloc: Global,
    names: &Names,
    ctx: &Ctx,
    term: &Node,
    der: &Der,
) -> Result<String, AllocError>
    ensures { IfOk result (λ t. string_bytes t ≡ plain.certificate_text names.now.names.items (context_of ctx.now) (term_of term.now) (der_of der.now)) }
{
    let mut out = String::new(alloc);
    put_cert(alloc, &mut out, "", names, ctx, term, der)?;
    Ok(out)
}
