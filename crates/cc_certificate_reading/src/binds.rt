//! Binds and the term.

ghost use Rattle.std.specs.Prelude.{◌≡◌, ◌≤◌, length, IfOk};
ghost use Rattle.cc_core.specs.Places.{places_of};
ghost use Rattle.cc_core.specs.TermViews.{term_of, context_of};
ghost use Rattle.cc_certificate_text.specs.Certificates.{States};
ghost use Rattle.cc_certificate_text.specs.LineReading.{name_at, bind_at, statement_at};
ghost use Rattle.cc_certificate_reading.specs.FirstPlaces.{AreFirst};
ghost use Rattle.cc_certificate_reading.specs.Agreement.{Agrees};
ghost use Rattle.cc_certificate_reading.specs.CertificateViews.{bind_line_of};

use crate::sets::Locals;
use crate::stop::{Reading, Stop};
use crate::terms::read_term;
use crate::types::read_type;
use crate::words::read_exact;
use cc_base::name::Name;
use cc_core::wellformed::{wf, wf_term};
use cc_core::{Ctx, Node, Ty};
use cc_names::Names;
use cc_words::words::{cut_at, name_of};
use std::alloc::Global;

// A name, and the colon behind it.
#[tactic(auto, unfolding(cc_certificate_text::specs::LineReading::name_at))]
fn read_name<'a>(alloc: Global, bytes: &'a [u8]) -> Reading<'a, Name>
    ensures { Agrees (λ name. name) result (name_at bytes.now) }
{
    let Some((word, rest)) = cut_at(bytes, b':') else {
        return Err(Stop::Misfit);
    };
    match name_of(alloc, word)? {
        Some(name) => Ok((name, rest)),
        None => Err(Stop::Misfit),
    }
}

/// The name and the type of a bind.
#[tactic(auto, unfolding(cc_certificate_text::specs::LineReading::bind_at, cc_certificate_text::specs::Reading::type_at))]
pub fn read_bind<'a>(
    alloc: Global,
    names: &Names,
    ctx: &Ctx,
    bytes: &'a [u8],
) -> Reading<'a, (Name, Ty)>
    requires { length names.now ≤ 4294967296 }
    ensures { Agrees bind_line_of result (bind_at names.now (context_of ctx.now) bytes.now) }
{
    let (name, rest) = read_name(alloc, bytes)?;
    if names.contains(&name) {
        return Err(Stop::Misfit);
    }
    let (_, rest) = read_exact(" ", rest)?;
    let (ty, rest) = read_type(alloc, Locals::Counted, names, 5000, 0, rest)?;
    if !wf(alloc, ctx, &ty)? {
        return Err(Stop::Misfit);
    }
    Ok(((name, ty), rest))
}

/// The term over the binds. All its places are the first one of a text.
#[tactic(auto, unfolding(cc_certificate_text::specs::LineReading::statement_at))]
pub fn read_statement<'a>(
    alloc: Global,
    names: &Names,
    ctx: &Ctx,
    bytes: &'a [u8],
) -> Reading<'a, Node>
    requires { length names.now ≤ 4294967296 }
    ensures read { Agrees (λ node. States (term_of node)) result (statement_at names.now (context_of ctx.now) bytes.now) }
    ensures placed { IfOk result (λ read. AreFirst (places_of read.0)) }
{
    let (node, rest) = read_term(alloc, names, 5000, 0, bytes)?;
    if !wf_term(alloc, ctx, &node)? {
        return Err(Stop::Misfit);
    }
    Ok((node, rest))
}
