//! Whole certificates, line by line.

ghost use Rattle.std.specs.Prelude.{◌≡◌, ◌≤◌, ◌-◌, ◌++◌, ◌∷◌, [], length, take, OnOk, IfOk};
ghost use Rattle.std.specs.Str.{bytes_eq};
ghost use Rattle.indexmap.specs.IndexSet.{insert_key};
ghost use Rattle.cc_core.specs.Contexts.{entry_of};
ghost use Rattle.cc_core.specs.Places.{places_of};
ghost use Rattle.cc_core.specs.TermViews.{type_of, context_of};
ghost use Rattle.cc_certificate_text.specs.Certificates.{Opens, Start, Binding, Proving};
ghost use Rattle.cc_certificate_text.specs.LineReading.{next_line};
ghost use Rattle.cc_certificate_reading.specs.FirstPlaces.{AreFirst};
ghost use Rattle.cc_certificate_reading.specs.Agreement.{Agrees};
ghost use Rattle.cc_certificate_reading.specs.CertificateViews.{node_line_of, ReadsCertificate};
ghost use Rattle.cc_certificate_reading.specs.Progress.{entry_line_of, IsPlacedEntry, IsNextLine, StopsAs, IsHeading, ReadsHeading, ReadsNodes};

use crate::binds::{read_bind, read_statement};
use crate::certificate::{Cert, CertNode, ReadCertError};
use crate::nodes::read_node;
use crate::stop::{Reading, Stop};
use crate::words::read_exact;
use cc_base::name::Name;
use cc_core::{Bind, Ctx, Node, Ty};
use cc_names::Names;
use cc_words::words::behind;
use std::alloc::{AllocError, Global};
use std::rc::Rc;

/// What a line behind the first says before the nodes.
#[derive(Drop)]
pub enum Entry {
    Bind(Name, Ty),
    Term(Node),
}

/// The lines before the nodes, with how many they are.
#[derive(Drop)]
pub struct Heading {
    pub names: Names,
    pub binds: Vec<(Name, Ty)>,
    pub term: Node,
    pub lines: u32,
}

/// The binds so far.
#[derive(Drop)]
pub struct Bound {
    pub names: Names,
    pub binds: Vec<(Name, Ty)>,
    pub ctx: Ctx,
}

// The first line.
#[tactic(auto, unfolding(cc_certificate_text::specs::LineReading::next_line, cc_certificate_text::specs::LineReading::line_at))]
fn read_opening(bytes: &[u8]) -> Reading<'_, ()>
    ensures { Agrees (λ _. Opens) result (next_line Start bytes.now) }
{
    let (_, rest) = read_exact("cert 1", bytes)?;
    let (_, rest) = read_exact("\n", rest)?;
    Ok(((), rest))
}

// The line of a bind or of the term.
#[tactic(auto, unfolding(cc_certificate_text::specs::LineReading::next_line, cc_certificate_text::specs::LineReading::line_at, cc_certificate_text::specs::Reading::begun))]
fn read_entry<'a>(alloc: Global, names: &Names, ctx: &Ctx, bytes: &'a [u8]) -> Reading<'a, Entry>
    requires { length names.now ≤ 4294967296 }
    ensures read { Agrees entry_line_of result (next_line (Binding names.now (context_of ctx.now)) bytes.now) }
    ensures placed { IfOk result (λ read. IsPlacedEntry read.0) }
{
    if let Some(rest) = behind(bytes, "bind ") {
        let ((name, ty), rest) = read_bind(alloc, names, ctx, rest)?;
        let (_, rest) = read_exact("\n", rest)?;
        return Ok((Entry::Bind(name, ty), rest));
    }
    if let Some(rest) = behind(bytes, "term ") {
        let (node, rest) = read_statement(alloc, names, ctx, rest)?;
        let (_, rest) = read_exact("\n", rest)?;
        return Ok((Entry::Term(node), rest));
    }
    Err(Stop::Misfit)
}

// The line of a node.
#[tactic(auto, unfolding(cc_certificate_text::specs::LineReading::next_line, cc_certificate_text::specs::LineReading::line_at))]
fn read_node_line<'a>(
    alloc: Global,
    names: &Names,
    count: u32,
    unused: &[u32],
    bytes: &'a [u8],
) -> Reading<'a, CertNode>
    requires { length names.now ≤ 4294967296 }
    ensures { Agrees node_line_of result (next_line (Proving names.now count unused.now) bytes.now) }
{
    let (node, rest) = read_node(alloc, names, count, unused, bytes)?;
    let (_, rest) = read_exact("\n", rest)?;
    Ok((node, rest))
}

// The number behind, which counts as want of memory where it has more than 32 bits.
fn next_number(number: u32) -> Result<u32, ReadCertError>
    ensures next { IsNextLine number result }
    ensures low { IfOk result (λ next. next ≤ 4294967295) }
{
    match number.checked_add(1) {
        Some(next) => Ok(next),
        None => Err(ReadCertError::NoMemory),
    }
}

// The refusal of the line behind so many.
fn stopped(stop: Stop, lines: u32) -> ReadCertError
    ensures { StopsAs stop lines result }
{
    match stop {
        Stop::Misfit => match lines.checked_add(1) {
            Some(line) => ReadCertError::BadCert { line },
            None => ReadCertError::NoMemory,
        },
        Stop::NoMemory => ReadCertError::NoMemory,
    }
}

// The context with a variable of the type.
fn with_entry(alloc: Global, ctx: &Ctx, ty: &Ty) -> Result<Ctx, AllocError>
    ensures { IfOk result (λ c. context_of c ≡ entry_of (type_of ty.now) ∷ context_of ctx.now) }
{
    let shape = ty.shape.clone()?;
    let set = ty.set.clone()?;
    ctx.push(alloc, Bind::Var(Ty { shape, set }))
}

// Adds a bind. Its name is put last, unless it is there.
fn add_bind(alloc: Global, bound: &mut Bound, name: Name, ty: Ty) -> Result<(), AllocError>
    ensures names { OnOk result (bound.new.names ≡ insert_key bytes_eq bound.old.names name) }
    ensures binds { OnOk result (bound.new.binds.items ≡ bound.old.binds.items ++ (name, ty) ∷ []) }
    ensures context { OnOk result (context_of bound.new.ctx ≡ entry_of (type_of ty) ∷ context_of bound.old.ctx) }
{
    let ctx = with_entry(alloc, &bound.ctx, &ty)?;
    bound.names.add(&name)?;
    bound.binds.push((name, ty))?;
    bound.ctx = ctx;
    Ok(())
}

// Takes away the last numbers, as many as there are premises, and adds one.
fn use_up(unused: &mut Vec<u32>, premises: &[u32], number: u32) -> Result<(), AllocError>
    ensures { OnOk result (unused.new.items ≡ take (length unused.old.items - length premises.now) unused.old.items ++ number ∷ []) }
{
    let kept = unused.len().saturating_sub(premises.len());
    unused.truncate(kept);
    unused.push(number)?;
    Ok(())
}

/// The lines before the nodes, and what stands behind them.
pub fn read_heading<'a>(
    alloc: Global,
    bytes: &'a [u8],
) -> Result<(Heading, &'a [u8]), ReadCertError>
    ensures heading { ReadsHeading bytes.now result }
    ensures placed { IfOk result (λ read. AreFirst (places_of read.0.term)) }
{
    let opening = match read_opening(bytes) {
        Ok(read) => read,
        Err(stop) => return Err(stopped(stop, 0)),
    };
    let mut bound = Bound {
        names: Names::new(alloc),
        binds: Vec::new(alloc),
        ctx: Ctx::new(),
    };
    let mut lines: u32 = 1;
    let mut rest = opening.1;
    while rest.len() > 0 {
        let (entry, behind) = match read_entry(alloc, &bound.names, &bound.ctx, rest) {
            Ok(read) => read,
            Err(stop) => return Err(stopped(stop, lines)),
        };
        lines = next_number(lines)?;
        match entry {
            Entry::Bind(name, ty) => {
                add_bind(alloc, &mut bound, name, ty)?;
                rest = behind;
            }
            Entry::Term(term) => {
                let heading = Heading {
                    names: bound.names,
                    binds: bound.binds,
                    term,
                    lines,
                };
                return Ok((heading, behind));
            }
        }
    }
    Err(stopped(Stop::Misfit, lines))
}

/// The nodes behind the heading, which stand at the end of the bytes.
pub fn read_nodes(
    alloc: Global,
    bytes: &[u8],
    heading: &Heading,
    left: &[u8],
) -> Result<Vec<CertNode>, ReadCertError>
    requires { IsHeading bytes.now heading.now left.now }
    ensures { ReadsNodes (λ nodes. nodes.items) bytes.now heading.now result }
{
    let mut nodes = Vec::new(alloc);
    let mut unused: Vec<u32> = Vec::new(alloc);
    let mut count: u32 = 0;
    let mut lines = heading.lines;
    let mut rest = left;
    while rest.len() > 0 {
        let (node, behind) = match read_node_line(
            alloc,
            &heading.names,
            count,
            unused.as_slice(),
            rest,
        ) {
            Ok(read) => read,
            Err(stop) => return Err(stopped(stop, lines)),
        };
        lines = next_number(lines)?;
        count = next_number(count)?;
        use_up(&mut unused, node.premises.as_slice(), count)?;
        nodes.push(node)?;
        rest = behind;
    }
    if unused.len() == 1 {
        Ok(nodes)
    } else {
        Err(stopped(Stop::Misfit, lines))
    }
}

/// The certificate whose text the bytes are. All places of its term are the first one of a text.
///
/// Fails with `BadCert` exactly where they are none, and names the first line that does not fit, or the one behind the
/// last where all fit. Fails with `NoMemory` for want of memory, as which more than 2^32 - 1 lines count.
pub fn read_cert(alloc: Global, bytes: &[u8]) -> Result<Cert, ReadCertError>
    ensures read { ReadsCertificate bytes.now result }
    ensures placed { IfOk result (λ cert. AreFirst (places_of cert.term.value)) }
{
    let (heading, rest) = match read_heading(alloc, bytes) {
        Ok(read) => read,
        Err(error) => return Err(error),
    };
    let nodes = match read_nodes(alloc, bytes, &heading, rest) {
        Ok(nodes) => nodes,
        Err(error) => return Err(error),
    };
    let term = Rc::new(alloc, heading.term)?;
    Ok(Cert {
        binds: heading.binds,
        term,
        nodes,
    })
}
