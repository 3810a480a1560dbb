//! Operands, boxes that are opened, and what is written for a type.

ghost use Rattle.std.specs.Prelude.{◌≡◌, true, false, IfOk};
ghost use Rattle.cc_core.specs.Shapes.{BaseShape};
ghost use Rattle.cc_core.specs.Terms.{Written};
ghost use Rattle.cc_core.specs.TermViews.{shape_of, type_of, note_of, context_of};
ghost use Rattle.cc_core.specs.WellFormed.{IsWellFormedContext, IsWellFormedSet, IsWellFormedShape, IsWellFormedType};
ghost use Rattle.cc_checking.specs.Inference as plain;
ghost use Rattle.cc_subty.specs.Demands.{asked_of};
ghost use Rattle.cc_known.specs.Logs.{Answers, Meets, after};
ghost use Rattle.cc_known.specs.Parts.{named_of};
ghost use Rattle.cc_type.specs.Rows.{has_note, operand_log, argument_log, opening_log, written_log, own_log, own_named, noted_log, branch_log};
ghost use Rattle.cc_type.specs.Standing.{NoteReadsWell};

use crate::comparing::{against, below};
use crate::heads::shape_of_variable;
use crate::log::{Log, keep};
use cc_base::code::Code;
use cc_base::literal::Base;
use cc_base::place::Place;
use cc_capture::{CapSet, Var};
use cc_core::reading::{read_set, read_shape, read_type, write_set};
use cc_core::{Ctx, Note, Shape, Ty};
use cc_known::found::Named;
use cc_known::steps::entries;
use cc_known::stop::{Stop, refused};
use cc_subty::Demand;
use std::alloc::{AllocError, Global};
use std::rc::Rc;

/// The operand has to be of the shape.
#[inline(always)]
pub(crate) fn operand(
    alloc: Global,
    ctx: &Ctx,
    variable: Var,
    shape: &Shape,
    at: Place,
    log: &mut Log,
) -> Result<(), Stop>
    requires context { IsWellFormedContext (context_of ctx.now) }
    requires shape { IsWellFormedShape (context_of ctx.now) (shape_of shape.now) }
    ensures { Meets (λ u. u) result (asked_of log.new.demands) (operand_log at (context_of ctx.now) variable (shape_of shape.now) (asked_of log.old.demands)) }
{
    let found = shape_of_variable(alloc, ctx, variable)?;
    against(alloc, ctx, &found, shape, at, log)?;
    Ok(())
}

/// The operand has to be of the base shape.
#[inline(always)]
pub fn base_operand(
    alloc: Global,
    ctx: &Ctx,
    variable: Var,
    base: Base,
    at: Place,
    log: &mut Log,
) -> Result<(), Stop>
    requires { IsWellFormedContext (context_of ctx.now) }
    ensures { Meets (λ u. u) result (asked_of log.new.demands) (operand_log at (context_of ctx.now) variable (BaseShape base) (asked_of log.old.demands)) }
{
    operand(alloc, ctx, variable, &Shape::Base(base), at, log)
}

/// The argument of an operation has to be there where the operation takes one, and of that base shape.
pub(crate) fn operation_argument(
    alloc: Global,
    ctx: &Ctx,
    taken: Option<Base>,
    argument: Option<Var>,
    at: Place,
    log: &mut Log,
) -> Result<(), Stop>
    requires { IsWellFormedContext (context_of ctx.now) }
    ensures { Meets (λ u. u) result (asked_of log.new.demands) (argument_log at (context_of ctx.now) taken argument (asked_of log.old.demands)) }
{
    match taken {
        Some(base) => match argument {
            Some(variable) => base_operand(alloc, ctx, variable, base, at, log),
            None => Err(refused(Code::E14, at)),
        },
        None => match argument {
            Some(_) => Err(refused(Code::E14, at)),
            None => Ok(()),
        },
    }
}

/// The set under which a box is opened. The set of the content has to be below one that is written, and one that is
/// omitted is the set of the content.
pub(crate) fn opening_set(
    alloc: Global,
    ctx: &Ctx,
    content: &CapSet,
    set: &Option<CapSet>,
    at: Place,
    log: &mut Log,
) -> Result<CapSet, Stop>
    requires context { IsWellFormedContext (context_of ctx.now) }
    requires content { IsWellFormedSet (context_of ctx.now) content.now }
    ensures { Meets (λ s. s) result (asked_of log.new.demands) (opening_log at (context_of ctx.now) content.now set.now (asked_of log.old.demands)) }
{
    match set {
        Some(set) => {
            let under = read_set(alloc, set, entries(ctx))?;
            let demand = Demand::Sub {
                ctx: ctx.clone()?,
                left: content.clone()?,
                right: under.clone()?,
                at,
            };
            keep(alloc, log, &demand)?;
            Ok(under)
        }
        None => Ok(content.clone()?),
    }
}

/// The set may not have the universal capability.
pub(crate) fn capless(alloc: Global, set: &CapSet, at: Place, log: &mut Log) -> Result<(), Stop>
    ensures { Meets (λ u. u) result (asked_of log.new.demands) (after (asked_of log.old.demands) (plain.capless at set.now)) }
{
    let demand = Demand::NoCap {
        set: set.clone()?,
        at,
    };
    keep(alloc, log, &demand)?;
    Ok(())
}

/// Something has to be written for the type.
pub fn needs_note(at: Place, note: &Note) -> Result<(), Stop>
    ensures { Answers (λ u. u) result (has_note at (note_of note.now)) }
{
    match note {
        Note::Absent => Err(refused(Code::E14, at)),
        Note::Written(_) => Ok(()),
        Note::Own(_) => Ok(()),
    }
}

// The type that is written has to be above the one that was found.
fn noted_written(
    alloc: Global,
    ctx: &Ctx,
    written: &Rc<Ty>,
    ty: &Ty,
    at: Place,
    log: &mut Log,
) -> Result<Ty, Stop>
    requires context { IsWellFormedContext (context_of ctx.now) }
    requires ty { IsWellFormedType (context_of ctx.now) (type_of ty.now) }
    requires written { IsWellFormedType (context_of ctx.now) (plain.type_in (context_of ctx.now) (type_of written.now.value)) }
    ensures is { Meets type_of result (asked_of log.new.demands) (written_log at (context_of ctx.now) (type_of written.now.value) (type_of ty.now) (asked_of log.old.demands)) }
{
    let read = read_type(alloc, written, entries(ctx))?;
    below(alloc, ctx, ty, &read, at, log)?;
    Ok(read)
}

// The shape that is written has to be above that of the type that was found.
fn noted_own(
    alloc: Global,
    ctx: &Ctx,
    written: &Rc<Shape>,
    ty: &Ty,
    at: Place,
    log: &mut Log,
) -> Result<Rc<Shape>, Stop>
    requires context { IsWellFormedContext (context_of ctx.now) }
    requires ty { IsWellFormedType (context_of ctx.now) (type_of ty.now) }
    requires written { IsWellFormedShape (context_of ctx.now) (plain.shape_in (context_of ctx.now) (shape_of written.now.value)) }
    ensures is { Meets (λ s. shape_of s.value) result (asked_of log.new.demands) (own_log at (context_of ctx.now) (shape_of written.now.value) (type_of ty.now) (asked_of log.old.demands)) }
{
    let read = read_shape(alloc, written, entries(ctx))?;
    against(alloc, ctx, &ty.shape, &read, at, log)?;
    Ok(read)
}

// The shape with the set, as a note.
fn written_note(alloc: Global, shape: &Rc<Shape>, set: CapSet) -> Result<Note, AllocError>
    ensures { IfOk result (λ n. note_of n ≡ Written (shape_of shape.now.value) set) }
{
    let shape = shape.clone()?;
    Ok(Note::Written(Rc::new(alloc, Ty { shape, set })?))
}

// The read shape with the set of the type that was found, and how that is written.
fn named_own(
    alloc: Global,
    ctx: &Ctx,
    root: u32,
    written: &Rc<Shape>,
    read: Rc<Shape>,
    ty: &Ty,
) -> Result<Named, AllocError>
    requires { shape_of read.value ≡ plain.shape_in (context_of ctx.now) (shape_of written.now.value) }
    ensures is { IfOk result (λ n. named_of n ≡ own_named root (context_of ctx.now) (shape_of written.now.value) (type_of ty.now)) }
    ensures unchanged { IfOk result (λ n. n.unchanged ≡ false) }
{
    let set = ty.set.clone()?;
    let note = written_note(
        alloc,
        written,
        write_set(alloc, &ty.set, root, entries(ctx))?,
    )?;
    Ok(Named {
        ty: Ty { shape: read, set },
        note,
        unchanged: false,
    })
}

/// A type that was found, where a type may be written for it: the written one has to be above it. Where the set is
/// omitted the shape alone is compared, and the set is the one found.
pub fn noted(
    alloc: Global,
    ctx: &Ctx,
    root: u32,
    note: &Note,
    ty: &Ty,
    at: Place,
    log: &mut Log,
) -> Result<Named, Stop>
    requires context { IsWellFormedContext (context_of ctx.now) }
    requires ty { IsWellFormedType (context_of ctx.now) (type_of ty.now) }
    requires note { NoteReadsWell (context_of ctx.now) (note_of note.now) }
    ensures is { Meets named_of result (asked_of log.new.demands) (noted_log root at (context_of ctx.now) (note_of note.now) (type_of ty.now) (asked_of log.old.demands)) }
    ensures unchanged { IfOk result (λ n. n.unchanged ≡ true → note_of n.note ≡ note_of note.now) }
{
    match note {
        Note::Absent => Ok(Named {
            ty: ty.clone()?,
            note: Note::Absent,
            unchanged: true,
        }),
        Note::Written(written) => {
            let read = noted_written(alloc, ctx, written, ty, at, log)?;
            Ok(Named {
                ty: read,
                note: Note::Written(written.clone()?),
                unchanged: true,
            })
        }
        Note::Own(written) => {
            let read = noted_own(alloc, ctx, written, ty, at, log)?;
            Ok(named_own(alloc, ctx, root, written, read, ty)?)
        }
    }
}

/// The type of a branch has to be below the one that is written for the choice; where the set is omitted, its shape
/// has to.
pub fn branch(
    alloc: Global,
    ctx: &Ctx,
    note: &Note,
    ty: &Ty,
    at: Place,
    log: &mut Log,
) -> Result<(), Stop>
    requires context { IsWellFormedContext (context_of ctx.now) }
    requires ty { IsWellFormedType (context_of ctx.now) (type_of ty.now) }
    requires note { NoteReadsWell (context_of ctx.now) (note_of note.now) }
    ensures { Meets (λ u. u) result (asked_of log.new.demands) (branch_log at (context_of ctx.now) (note_of note.now) (type_of ty.now) (asked_of log.old.demands)) }
{
    match note {
        Note::Absent => Err(Stop::NoMemory),
        Note::Written(written) => {
            let read = read_type(alloc, written, entries(ctx))?;
            below(alloc, ctx, ty, &read, at, log)
        }
        Note::Own(written) => {
            let read = read_shape(alloc, written, entries(ctx))?;
            against(alloc, ctx, &ty.shape, &read, at, log)
        }
    }
}
