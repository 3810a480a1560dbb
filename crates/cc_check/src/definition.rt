//! The verdict of a definition.

ghost use Rattle.std.specs.Prelude.{◌≡◌, ◌∷◌, IfOk, IfSome, MatchOption, option_map};
ghost use Rattle.cc_base.specs.declared.code.Code.TheVariants as codes;
ghost use Rattle.cc_core.specs.Actions.{filled_by};
ghost use Rattle.cc_core.specs.Contexts.{entry_of};
ghost use Rattle.cc_core.specs.Occurrences.{HasNoHoleInType, HasNoHoleInTerm};
ghost use Rattle.cc_core.specs.Places.{places_of};
ghost use Rattle.cc_core.specs.Substitution.{filled_type};
ghost use Rattle.cc_core.specs.Typing.{HasType};
ghost use Rattle.cc_core.specs.TermViews.{shape_of, type_of, note_of, term_of, context_of};
ghost use Rattle.cc_core.specs.WellFormed.{IsWellFormedContext, IsWellFormedType};
ghost use Rattle.cc_checking_laws.specs.CheckingLaws.{Fits, oldest};
ghost use Rattle.cc_checking_laws.specs.AcceptedDefinitions.{definition_context};
ghost use Rattle.cc_checking_laws.specs.FillingLaws.{AreGlobals};
ghost use Rattle.cc_core.specs.Holes.{HolesAreOfParameters};
ghost use Rattle.cc_checking.specs.Verdicts.{IsRefused, settled_or, signature_under, signature_verdict};
ghost use Rattle.cc_subty.specs.Demands.{asked_of};
ghost use Rattle.cc_known.specs.Logs.{Meets};
ghost use Rattle.cc_known.specs.Measures.{IsMeasuredBy, AreMeasuresOf, AreAllMeasuresOf, IsSize};
ghost use Rattle.cc_check.specs.Definitions.{definition_of, checking_of, accepted_of};
ghost use Rattle.cc_check.specs.Judging.{Answers, Judges, HasNoTypeIfRefused, KeepsOf};
ghost use Rattle.cc_check.specs.Rows.{checked_log};

use crate::error::{CheckError, error_of};
use crate::found::Checking;
use crate::holes::hole_count;
use crate::plain::check_plain;
use crate::recursive::check_recursive;
use crate::signature::measured_signature;
use cc_base::code::{Code, Diag};
use cc_capture::CapSet;
use cc_core::sizes::shape_size;
use cc_core::substitution::{fill_note, fill_term, fill_type};
use cc_core::{Checked, CoreDef, Ctx, Ty};
use cc_known::{Measure, Measures, Stop};
use cc_solve::{Filling, first_failed, solve};
use cc_subty::Demands;
use cc_type::instances::exchange;
use cc_type::{Instances, Log};
use std::alloc::{AllocError, Global};

/// Checks the definition in the context of the devices, so many, of what is imported and of the definitions before it.
///
/// It is accepted exactly where it has that verdict, and refused with the code and the place of its verdict. Fails with
/// `NoMemory` only for want of memory.
pub fn check_def(
    alloc: Global,
    ctx: &Ctx,
    devices: u32,
    def: &CoreDef,
) -> Result<Checked, CheckError>
    requires fits { Fits (context_of ctx.now) (definition_of def.now) }
    requires holes { HolesAreOfParameters (term_of def.now.right.value) }
    ensures verdict { Judges devices (context_of ctx.now) (definition_of def.now) result }
    ensures typed { IfOk result (λ c. HasType (definition_context (context_of ctx.now) (definition_of def.now) (type_of c.sig)) (term_of c.filled.value) (type_of c.ty)
        × HasType (definition_context (context_of ctx.now) (definition_of def.now) (type_of c.sig)) (term_of c.filled.value) (type_of c.sig)) }
    ensures over_devices { IfOk result (λ c. IsWellFormedType (oldest devices (context_of ctx.now)) (type_of c.sig) × HasNoHoleInType (type_of c.sig)) }
    ensures no_hole { IfOk result (λ c. HasNoHoleInTerm (term_of c.filled.value) × HasNoHoleInType (type_of c.ty)) }
    ensures no_type { HasNoTypeIfRefused devices (context_of ctx.now) (definition_of def.now) result }
    ensures places { IfOk result (λ c. places_of c.filled.value ≡ places_of def.now.right.value) }
{
    check_next(alloc, ctx, devices, def, &mut Instances::new(alloc))
}

/// The same for the next definition of a module. What type functions gave for the definitions before it is remembered,
/// and so is what they give for this one.
pub fn check_next(
    alloc: Global,
    ctx: &Ctx,
    devices: u32,
    def: &CoreDef,
    instances: &mut Instances,
) -> Result<Checked, CheckError>
    requires fits { Fits (context_of ctx.now) (definition_of def.now) }
    requires holes { HolesAreOfParameters (term_of def.now.right.value) }
    ensures verdict { Judges devices (context_of ctx.now) (definition_of def.now) result }
    ensures typed { IfOk result (λ c. HasType (definition_context (context_of ctx.now) (definition_of def.now) (type_of c.sig)) (term_of c.filled.value) (type_of c.ty)
        × HasType (definition_context (context_of ctx.now) (definition_of def.now) (type_of c.sig)) (term_of c.filled.value) (type_of c.sig)) }
    ensures over_devices { IfOk result (λ c. IsWellFormedType (oldest devices (context_of ctx.now)) (type_of c.sig) × HasNoHoleInType (type_of c.sig)) }
    ensures no_hole { IfOk result (λ c. HasNoHoleInTerm (term_of c.filled.value) × HasNoHoleInType (type_of c.ty)) }
    ensures no_type { HasNoTypeIfRefused devices (context_of ctx.now) (definition_of def.now) result }
    ensures places { IfOk result (λ c. places_of c.filled.value ≡ places_of def.now.right.value) }
{
    let mut measures = Measures::new(alloc, devices, ctx.len());
    check_known(alloc, ctx, devices, def, &mut measures, instances)
}

/// The same where this is known of the definitions before it. What is known of this one is kept behind that.
pub fn check_known(
    alloc: Global,
    ctx: &Ctx,
    devices: u32,
    def: &CoreDef,
    measures: &mut Measures,
    instances: &mut Instances,
) -> Result<Checked, CheckError>
    requires fits { Fits (context_of ctx.now) (definition_of def.now) }
    requires holes { HolesAreOfParameters (term_of def.now.right.value) }
    requires measures { AreAllMeasuresOf devices measures.old (context_of ctx.now) }
    ensures verdict { Judges devices (context_of ctx.now) (definition_of def.now) result }
    ensures typed { IfOk result (λ c. HasType (definition_context (context_of ctx.now) (definition_of def.now) (type_of c.sig)) (term_of c.filled.value) (type_of c.ty)
        × HasType (definition_context (context_of ctx.now) (definition_of def.now) (type_of c.sig)) (term_of c.filled.value) (type_of c.sig)) }
    ensures over_devices { IfOk result (λ c. IsWellFormedType (oldest devices (context_of ctx.now)) (type_of c.sig) × HasNoHoleInType (type_of c.sig)) }
    ensures no_hole { IfOk result (λ c. HasNoHoleInTerm (term_of c.filled.value) × HasNoHoleInType (type_of c.ty)) }
    ensures no_type { HasNoTypeIfRefused devices (context_of ctx.now) (definition_of def.now) result }
    ensures places { IfOk result (λ c. places_of c.filled.value ≡ places_of def.now.right.value) }
    ensures measures { IfOk result (λ c. AreAllMeasuresOf devices measures.new (entry_of (type_of c.sig) ∷ context_of ctx.now)) }
{
    judge_next(alloc, ctx, devices, def, measures, instances)
}

// The verdict of the next definition. What is known of it is kept.
fn judge_next(
    alloc: Global,
    ctx: &Ctx,
    devices: u32,
    def: &CoreDef,
    measures: &mut Measures,
    instances: &mut Instances,
) -> Result<Checked, CheckError>
    requires fits { Fits (context_of ctx.now) (definition_of def.now) }
    requires holes { HolesAreOfParameters (term_of def.now.right.value) }
    requires measures { AreAllMeasuresOf devices measures.old (context_of ctx.now) }
    ensures verdict { Judges devices (context_of ctx.now) (definition_of def.now) result }
    ensures places { IfOk result (λ c. places_of c.filled.value ≡ places_of def.now.right.value) }
    ensures measures { IfOk result (λ c. AreAllMeasuresOf devices measures.new (entry_of (type_of c.sig) ∷ context_of ctx.now)) }
{
    let mut size = 0;
    let checked = judge(alloc, ctx, devices, def, &*measures, instances, &mut size)?;
    measures.keep(size)?;
    Ok(checked)
}

// The verdict, and the size of the shape of the type that others see.
fn judge(
    alloc: Global,
    ctx: &Ctx,
    devices: u32,
    def: &CoreDef,
    measures: &Measures,
    instances: &mut Instances,
    size: &mut u64,
) -> Result<Checked, CheckError>
    requires fits { Fits (context_of ctx.now) (definition_of def.now) }
    requires measures { AreMeasuresOf measures.now (context_of ctx.now) }
    requires holes { HolesAreOfParameters (term_of def.now.right.value) }
    ensures verdict { Judges devices (context_of ctx.now) (definition_of def.now) result }
    ensures size { IfOk result (λ c. IsSize size.new (shape_of c.sig.shape.value)) }
    ensures places { IfOk result (λ c. places_of c.filled.value ≡ places_of def.now.right.value) }
{
    let mut log = Log::new(alloc);
    match find(alloc, ctx, devices, def, measures, instances, &mut log) {
        Ok(found) => judge_found(alloc, ctx, devices, def, found, log.demands(), size),
        Err(stop) => Err(error_of(stop)),
    }
}

// What is found for the definition, and what is kept of all that is asked.
fn find(
    alloc: Global,
    ctx: &Ctx,
    devices: u32,
    def: &CoreDef,
    measures: &Measures,
    instances: &mut Instances,
    log: &mut Log,
) -> Result<Checking, Stop>
    requires measures { AreMeasuresOf measures.now (context_of ctx.now) }
    requires fits { Fits (context_of ctx.now) (definition_of def.now) }
    ensures exact { Meets checking_of result (asked_of log.new.demands) (checked_log devices (context_of ctx.now) (definition_of def.now) (asked_of log.old.demands)) }
    ensures places { IfOk result (λ c. places_of c.completed.value ≡ places_of def.now.right.value) }
{
    exchange(log, instances);
    let found = find_by_form(alloc, ctx, devices, def, measures, log);
    exchange(log, instances);
    found
}

// The same, by whether the name of the definition is visible in its right side.
fn find_by_form(
    alloc: Global,
    ctx: &Ctx,
    devices: u32,
    def: &CoreDef,
    measures: &Measures,
    log: &mut Log,
) -> Result<Checking, Stop>
    requires measures { AreMeasuresOf measures.now (context_of ctx.now) }
    requires fits { Fits (context_of ctx.now) (definition_of def.now) }
    ensures exact { Meets checking_of result (asked_of log.new.demands) (checked_log devices (context_of ctx.now) (definition_of def.now) (asked_of log.old.demands)) }
    ensures places { IfOk result (λ c. places_of c.completed.value ≡ places_of def.now.right.value) }
{
    if def.recursive {
        check_recursive(alloc, ctx, devices, measures, def, log)
    } else {
        check_plain(alloc, ctx, measures, def, log)
    }
}

// The verdict of what is found: all that was asked is judged under the least filling, and then the signature.
fn judge_found(
    alloc: Global,
    ctx: &Ctx,
    devices: u32,
    def: &CoreDef,
    found: Checking,
    demands: &Demands,
    size: &mut u64,
) -> Result<Checked, CheckError>
    requires fits { Fits (context_of ctx.now) (definition_of def.now) }
    requires holes { HolesAreOfParameters (term_of def.now.right.value) }
    requires keeps { KeepsOf devices (context_of ctx.now) (definition_of def.now) (checking_of found) (asked_of demands.now) }
    ensures verdict { Judges devices (context_of ctx.now) (definition_of def.now) result }
    ensures size { IfOk result (λ c. IsSize size.new (shape_of c.sig.shape.value)) }
    ensures places { IfOk result (λ c. places_of c.filled.value ≡ places_of found.completed.value) }
{
    let holes = hole_count(&def.right)?;
    let filling = solve(alloc, demands, ctx.len(), holes)?;
    let failed = first_failed(alloc, demands, &filling)?;
    decide(
        alloc,
        ctx,
        devices,
        def,
        found,
        filling.as_slice(),
        failed,
        size,
    )
}

// The verdict by what fails first, if anything does.
fn decide(
    alloc: Global,
    ctx: &Ctx,
    devices: u32,
    def: &CoreDef,
    found: Checking,
    sets: &[CapSet],
    failed: Option<Diag>,
    size: &mut u64,
) -> Result<Checked, CheckError>
    requires context { IsWellFormedContext (context_of ctx.now) }
    requires globals { AreGlobals (context_of ctx.now) }
    requires ty { IsWellFormedType (context_of ctx.now) (filled_type (filled_by sets.now) (type_of found.ty)) }
    ensures verdict { MatchOption failed
        (Answers result (signature_verdict (filled_by sets.now) (definition_of def.now) (checking_of found) (signature_under (filled_by sets.now) devices (context_of ctx.now) (checking_of found))))
        (λ diag. Answers result (IsRefused diag.code diag.place)) }
    ensures size { IfOk result (λ c. IsSize size.new (shape_of c.sig.shape.value)) }
    ensures places { IfOk result (λ c. places_of c.filled.value ≡ places_of found.completed.value) }
{
    match failed {
        Some(diag) => Err(CheckError::Refused(diag)),
        None => accept(alloc, ctx, devices, def, found, sets, size),
    }
}

// The type with its holes filled, and what is known of its shape. Where there is nothing to fill them with it is not gone
// over.
fn with_holes_filled(
    alloc: Global,
    ty: Ty,
    known: Option<Measure>,
    sets: &[CapSet],
) -> Result<(Ty, Option<Measure>), AllocError>
    requires { IsMeasuredBy known (shape_of ty.shape.value) }
    ensures is { IfOk result (λ t. type_of t.0 ≡ filled_type (filled_by sets.now) (type_of ty)) }
    ensures measured { IfOk result (λ t. IsMeasuredBy t.1 (shape_of t.0.shape.value)) }
{
    if sets.is_empty() {
        return Ok((ty, known));
    }
    let filled = fill_type(alloc, &ty, sets)?;
    Ok((filled, None))
}

// The verdict where all that was asked is served: the signature decides.
fn accept(
    alloc: Global,
    ctx: &Ctx,
    devices: u32,
    def: &CoreDef,
    found: Checking,
    sets: &[CapSet],
    size: &mut u64,
) -> Result<Checked, CheckError>
    requires context { IsWellFormedContext (context_of ctx.now) }
    requires globals { AreGlobals (context_of ctx.now) }
    requires ty { IsWellFormedType (context_of ctx.now) (filled_type (filled_by sets.now) (type_of found.ty)) }
    ensures verdict { Answers result (signature_verdict (filled_by sets.now) (definition_of def.now) (checking_of found) (signature_under (filled_by sets.now) devices (context_of ctx.now) (checking_of found))) }
    ensures size { IfOk result (λ c. IsSize size.new (shape_of c.sig.shape.value)) }
    ensures places { IfOk result (λ c. places_of c.filled.value ≡ places_of found.completed.value) }
{
    let Checking {
        note,
        completed,
        ty,
        known,
        settled,
    } = found;
    let note = fill_note(alloc, &note, sets)?;
    let filled = fill_term(alloc, &completed, sets)?;
    let (ty, known) = with_holes_filled(alloc, ty, known, sets)?;
    match signature_unless(alloc, ctx, devices, &ty, known, settled)? {
        Some((sig, of_shape)) => {
            *size = of_shape;
            Ok(Checked {
                note,
                filled,
                ty,
                sig,
            })
        }
        None => Err(CheckError::Refused(Diag {
            code: Code::E17,
            place: def.name_at,
        })),
    }
}

// The signature of the type, unless it is settled, with the size of its shape.
fn signature_unless(
    alloc: Global,
    ctx: &Ctx,
    devices: u32,
    ty: &Ty,
    known: Option<Measure>,
    settled: Option<Ty>,
) -> Result<Option<(Ty, u64)>, AllocError>
    requires measured { IsMeasuredBy known (shape_of ty.now.shape.value) }
    requires context { IsWellFormedContext (context_of ctx.now) }
    requires globals { AreGlobals (context_of ctx.now) }
    requires ty { IsWellFormedType (context_of ctx.now) (type_of ty.now) }
    ensures is { IfOk result (λ t. option_map (λ s. type_of s.0) t ≡ settled_or (option_map type_of settled) devices (context_of ctx.now) (type_of ty.now)) }
    ensures size { IfOk result (λ t. IfSome t (λ s. IsSize s.1 (shape_of s.0.shape.value))) }
{
    match settled {
        Some(sig) => {
            let size = shape_size(&sig.shape);
            Ok(Some((sig, size)))
        }
        None => measured_signature(alloc, ctx, devices, ty, known),
    }
}
