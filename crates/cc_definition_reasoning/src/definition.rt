//! Why a definition is refused.

ghost use Rattle.std.specs.Prelude.{◌≡◌, ◌<◌, length, map, IfOk};
ghost use Rattle.cc_core.specs.Actions.{filled_by};
ghost use Rattle.cc_core.specs.Holes.{HolesAreOfParameters};
ghost use Rattle.cc_core.specs.Substitution.{filled_type};
ghost use Rattle.cc_core.specs.TermViews.{type_of, term_of, context_of};
ghost use Rattle.cc_core.specs.WellFormed.{IsWellFormedContext};
ghost use Rattle.cc_checking.specs.Verdicts.{signature_of};
ghost use Rattle.cc_checking_laws.specs.CheckingLaws.{Fits};
ghost use Rattle.cc_subty.specs.Demands.{asked_of};
ghost use Rattle.cc_known.specs.Measures.{AreMeasuresOf};
ghost use Rattle.cc_check.specs.Definitions.{definition_of};
ghost use Rattle.cc_causes.specs.Views.{locals_of, cause_of, binder_names_of};
ghost use Rattle.cc_definition_reasoning.specs.ExplainedDefinitions.{checking_of};
ghost use Rattle.cc_definition_reasoning.specs.Keeping.{IsUnsigned, IsUnsignedType, Keeps};
ghost use Rattle.cc_definition_reasoning.specs.Reasons.{IsAnswered, IsRefusal, IsUnservedAt};

use crate::definitions::Checking;
use crate::failing::{first_failing, place_of, unserved};
use crate::reason::{DefinitionReason, Reasoned};
use crate::recursive::explain_definition;
use crate::unsigned::unsigned_cause;
use cc_causes::reason::{Binders, Cause, Halt, Locals};
use cc_check::holes::hole_count;
use cc_check::signature::signature;
use cc_core::substitution::fill_type;
use cc_core::{CapSet, CoreDef, Ctx, Ty};
use cc_known::Measures;
use cc_solve::{Filling, solve};
use cc_subty::Demands;
use cc_subty::demands::Demand;
use cc_type::Log;
use std::alloc::{AllocError, Global};
use std::rc::Rc;

/// Why the definition is refused in the context of the devices, so many, of what is imported and of the definitions before
/// it, and where; none exactly where it is not refused. The names are those of the binders of its right side.
///
/// Fails only for want of memory.
pub fn definition_reason(
    alloc: Global,
    ctx: &Ctx,
    devices: u32,
    def: &CoreDef,
    binders: &Binders,
) -> Result<Option<Reasoned>, AllocError>
    requires fits { Fits (context_of ctx.now) (definition_of def.now) }
    requires holes { HolesAreOfParameters (term_of def.now.right.value) }
    ensures { IfOk result (IsAnswered devices (context_of ctx.now) (definition_of def.now) (binder_names_of binders.now)) }
{
    let measures = Measures::new(alloc, devices, ctx.len());
    let mut log = Log::new(alloc);
    let mut known = Vec::new(alloc);
    match explain_definition(
        alloc, ctx, devices, &measures, def, binders, &mut log, &mut known,
    ) {
        Ok(found) => reason_of_found(
            alloc,
            ctx,
            devices,
            def,
            binders,
            found,
            log.demands(),
            known.as_slice(),
        ),
        Err(halt) => refusal_of(halt),
    }
}

// Why it is refused where explaining stops so.
fn refusal_of(halt: Halt) -> Result<Option<Reasoned>, AllocError>
    ensures { IsRefusal halt result }
{
    match halt {
        Halt::Refused(cause, at) => {
            let reason = DefinitionReason::OfStep(cause);
            Ok(Some(Reasoned { reason, at }))
        }
        Halt::NoMemory => Err(AllocError),
    }
}

// Why it is refused where this is found for it and this is kept of what is asked, with these local variables.
fn reason_of_found(
    alloc: Global,
    ctx: &Ctx,
    devices: u32,
    def: &CoreDef,
    binders: &Binders,
    found: Checking,
    demands: &Demands,
    known: &[Rc<Locals>],
) -> Result<Option<Reasoned>, AllocError>
    requires fits { Fits (context_of ctx.now) (definition_of def.now) }
    requires holes { HolesAreOfParameters (term_of def.now.right.value) }
    requires keeps { Keeps devices (context_of ctx.now) (definition_of def.now) (binder_names_of binders.now) (checking_of found) (asked_of demands.now) (map (λ l. locals_of l.value) known.now) }
    requires even { length known.now ≡ length demands.now }
    ensures { IfOk result (IsAnswered devices (context_of ctx.now) (definition_of def.now) (binder_names_of binders.now)) }
{
    let holes = hole_count(&def.right)?;
    let filling = solve(alloc, demands, ctx.len(), holes)?;
    let demands = demands.as_slice();
    match first_failing(alloc, demands, &filling)? {
        Some(place) => {
            let reasoned = reason_at(alloc, demands, known, place, filling)?;
            Ok(Some(reasoned))
        }
        None => {
            match unsigned(alloc, ctx, devices, &found, filling.as_slice())? {
                Some(cause) => {
                    let reason = DefinitionReason::OfStep(Rc::new(alloc, cause)?);
                    let at = def.name_at;
                    Ok(Some(Reasoned { reason, at }))
                }
                None => Ok(None),
            }
        }
    }
}

// Why the filling does not serve the one of what is asked that stands at the place, if it does not.
fn reason_at(
    alloc: Global,
    demands: &[Demand],
    known: &[Rc<Locals>],
    place: usize,
    filling: Filling,
) -> Result<Reasoned, AllocError>
    requires asked { place < length demands.now }
    requires known { place < length known.now }
    ensures { IfOk result (IsUnservedAt filling demands.now (map (λ l. locals_of l.value) known.now) place) }
{
    let demand = &demands[place];
    let reason = unserved(alloc, demand, &known[place], filling)?;
    let at = place_of(demand);
    Ok(Reasoned { reason, at })
}

// Why what is found has no signature under the list of sets, if it has none.
fn unsigned(
    alloc: Global,
    ctx: &Ctx,
    devices: u32,
    found: &Checking,
    sets: &[CapSet],
) -> Result<Option<Cause>, AllocError>
    requires context { IsWellFormedContext (context_of ctx.now) }
    ensures { IfOk result (IsUnsigned devices (context_of ctx.now) sets.now (checking_of found.now)) }
{
    match &found.settled {
        Some(_) => Ok(None),
        None => {
            let ty = fill_type(alloc, &found.ty, sets)?;
            unsigned_type(alloc, ctx, devices, &ty)
        }
    }
}

// Why a type has no signature, if it has none.
fn unsigned_type(
    alloc: Global,
    ctx: &Ctx,
    devices: u32,
    ty: &Ty,
) -> Result<Option<Cause>, AllocError>
    requires context { IsWellFormedContext (context_of ctx.now) }
    ensures { IfOk result (IsUnsignedType devices (context_of ctx.now) (type_of ty.now)) }
{
    match signature(alloc, ctx, devices, ty)? {
        Some(_) => Ok(None),
        None => {
            let cause = unsigned_cause(alloc, ctx, devices, ty)?;
            Ok(Some(cause))
        }
    }
}
