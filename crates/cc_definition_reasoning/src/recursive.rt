//! What is found for a definition, or why a step is refused, whether its own name is visible in its right side or not.

ghost use Rattle.std.specs.Prelude.{◌≡◌, ◌∷◌, [], length, map, IfOk, IsTrue};
ghost use Rattle.cc_base.specs.declared.code.Code.TheVariants as codes;
ghost use Rattle.cc_core.specs.Contexts.{entry_of};
ghost use Rattle.cc_core.specs.TermViews.{type_of, note_of, term_of, context_of};
ghost use Rattle.cc_core.specs.WellFormed.{TermKind, kinds_of, is_well_formed_term, IsWellFormedContext, IsWellFormedNote, IsWellFormedType};
ghost use Rattle.cc_checking.specs.Outcomes.{found_or};
ghost use Rattle.cc_checking.specs.Verdicts.{signature_of};
ghost use Rattle.cc_checking_laws.specs.CheckingLaws.{Fits};
ghost use Rattle.cc_checking_laws.specs.FillingLaws.{AreGlobals};
ghost use Rattle.cc_subty.specs.Demands.{asked_of};
ghost use Rattle.cc_known.specs.Measures.{AreMeasuresOf};
ghost use Rattle.cc_type.specs.Rows.{ways};
ghost use Rattle.cc_check.specs.Definitions.{definition_of};
ghost use Rattle.cc_reasons.specs.Causes.{because};
ghost use Rattle.cc_reasons.specs.DefinitionReasons as plain;
ghost use Rattle.cc_reasoning.specs.LocatedLogs.{Answers, Meets, after, beside};
ghost use Rattle.cc_causes.specs.Views.{locals_of, scene_of, binder_names_of};
ghost use Rattle.cc_definition_reasoning.specs.ExplainedDefinitions.{checking_of, recursive_log, definition_log};

use crate::definitions::{Checking, explain_plain, explain_recursion};
use crate::unsigned::{outermost, unsigned_cause};
use cc_base::place::Place;
use cc_causes::reason::{Binders, Cause, Halt, Locals, Scene};
use cc_check::signature::signature;
use cc_core::{CoreDef, Ctx, Note, Ty};
use cc_known::measures::Measures;
use cc_type::Log;
use cc_type::contexts::with_variable;
use std::alloc::{AllocError, Global};
use std::rc::Rc;

// The type that others see, or why there is none, which is told at the place.
fn signed(alloc: Global, ctx: &Ctx, devices: u32, ty: &Ty, at: Place) -> Result<Ty, Halt>
    requires context { IsWellFormedContext (context_of ctx.now) }
    requires globals { AreGlobals (context_of ctx.now) }
    requires ty { IsWellFormedType (context_of ctx.now) (type_of ty.now) }
    ensures is { Answers type_of result (because (plain.unsigned_cause (context_of ctx.now) (type_of ty.now)) [] (found_or codes.E17 at (signature_of devices (context_of ctx.now) (type_of ty.now)))) }
    ensures formed { IfOk result (λ t. IsWellFormedType (context_of ctx.now) (type_of t)) }
{
    match signature(alloc, ctx, devices, ty)? {
        Some(sig) => Ok(sig),
        None => {
            let cause = unsigned_cause(alloc, ctx, devices, ty)?;
            let cause = Rc::new(alloc, cause)?;
            Err(Halt::Refused(cause, at))
        }
    }
}

// The scene that has a definition's own name with the type.
fn with_own_name(alloc: Global, ctx: &Ctx, sig: &Ty) -> Result<Scene, AllocError>
    requires context { IsWellFormedContext (context_of ctx.now) }
    requires ty { IsWellFormedType (context_of ctx.now) (type_of sig.now) }
    ensures is { IfOk result (λ s. scene_of s ≡ plain.outermost (entry_of (type_of sig.now) ∷ context_of ctx.now)) }
    ensures context { IfOk result (λ s. context_of s.ctx ≡ entry_of (type_of sig.now) ∷ context_of ctx.now) }
    ensures formed { IfOk result (λ s. IsWellFormedContext (context_of s.ctx)) }
{
    let inner = with_variable(alloc, ctx, sig)?;
    let scene = outermost(alloc, &inner)?;
    Ok(scene)
}

// What is found for a right side below its signature.
fn explain_below(
    alloc: Global,
    ctx: &Ctx,
    measures: &Measures,
    sig: Ty,
    def: &CoreDef,
    binders: &Binders,
    log: &mut Log,
    known: &mut Vec<Rc<Locals>>,
) -> Result<Checking, Halt>
    requires context { IsWellFormedContext (context_of ctx.now) }
    requires measures { AreMeasuresOf measures.now (context_of ctx.now) }
    requires ty { IsWellFormedType (context_of ctx.now) (type_of sig) }
    requires right { IsTrue (is_well_formed_term (TermKind ∷ kinds_of (context_of ctx.now)) [] (term_of def.now.right.value)) }
    requires even { length known.old.items ≡ length log.old.demands }
    ensures exact { Meets checking_of result (beside (asked_of log.new.demands) (map (λ l. locals_of l.value) known.new.items))
        (after (beside (asked_of log.old.demands) (map (λ l. locals_of l.value) known.old.items))
        (plain.explained_recursion ways (context_of ctx.now) (definition_of def.now) (binder_names_of binders.now) (type_of sig))) }
    ensures even { IfOk result (λ _. length known.new.items ≡ length log.new.demands) }
{
    let inner = with_own_name(alloc, ctx, &sig)?;
    explain_recursion(alloc, &inner, measures, sig, def, binders, log, known)
}

// What is found for a definition whose own name is visible in its right side.
fn explain_recursive(
    alloc: Global,
    ctx: &Ctx,
    devices: u32,
    measures: &Measures,
    def: &CoreDef,
    binders: &Binders,
    log: &mut Log,
    known: &mut Vec<Rc<Locals>>,
) -> Result<Checking, Halt>
    requires context { IsWellFormedContext (context_of ctx.now) }
    requires measures { AreMeasuresOf measures.now (context_of ctx.now) }
    requires globals { AreGlobals (context_of ctx.now) }
    requires note { IsWellFormedNote (context_of ctx.now) (note_of def.now.note) }
    requires right { IsTrue (is_well_formed_term (TermKind ∷ kinds_of (context_of ctx.now)) [] (term_of def.now.right.value)) }
    requires even { length known.old.items ≡ length log.old.demands }
    ensures exact { Meets checking_of result (beside (asked_of log.new.demands) (map (λ l. locals_of l.value) known.new.items))
        (recursive_log devices (context_of ctx.now) (definition_of def.now) (binder_names_of binders.now) (note_of def.now.note)
        (beside (asked_of log.old.demands) (map (λ l. locals_of l.value) known.old.items))) }
    ensures even { IfOk result (λ _. length known.new.items ≡ length log.new.demands) }
{
    match &def.note {
        Note::Written(written) => {
            let sig = signed(alloc, ctx, devices, written, def.name_at)?;
            explain_below(alloc, ctx, measures, sig, def, binders, log, known)
        }
        Note::Absent => {
            let cause = Rc::new(alloc, Cause::NothingThere)?;
            Err(Halt::Refused(cause, def.name_at))
        }
        Note::Own(_) => {
            let cause = Rc::new(alloc, Cause::NothingThere)?;
            Err(Halt::Refused(cause, def.name_at))
        }
    }
}

// What is found for a definition whose own name is not visible in its right side.
fn explain_outermost(
    alloc: Global,
    ctx: &Ctx,
    measures: &Measures,
    def: &CoreDef,
    binders: &Binders,
    log: &mut Log,
    known: &mut Vec<Rc<Locals>>,
) -> Result<Checking, Halt>
    requires context { IsWellFormedContext (context_of ctx.now) }
    requires measures { AreMeasuresOf measures.now (context_of ctx.now) }
    requires note { IsWellFormedNote (context_of ctx.now) (note_of def.now.note) }
    requires right { IsTrue (is_well_formed_term (kinds_of (context_of ctx.now)) [] (term_of def.now.right.value)) }
    requires even { length known.old.items ≡ length log.old.demands }
    ensures exact { Meets checking_of result (beside (asked_of log.new.demands) (map (λ l. locals_of l.value) known.new.items))
        (after (beside (asked_of log.old.demands) (map (λ l. locals_of l.value) known.old.items))
        (plain.explained_plain ways (context_of ctx.now) (definition_of def.now) (binder_names_of binders.now))) }
    ensures even { IfOk result (λ _. length known.new.items ≡ length log.new.demands) }
{
    let scene = outermost(alloc, ctx)?;
    explain_plain(alloc, &scene, measures, def, binders, log, known)
}

/// What is found for a definition, before any hole is filled, with the local variables where each thing was asked that is
/// kept; or why a step is refused.
pub(crate) fn explain_definition(
    alloc: Global,
    ctx: &Ctx,
    devices: u32,
    measures: &Measures,
    def: &CoreDef,
    binders: &Binders,
    log: &mut Log,
    known: &mut Vec<Rc<Locals>>,
) -> Result<Checking, Halt>
    requires measures { AreMeasuresOf measures.now (context_of ctx.now) }
    requires fits { Fits (context_of ctx.now) (definition_of def.now) }
    requires even { length known.old.items ≡ length log.old.demands }
    ensures exact { Meets checking_of result (beside (asked_of log.new.demands) (map (λ l. locals_of l.value) known.new.items))
        (definition_log devices (context_of ctx.now) (definition_of def.now) (binder_names_of binders.now)
        (beside (asked_of log.old.demands) (map (λ l. locals_of l.value) known.old.items))) }
    ensures even { IfOk result (λ _. length known.new.items ≡ length log.new.demands) }
{
    if def.recursive {
        explain_recursive(alloc, ctx, devices, measures, def, binders, log, known)
    } else {
        explain_outermost(alloc, ctx, measures, def, binders, log, known)
    }
}
