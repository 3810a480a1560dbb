//! Definitions whose own name is visible in their right side.

ghost use Rattle.std.specs.Prelude.{◌≡◌, [], ◌∷◌, Some, IsTrue, IfOk};
ghost use Rattle.cc_base.specs.declared.code.Code.TheVariants as codes;
ghost use Rattle.cc_core.specs.Places.{places_of};
ghost use Rattle.cc_core.specs.Terms.{Written};
ghost use Rattle.cc_core.specs.TermViews.{type_of, note_of, term_of, context_of};
ghost use Rattle.cc_core.specs.WellFormed.{TermKind, kinds_of, is_well_formed_term, IsWellFormedContext, IsWellFormedNote, IsWellFormedTerm, IsWellFormedType};
ghost use Rattle.cc_checking_laws.specs.FillingLaws.{AreGlobals};
ghost use Rattle.cc_checking.specs.Outcomes.{found_or};
ghost use Rattle.cc_checking.specs.Verdicts.{checking, signature_of};
ghost use Rattle.cc_subty.specs.Demands.{asked_of};
ghost use Rattle.cc_known.specs.Logs.{Answers, Meets};
ghost use Rattle.cc_known.specs.Measures.{AreMeasuresOf};
ghost use Rattle.cc_check.specs.Definitions.{definition_of, checking_of};
ghost use Rattle.cc_check.specs.Rows.{below_log, recursion_log, recursive_log};

use crate::found::Checking;
use crate::plain::{infer_right, place_of};
use crate::signature::signature;
use cc_base::code::Code;
use cc_base::place::Place;
use cc_core::{CoreDef, Ctx, Note, Ty};
use cc_known::stop::refused;
use cc_known::{Found, Measures, Stop};
use cc_type::Log;
use cc_type::comparing::below;
use cc_type::contexts::with_variable;
use std::alloc::{AllocError, Global};
use std::rc::Rc;

/// What is found for the definition: its signature, which comes from what is written, and then its right side, where
/// its name has the signature's type.
pub(crate) fn check_recursive(
    alloc: Global,
    ctx: &Ctx,
    devices: u32,
    measures: &Measures,
    def: &CoreDef,
    log: &mut Log,
) -> Result<Checking, Stop>
    requires context { IsWellFormedContext (context_of ctx.now) }
    requires measures { AreMeasuresOf measures.now (context_of ctx.now) }
    requires globals { AreGlobals (context_of ctx.now) }
    requires note { IsWellFormedNote (context_of ctx.now) (note_of def.now.note) }
    requires right { IsTrue (is_well_formed_term (TermKind ∷ kinds_of (context_of ctx.now)) [] (term_of def.now.right.value)) }
    ensures exact { Meets checking_of result (asked_of log.new.demands) (recursive_log devices (context_of ctx.now) (definition_of def.now) (note_of def.now.note) (asked_of log.old.demands)) }
    ensures places { IfOk result (λ c. places_of c.completed.value ≡ places_of def.now.right.value) }
{
    match &def.note {
        Note::Written(written) => {
            let sig = signature_at(alloc, ctx, devices, written, def.name_at)?;
            check_below(alloc, ctx, measures, sig, def, log)
        }
        Note::Absent => Err(refused(Code::E14, def.name_at)),
        Note::Own(_) => Err(refused(Code::E14, def.name_at)),
    }
}

// The type that others see. Where there is none, the place is named.
fn signature_at(alloc: Global, ctx: &Ctx, devices: u32, written: &Ty, at: Place) -> Result<Ty, Stop>
    requires context { IsWellFormedContext (context_of ctx.now) }
    requires globals { AreGlobals (context_of ctx.now) }
    requires ty { IsWellFormedType (context_of ctx.now) (type_of written.now) }
    ensures is { Answers type_of result (found_or codes.E17 at (signature_of devices (context_of ctx.now) (type_of written.now))) }
    ensures formed { IfOk result (λ t. IsWellFormedType (context_of ctx.now) (type_of t)) }
{
    match signature(alloc, ctx, devices, written)? {
        Some(sig) => Ok(sig),
        None => Err(refused(Code::E17, at)),
    }
}

// What is found for a right side below its signature.
fn check_below(
    alloc: Global,
    ctx: &Ctx,
    measures: &Measures,
    sig: Ty,
    def: &CoreDef,
    log: &mut Log,
) -> Result<Checking, Stop>
    requires context { IsWellFormedContext (context_of ctx.now) }
    requires measures { AreMeasuresOf measures.now (context_of ctx.now) }
    requires ty { IsWellFormedType (context_of ctx.now) (type_of sig) }
    requires right { IsTrue (is_well_formed_term (TermKind ∷ kinds_of (context_of ctx.now)) [] (term_of def.now.right.value)) }
    ensures exact { Meets checking_of result (asked_of log.new.demands) (recursion_log (context_of ctx.now) (definition_of def.now) (type_of sig) (asked_of log.old.demands)) }
    ensures places { IfOk result (λ c. places_of c.completed.value ≡ places_of def.now.right.value) }
{
    let inner = with_variable(alloc, ctx, &sig)?;
    check_inside(alloc, &inner, measures, sig, def, log)
}

// The same in the context that has the definition's own name.
fn check_inside(
    alloc: Global,
    inner: &Ctx,
    measures: &Measures,
    sig: Ty,
    def: &CoreDef,
    log: &mut Log,
) -> Result<Checking, Stop>
    requires context { IsWellFormedContext (context_of inner.now) }
    requires measures { AreMeasuresOf measures.now (context_of inner.now) }
    requires ty { IsWellFormedType (context_of inner.now) (type_of sig) }
    requires right { IsWellFormedTerm (context_of inner.now) (term_of def.now.right.value) }
    ensures exact { Meets checking_of result (asked_of log.new.demands) (below_log (context_of inner.now) (definition_of def.now) (type_of sig) (asked_of log.old.demands)) }
    ensures places { IfOk result (λ c. places_of c.completed.value ≡ places_of def.now.right.value) }
{
    let found = infer_right(alloc, inner, measures, &def.right, log)?;
    below(alloc, inner, &found.ty, &sig, place_of(&def.right), log)?;
    Ok(settled(alloc, found, sig)?)
}

// What is found where the signature is the type.
fn settled(alloc: Global, found: Found, sig: Ty) -> Result<Checking, AllocError>
    ensures is { IfOk result (λ c. checking_of c ≡ checking (Written (type_of sig).shape (type_of sig).set) (term_of found.node.value) (type_of sig) (Some (type_of sig))) }
    ensures places { IfOk result (λ c. places_of c.completed.value ≡ places_of found.node.value) }
{
    let Found {
        ty: _,
        node,
        captured: _,
        known: _,
        unchanged: _,
    } = found;
    let note = Note::Written(Rc::new(alloc, sig.clone()?)?);
    let ty = sig.clone()?;
    Ok(Checking {
        note,
        completed: node,
        ty,
        known: None,
        settled: Some(sig),
    })
}
