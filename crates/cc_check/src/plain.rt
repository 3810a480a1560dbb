//! Definitions whose own name is not visible in their right side.

ghost use Rattle.std.specs.Prelude.{◌≡◌, Some, length, IfOk, IfSome};
ghost use Rattle.cc_core.specs.Places.{places_of, spots};
ghost use Rattle.cc_core.specs.Terms.{Absent};
ghost use Rattle.cc_core.specs.TermViews.{type_of, note_of, term_of, context_of};
ghost use Rattle.cc_core.specs.WellFormed.{IsWellFormedContext, IsWellFormedNote, IsWellFormedTerm, IsWellFormedType};
ghost use Rattle.cc_checking.specs.Inference.{inferred};
ghost use Rattle.cc_subty.specs.Demands.{asked_of};
ghost use Rattle.cc_known.specs.Logs.{Meets, after};
ghost use Rattle.cc_known.specs.Measures.{AreMeasuresOf};
ghost use Rattle.cc_known.specs.Parts.{found_of, named_of};
ghost use Rattle.cc_type.specs.Rows.{ways, noted_log};
ghost use Rattle.cc_check.specs.Definitions.{definition_of, checking_of};
ghost use Rattle.cc_check.specs.Rows.{plain_log};

use crate::found::Checking;
use cc_base::place::Place;
use cc_core::{CoreDef, Ctx, Node, Note, Ty};
use cc_infer::infer_known;
use cc_known::found::Named;
use cc_known::{Found, Measure, Measures, Stop};
use cc_type::Log;
use cc_type::operands::noted;
use std::alloc::Global;
use std::rc::Rc;

/// What is found for a term that stands in the context under no binder.
pub(crate) fn infer_right(
    alloc: Global,
    ctx: &Ctx,
    measures: &Measures,
    node: &Rc<Node>,
    log: &mut Log,
) -> Result<Found, Stop>
    requires context { IsWellFormedContext (context_of ctx.now) }
    requires measures { AreMeasuresOf measures.now (context_of ctx.now) }
    requires term { IsWellFormedTerm (context_of ctx.now) (term_of node.now.value) }
    ensures exact { Meets found_of result (asked_of log.new.demands) (after (asked_of log.old.demands) (inferred ways (length (context_of ctx.now)) (context_of ctx.now) (term_of node.now.value) (places_of node.now.value))) }
    ensures formed { IfOk result (λ f. IsWellFormedType (context_of ctx.now) (type_of f.ty)) }
    ensures places { IfOk result (λ f. places_of f.node.value ≡ places_of node.now.value) }
{
    infer_known(alloc, ctx, ctx.len(), measures, node, log)
}

/// Where the term begins.
pub(crate) fn place_of(node: &Node) -> Place
    ensures { result ≡ (spots (places_of node.now)).at }
{
    node.at
}

// The type that was found, where a type may be written for it under no binder.
fn name_right(
    alloc: Global,
    ctx: &Ctx,
    note: &Note,
    ty: &Ty,
    at: Place,
    log: &mut Log,
) -> Result<Named, Stop>
    requires context { IsWellFormedContext (context_of ctx.now) }
    requires ty { IsWellFormedType (context_of ctx.now) (type_of ty.now) }
    requires note { IsWellFormedNote (context_of ctx.now) (note_of note.now) }
    ensures { Meets named_of result (asked_of log.new.demands) (noted_log (length (context_of ctx.now)) at (context_of ctx.now) (note_of note.now) (type_of ty.now) (asked_of log.old.demands)) }
{
    noted(alloc, ctx, ctx.len(), note, ty, at, log)
}

// What is known of the shape of what is then named: where nothing is written, it is what was found.
fn measure_named(note: &Note, known: Option<Measure>) -> Option<Measure>
    ensures { IfSome result (λ measure. (known ≡ Some measure) × (note_of note.now ≡ Absent)) }
{
    match note {
        Note::Absent => known,
        Note::Written(_) => None,
        Note::Own(_) => None,
    }
}

/// What is found for the definition: its right side, and then what is written for its type.
pub(crate) fn check_plain(
    alloc: Global,
    ctx: &Ctx,
    measures: &Measures,
    def: &CoreDef,
    log: &mut Log,
) -> Result<Checking, Stop>
    requires context { IsWellFormedContext (context_of ctx.now) }
    requires measures { AreMeasuresOf measures.now (context_of ctx.now) }
    requires note { IsWellFormedNote (context_of ctx.now) (note_of def.now.note) }
    requires right { IsWellFormedTerm (context_of ctx.now) (term_of def.now.right.value) }
    ensures exact { Meets checking_of result (asked_of log.new.demands) (plain_log (context_of ctx.now) (definition_of def.now) (asked_of log.old.demands)) }
    ensures places { IfOk result (λ c. places_of c.completed.value ≡ places_of def.now.right.value) }
{
    let found = infer_right(alloc, ctx, measures, &def.right, log)?;
    let named = name_right(alloc, ctx, &def.note, &found.ty, place_of(&def.right), log)?;
    Ok(Checking {
        note: named.note,
        completed: found.node,
        ty: named.ty,
        known: measure_named(&def.note, found.known),
        settled: None,
    })
}
