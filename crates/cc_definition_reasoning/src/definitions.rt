//! What is found for a definition, with the local variables where each thing was asked that is kept; or why a step is
//! refused, and where.

ghost use Rattle.std.specs.Prelude.{◌≡◌, ◌∷◌, length, map, Some, IfOk};
ghost use Rattle.cc_core.specs.Contexts.{Context, entry_of};
ghost use Rattle.cc_core.specs.Terms.{Written};
ghost use Rattle.cc_checking.specs.Verdicts.{checking};
ghost use Rattle.cc_core.specs.Places.{spots, places_of};
ghost use Rattle.cc_core.specs.TermViews.{type_of, note_of, term_of, context_of};
ghost use Rattle.cc_core.specs.WellFormed.{IsWellFormedContext, IsWellFormedNote, IsWellFormedTerm, IsWellFormedType};
ghost use Rattle.cc_subty.specs.Demands.{asked_of};
ghost use Rattle.cc_known.specs.Measures.{AreMeasuresOf};
ghost use Rattle.cc_known.specs.Parts.{found_of, named_of};
ghost use Rattle.cc_type.specs.Rows.{ways};
ghost use Rattle.cc_check.specs.Definitions.{definition_of};
ghost use Rattle.cc_reasons.specs.DefinitionReasons.{outermost, explained_plain, explained_recursion};
ghost use Rattle.cc_reasons.specs.ExplainedInference.{explained, explained_note};
ghost use Rattle.cc_definition_reasoning.specs.ExplainedDefinitions.{checking_of, plain_log, recursion_log};
ghost use Rattle.cc_reasoning.specs.LocatedLogs.{Meets, after, beside};
ghost use Rattle.cc_causes.specs.Views.{locals_of, scene_of, binder_names_of};

use cc_base::place::Place;
use cc_causes::reason::{Binders, Halt, Locals, Scene};
use cc_core::{CoreDef, Node, Note, Ty};
use cc_known::found::{Found, Named};
use cc_known::measures::Measures;
use cc_reasoning::explain::explain_term;
use cc_reasoning::steps::{bounded, name};
use cc_type::Log;
use std::alloc::{AllocError, Global};
use std::rc::Rc;

/// What is found for a definition, before any hole is filled.
#[derive(Drop)]
pub struct Checking {
    /// The type that the right side was compared with, if one is written.
    pub note: Note,
    /// The right side with its omitted sets put in.
    pub completed: Rc<Node>,
    /// Its type.
    pub ty: Ty,
    /// The type that others see, where it comes before the right side.
    pub settled: Option<Ty>,
}

// What is found for a term that stands in the scene under no binder.
fn explain_right(
    alloc: Global,
    scene: &Scene,
    measures: &Measures,
    node: &Rc<Node>,
    binders: &Binders,
    log: &mut Log,
    known: &mut Vec<Rc<Locals>>,
) -> Result<Found, Halt>
    requires context { IsWellFormedContext (context_of scene.now.ctx) }
    requires measures { AreMeasuresOf measures.now (context_of scene.now.ctx) }
    requires term { IsWellFormedTerm (context_of scene.now.ctx) (term_of node.now.value) }
    requires even { length known.old.items ≡ length log.old.demands }
    ensures exact { Meets found_of result (beside (asked_of log.new.demands) (map (λ l. locals_of l.value) known.new.items))
        (after (beside (asked_of log.old.demands) (map (λ l. locals_of l.value) known.old.items))
        (explained ways (length (context_of scene.now.ctx)) (scene_of scene.now) (term_of node.now.value) (places_of node.now.value) (binder_names_of binders.now))) }
    ensures even { IfOk result (λ _. length known.new.items ≡ length log.new.demands) }
    ensures formed { IfOk result (λ f. IsWellFormedType (context_of scene.now.ctx) (type_of f.ty)) }
{
    let root = scene.ctx.len();
    explain_term(alloc, scene, root, measures, node, binders, log, known)
}

// The type that was found, where a type may be written for it under no binder.
fn name_right(
    alloc: Global,
    scene: &Scene,
    note: &Note,
    ty: &Ty,
    at: Place,
    log: &mut Log,
    known: &mut Vec<Rc<Locals>>,
) -> Result<Named, Halt>
    requires context { IsWellFormedContext (context_of scene.now.ctx) }
    requires ty { IsWellFormedType (context_of scene.now.ctx) (type_of ty.now) }
    requires note { IsWellFormedNote (context_of scene.now.ctx) (note_of note.now) }
    requires even { length known.old.items ≡ length log.old.demands }
    ensures is { Meets named_of result (beside (asked_of log.new.demands) (map (λ l. locals_of l.value) known.new.items))
        (after (beside (asked_of log.old.demands) (map (λ l. locals_of l.value) known.old.items))
        (explained_note ways (length (context_of scene.now.ctx)) at (scene_of scene.now) (note_of note.now) (type_of ty.now))) }
    ensures even { IfOk result (λ _. length known.new.items ≡ length log.new.demands) }
{
    let root = scene.ctx.len();
    name(alloc, scene, root, note, ty, at, log, known)
}

// Where the term begins.
fn place_of(node: &Node) -> Place
    ensures { result ≡ (spots (places_of node.now)).at }
{
    node.at
}

// The steps of a definition whose own name is not visible in its right side.
fn plain_steps(
    alloc: Global,
    scene: &Scene,
    measures: &Measures,
    def: &CoreDef,
    binders: &Binders,
    log: &mut Log,
    known: &mut Vec<Rc<Locals>>,
) -> Result<Checking, Halt>
    requires context { IsWellFormedContext (context_of scene.now.ctx) }
    requires measures { AreMeasuresOf measures.now (context_of scene.now.ctx) }
    requires note { IsWellFormedNote (context_of scene.now.ctx) (note_of def.now.note) }
    requires right { IsWellFormedTerm (context_of scene.now.ctx) (term_of def.now.right.value) }
    requires even { length known.old.items ≡ length log.old.demands }
    ensures exact { Meets checking_of result (beside (asked_of log.new.demands) (map (λ l. locals_of l.value) known.new.items))
        (plain_log (scene_of scene.now) (definition_of def.now) (binder_names_of binders.now)
        (beside (asked_of log.old.demands) (map (λ l. locals_of l.value) known.old.items))) }
    ensures even { IfOk result (λ _. length known.new.items ≡ length log.new.demands) }
{
    let found = explain_right(alloc, scene, measures, &def.right, binders, log, known)?;
    let named = name_right(
        alloc,
        scene,
        &def.note,
        &found.ty,
        place_of(&def.right),
        log,
        known,
    )?;
    Ok(Checking {
        note: named.note,
        completed: found.node,
        ty: named.ty,
        settled: None,
    })
}

/// What is found for a definition whose own name is not visible in its right side, in the scene of the globals.
pub fn explain_plain(
    alloc: Global,
    scene: &Scene,
    measures: &Measures,
    def: &CoreDef,
    binders: &Binders,
    log: &mut Log,
    known: &mut Vec<Rc<Locals>>,
) -> Result<Checking, Halt>
    requires context { IsWellFormedContext (context_of scene.now.ctx) }
    requires measures { AreMeasuresOf measures.now (context_of scene.now.ctx) }
    requires outermost { scene_of scene.now ≡ outermost (context_of scene.now.ctx) }
    requires note { IsWellFormedNote (context_of scene.now.ctx) (note_of def.now.note) }
    requires right { IsWellFormedTerm (context_of scene.now.ctx) (term_of def.now.right.value) }
    requires even { length known.old.items ≡ length log.old.demands }
    ensures exact { Meets checking_of result (beside (asked_of log.new.demands) (map (λ l. locals_of l.value) known.new.items))
        (after (beside (asked_of log.old.demands) (map (λ l. locals_of l.value) known.old.items))
        (explained_plain ways (context_of scene.now.ctx) (definition_of def.now) (binder_names_of binders.now))) }
    ensures even { IfOk result (λ _. length known.new.items ≡ length log.new.demands) }
{
    plain_steps(alloc, scene, measures, def, binders, log, known)
}

// What is found where the signature is the type.
fn settled(alloc: Global, found: Found, sig: Ty) -> Result<Checking, AllocError>
    ensures { IfOk result (λ c. checking_of c ≡ checking (Written (type_of sig).shape (type_of sig).set) (term_of found.node.value) (type_of sig) (Some (type_of sig))) }
{
    let Found {
        ty: _,
        node,
        captured: _,
        known: _,
        unchanged: _,
    } = found;
    let note = Note::Written(Rc::new(alloc, sig.clone()?)?);
    let ty = sig.clone()?;
    Ok(Checking {
        note,
        completed: node,
        ty,
        settled: Some(sig),
    })
}

/// What is found for a right side below its signature, in the scene that has the definition's own name with the type of
/// the signature.
pub fn explain_recursion(
    alloc: Global,
    inner: &Scene,
    measures: &Measures,
    sig: Ty,
    def: &CoreDef,
    binders: &Binders,
    log: &mut Log,
    known: &mut Vec<Rc<Locals>>,
) -> Result<Checking, Halt>
    requires context { IsWellFormedContext (context_of inner.now.ctx) }
    requires measures { AreMeasuresOf measures.now (context_of inner.now.ctx) }
    requires ty { IsWellFormedType (context_of inner.now.ctx) (type_of sig) }
    requires right { IsWellFormedTerm (context_of inner.now.ctx) (term_of def.now.right.value) }
    requires even { length known.old.items ≡ length log.old.demands }
    ensures exact { (globals : Context) → scene_of inner.now ≡ outermost (entry_of (type_of sig) ∷ globals)
        → Meets checking_of result (beside (asked_of log.new.demands) (map (λ l. locals_of l.value) known.new.items))
        (after (beside (asked_of log.old.demands) (map (λ l. locals_of l.value) known.old.items))
        (explained_recursion ways globals (definition_of def.now) (binder_names_of binders.now) (type_of sig))) }
    ensures even { IfOk result (λ _. length known.new.items ≡ length log.new.demands) }
{
    recursion_steps(alloc, inner, measures, sig, def, binders, log, known)
}

// The same, step by step.
fn recursion_steps(
    alloc: Global,
    inner: &Scene,
    measures: &Measures,
    sig: Ty,
    def: &CoreDef,
    binders: &Binders,
    log: &mut Log,
    known: &mut Vec<Rc<Locals>>,
) -> Result<Checking, Halt>
    requires context { IsWellFormedContext (context_of inner.now.ctx) }
    requires measures { AreMeasuresOf measures.now (context_of inner.now.ctx) }
    requires ty { IsWellFormedType (context_of inner.now.ctx) (type_of sig) }
    requires right { IsWellFormedTerm (context_of inner.now.ctx) (term_of def.now.right.value) }
    requires even { length known.old.items ≡ length log.old.demands }
    ensures exact { Meets checking_of result (beside (asked_of log.new.demands) (map (λ l. locals_of l.value) known.new.items))
        (recursion_log (scene_of inner.now) (definition_of def.now) (binder_names_of binders.now) (type_of sig)
        (beside (asked_of log.old.demands) (map (λ l. locals_of l.value) known.old.items))) }
    ensures even { IfOk result (λ _. length known.new.items ≡ length log.new.demands) }
{
    let found = explain_right(alloc, inner, measures, &def.right, binders, log, known)?;
    bounded(
        alloc,
        inner,
        &found.ty,
        &sig,
        place_of(&def.right),
        log,
        known,
    )?;
    Ok(settled(alloc, found, sig)?)
}
