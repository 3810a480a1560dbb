//! Explained inference: what inference finds, with the local variables where each thing was asked that is kept; or why it
//! is refused, and where.

ghost use Rattle.std.specs.Prelude.{◌≡◌, length, map, true, IfOk};
ghost use Rattle.cc_core.specs.Places.{spots, places_of};
ghost use Rattle.cc_core.specs.TermViews.{type_of, term_of, context_of};
ghost use Rattle.cc_core.specs.WellFormed.{IsWellFormedContext, IsWellFormedType};
ghost use Rattle.cc_subty.specs.Demands.{asked_of};
ghost use Rattle.cc_known.specs.Measures.{AreMeasuresOf};
ghost use Rattle.cc_known.specs.Parts.{found_of};
ghost use Rattle.cc_type.specs.Rows.{ways};
ghost use Rattle.cc_type.specs.Standing.{StandsIn, StandsWell};
ghost use Rattle.cc_reasons.specs.ExplainedInference.{explained};
ghost use Rattle.cc_reasoning.specs.ExplainedLogs.{explained_log};
ghost use Rattle.cc_reasoning.specs.LocatedLogs.{Meets, after, beside};
ghost use Rattle.cc_causes.specs.Views.{locals_of, scene_of, binder_names_of};

use crate::lasts::{boundary_last, choice_last, function_last, let_last, type_function_last};
use crate::scenes::{body_scene, boundary_scene, function_scene, type_function_scene};
use crate::steps::{bounded, branch_below, leaf, name, test};
use cc_base::place::Place;
use cc_causes::reason::{Binders, Halt, Locals, Scene};
use cc_core::reading::{read_shape, read_type};
use cc_core::{Form, Node};
use cc_known::found::Found;
use cc_known::measures::Measures;
use cc_known::steps::entries;
use cc_type::Log;
use cc_type::bases::pure_type;
use std::alloc::Global;
use std::rc::Rc;

/// Infers the type of a term at a place of the scene, as `cc_infer` does, with the local variables beside what is kept.
/// Where it is refused, the cause and the place are told.
pub fn explain_term(
    alloc: Global,
    scene: &Scene,
    root: u32,
    measures: &Measures,
    node: &Rc<Node>,
    binders: &Binders,
    log: &mut Log,
    known: &mut Vec<Rc<Locals>>,
) -> Result<Found, Halt>
    requires context { IsWellFormedContext (context_of scene.now.ctx) }
    requires measures { AreMeasuresOf measures.now (context_of scene.now.ctx) }
    requires term { StandsIn root (context_of scene.now.ctx) (term_of node.now.value) }
    requires even { length known.old.items ≡ length log.old.demands }
    ensures exact { Meets found_of result (beside (asked_of log.new.demands) (map (λ l. locals_of l.value) known.new.items))
        (after (beside (asked_of log.old.demands) (map (λ l. locals_of l.value) known.old.items))
        (explained ways root (scene_of scene.now) (term_of node.now.value) (places_of node.now.value) (binder_names_of binders.now))) }
    ensures even { IfOk result (λ _. length known.new.items ≡ length log.new.demands) }
    ensures formed { IfOk result (λ f. IsWellFormedType (context_of scene.now.ctx) (type_of f.ty)) }
    ensures places { IfOk result (λ f. places_of f.node.value ≡ places_of node.now.value) }
{
    explain(alloc, scene, root, measures, node, binders, log, known)
}

// The place where the term starts.
fn place_of(node: &Rc<Node>) -> Place
    ensures { result ≡ (spots (places_of node.now.value)).at }
{
    node.at
}

// The same, where the term is known to stand well.
#[cycle(explain)]
fn explain(
    alloc: Global,
    scene: &Scene,
    root: u32,
    measures: &Measures,
    node: &Rc<Node>,
    binders: &Binders,
    log: &mut Log,
    known: &mut Vec<Rc<Locals>>,
) -> Result<Found, Halt>
    requires context { IsWellFormedContext (context_of scene.now.ctx) }
    requires measures { AreMeasuresOf measures.now (context_of scene.now.ctx) }
    requires term { StandsWell root (context_of scene.now.ctx) (term_of node.now.value) }
    requires even { length known.old.items ≡ length log.old.demands }
    ensures exact { Meets found_of result (beside (asked_of log.new.demands) (map (λ l. locals_of l.value) known.new.items))
        (explained_log root (scene_of scene.now) (term_of node.now.value) (places_of node.now.value) (binder_names_of binders.now)
        (beside (asked_of log.old.demands) (map (λ l. locals_of l.value) known.old.items))) }
    ensures even { IfOk result (λ _. length known.new.items ≡ length log.new.demands) }
    ensures formed { IfOk result (λ f. IsWellFormedType (context_of scene.now.ctx) (type_of f.ty)) }
    ensures places { IfOk result (λ f. places_of f.node.value ≡ places_of node.now.value) }
    ensures unchanged { IfOk result (λ f. f.unchanged ≡ true → term_of f.node.value ≡ term_of node.now.value) }
{
    let found = explain_form(alloc, scene, root, measures, node, binders, log, known)?;
    Ok(found)
}

#[cycle(explain)]
fn explain_form(
    alloc: Global,
    scene: &Scene,
    root: u32,
    measures: &Measures,
    node: &Rc<Node>,
    binders: &Binders,
    log: &mut Log,
    known: &mut Vec<Rc<Locals>>,
) -> Result<Found, Halt>
    requires context { IsWellFormedContext (context_of scene.now.ctx) }
    requires measures { AreMeasuresOf measures.now (context_of scene.now.ctx) }
    requires term { StandsWell root (context_of scene.now.ctx) (term_of node.now.value) }
    requires even { length known.old.items ≡ length log.old.demands }
    ensures exact { Meets found_of result (beside (asked_of log.new.demands) (map (λ l. locals_of l.value) known.new.items))
        (explained_log root (scene_of scene.now) (term_of node.now.value) (places_of node.now.value) (binder_names_of binders.now)
        (beside (asked_of log.old.demands) (map (λ l. locals_of l.value) known.old.items))) }
    ensures even { IfOk result (λ _. length known.new.items ≡ length log.new.demands) }
    ensures places { IfOk result (λ f. places_of f.node.value ≡ places_of node.now.value) }
    ensures unchanged { IfOk result (λ f. f.unchanged ≡ true → term_of f.node.value ≡ term_of node.now.value) }
{
    match &node.form {
        Form::Fun(takes, body) => {
            let read = read_type(alloc, takes, entries(&scene.ctx))?;
            let inner = function_scene(alloc, scene, measures, &read, binders, node.at)?;
            let names = binders.first();
            let part = explain(alloc, &inner, root, measures, body, names, log, known)?;
            let found = function_last(alloc, scene, node, takes, read, part)?;
            Ok(found)
        }
        Form::TFun(bound, body) => {
            let read = read_shape(alloc, bound, entries(&scene.ctx))?;
            let inner = type_function_scene(alloc, scene, measures, &read, binders, node.at)?;
            let names = binders.first();
            let part = explain(alloc, &inner, root, measures, body, names, log, known)?;
            let found = type_function_last(alloc, scene, node, bound, read, part)?;
            Ok(found)
        }
        Form::Let(note, right, body) => {
            let first = binders.first();
            let second = binders.second();
            let one = explain(alloc, scene, root, measures, right, first, log, known)?;
            let at = place_of(right);
            let named = name(alloc, scene, root, note, &one.ty, at, log, known)?;
            let inner = body_scene(
                alloc, scene, root, measures, &named.ty, body, binders, node.first,
            )?;
            let two = explain(alloc, &inner, root, measures, body, second, log, known)?;
            let found = let_last(alloc, scene, &inner, node, binders, named, one, two)?;
            Ok(found)
        }
        Form::If(note, variable, positive, negative) => {
            let first = binders.first();
            let second = binders.second();
            test(alloc, scene, node, note, *variable, log, known)?;
            let one = explain(alloc, scene, root, measures, positive, first, log, known)?;
            branch_below(alloc, scene, note, &one.ty, place_of(positive), log, known)?;
            let two = explain(alloc, scene, root, measures, negative, second, log, known)?;
            let found = choice_last(
                alloc,
                root,
                scene,
                node,
                note,
                *variable,
                one,
                two,
                place_of(negative),
                log,
                known,
            )?;
            Ok(found)
        }
        Form::Boundary(gives, body) => {
            let read = read_shape(alloc, gives, entries(&scene.ctx))?;
            let inner = boundary_scene(alloc, scene, measures, &read, binders, node.at)?;
            let names = binders.first();
            let part = explain(alloc, &inner, root, measures, body, names, log, known)?;
            let whole = pure_type(alloc, read);
            bounded(alloc, &inner, &part.ty, &whole, place_of(body), log, known)?;
            let found = boundary_last(alloc, scene, node, gives, whole, part)?;
            Ok(found)
        }
        Form::Var(_)
        | Form::Lit(_)
        | Form::Boxed(_)
        | Form::App(_, _)
        | Form::TApp(_, _)
        | Form::Unbox(_, _)
        | Form::Prim(_, _, _)
        | Form::Repeat(_, _)
        | Form::Operate(_, _, _)
        | Form::Leave(_, _, _) => leaf(alloc, scene, root, measures, node, binders, log, known),
    }
}
