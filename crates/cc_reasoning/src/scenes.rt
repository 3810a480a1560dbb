//! Scenes with one entry more.

ghost use Rattle.std.specs.Prelude.{◌≡◌, ◌∷◌, IfOk};
ghost use Rattle.cc_core.specs.Contexts.{TypeEntry, entry_of};
ghost use Rattle.cc_core.specs.Shapes.{CapturingType};
ghost use Rattle.cc_core.specs.TermViews.{shape_of, type_of, term_of, context_of};
ghost use Rattle.cc_core.specs.WellFormed.{IsWellFormedContext, IsWellFormedShape, IsWellFormedType};
ghost use Rattle.cc_checking.specs.Inference.{exit_entry};
ghost use Rattle.cc_known.specs.Measures.{AreMeasuresOf};
ghost use Rattle.cc_type.specs.Standing.{StandsWell};
ghost use Rattle.cc_reasons.specs.Causes.{under};
ghost use Rattle.cc_reasons.specs.ExplainedInference as plain;
ghost use Rattle.cc_causes.specs.Views.{scene_of, binder_names_of};

use cc_base::place::Place;
use cc_causes::reason::{Binders, Scene, bound_at, with_local};
use cc_core::{Ctx, Node, Shape, Ty};
use cc_known::measures::Measures;
use cc_type::contexts::{with_exit, with_type_variable, with_variable};
use std::alloc::{AllocError, Global};
use std::rc::Rc;

// The scene of the context, whose newest entry is that of the binder at the place.
fn scene_with(
    alloc: Global,
    scene: &Scene,
    ctx: Ctx,
    binders: &Binders,
    at: Place,
) -> Result<Scene, AllocError>
    ensures is { IfOk result (λ s. scene_of s ≡ record { context = context_of ctx; locals = plain.bound_at (binder_names_of binders.now) at ∷ (scene_of scene.now).locals }) }
    ensures context { IfOk result (λ s. context_of s.ctx ≡ context_of ctx) }
{
    let local = bound_at(binders, at)?;
    let locals = with_local(alloc, local, &scene.locals)?;
    Ok(Scene { ctx, locals })
}

/// The scene of the body of a function, with a variable of the type. What is known of entries stays known.
pub(crate) fn function_scene(
    alloc: Global,
    scene: &Scene,
    measures: &Measures,
    takes: &Ty,
    binders: &Binders,
    at: Place,
) -> Result<Scene, AllocError>
    requires context { IsWellFormedContext (context_of scene.now.ctx) }
    requires measures { AreMeasuresOf measures.now (context_of scene.now.ctx) }
    requires takes { IsWellFormedType (context_of scene.now.ctx) (type_of takes.now) }
    ensures is { IfOk result (λ s. scene_of s ≡ under (plain.bound_at (binder_names_of binders.now) at) (entry_of (type_of takes.now)) (scene_of scene.now)) }
    ensures context { IfOk result (λ s. context_of s.ctx ≡ entry_of (type_of takes.now) ∷ context_of scene.now.ctx) }
    ensures formed { IfOk result (λ s. IsWellFormedContext (context_of s.ctx)) }
    ensures measures { IfOk result (λ s. AreMeasuresOf measures.now (context_of s.ctx)) }
{
    let ctx = with_variable(alloc, &scene.ctx, takes)?;
    let inner = scene_with(alloc, scene, ctx, binders, at)?;
    Ok(inner)
}

/// The same of a type function, with a type variable of the bound.
pub(crate) fn type_function_scene(
    alloc: Global,
    scene: &Scene,
    measures: &Measures,
    bound: &Rc<Shape>,
    binders: &Binders,
    at: Place,
) -> Result<Scene, AllocError>
    requires context { IsWellFormedContext (context_of scene.now.ctx) }
    requires measures { AreMeasuresOf measures.now (context_of scene.now.ctx) }
    requires bound { IsWellFormedShape (context_of scene.now.ctx) (shape_of bound.now.value) }
    ensures is { IfOk result (λ s. scene_of s ≡ under (plain.bound_at (binder_names_of binders.now) at) (TypeEntry (shape_of bound.now.value)) (scene_of scene.now)) }
    ensures context { IfOk result (λ s. context_of s.ctx ≡ TypeEntry (shape_of bound.now.value) ∷ context_of scene.now.ctx) }
    ensures formed { IfOk result (λ s. IsWellFormedContext (context_of s.ctx)) }
    ensures measures { IfOk result (λ s. AreMeasuresOf measures.now (context_of s.ctx)) }
{
    let ctx = with_type_variable(alloc, &scene.ctx, bound)?;
    let inner = scene_with(alloc, scene, ctx, binders, at)?;
    Ok(inner)
}

/// The same of a boundary, with its exit.
pub(crate) fn boundary_scene(
    alloc: Global,
    scene: &Scene,
    measures: &Measures,
    gives: &Rc<Shape>,
    binders: &Binders,
    at: Place,
) -> Result<Scene, AllocError>
    requires context { IsWellFormedContext (context_of scene.now.ctx) }
    requires measures { AreMeasuresOf measures.now (context_of scene.now.ctx) }
    requires gives { IsWellFormedShape (context_of scene.now.ctx) (shape_of gives.now.value) }
    ensures is { IfOk result (λ s. scene_of s ≡ under (plain.bound_at (binder_names_of binders.now) at) (exit_entry (shape_of gives.now.value)) (scene_of scene.now)) }
    ensures context { IfOk result (λ s. context_of s.ctx ≡ exit_entry (shape_of gives.now.value) ∷ context_of scene.now.ctx) }
    ensures formed { IfOk result (λ s. IsWellFormedContext (context_of s.ctx)) }
    ensures measures { IfOk result (λ s. AreMeasuresOf measures.now (context_of s.ctx)) }
{
    let ctx = with_exit(alloc, &scene.ctx, gives)?;
    let inner = scene_with(alloc, scene, ctx, binders, at)?;
    Ok(inner)
}

/// The scene of the body of a let, with a variable of the type. That the body stands well there is known of it.
pub(crate) fn body_scene(
    alloc: Global,
    scene: &Scene,
    root: u32,
    measures: &Measures,
    ty: &Ty,
    body: &Rc<Node>,
    binders: &Binders,
    at: Place,
) -> Result<Scene, AllocError>
    requires context { IsWellFormedContext (context_of scene.now.ctx) }
    requires measures { AreMeasuresOf measures.now (context_of scene.now.ctx) }
    requires ty { IsWellFormedType (context_of scene.now.ctx) (type_of ty.now) }
    requires body { (named : CapturingType) → IsWellFormedType (context_of scene.now.ctx) named → StandsWell root (entry_of named ∷ context_of scene.now.ctx) (term_of body.now.value) }
    ensures is { IfOk result (λ s. scene_of s ≡ under (plain.bound_at (binder_names_of binders.now) at) (entry_of (type_of ty.now)) (scene_of scene.now)) }
    ensures context { IfOk result (λ s. context_of s.ctx ≡ entry_of (type_of ty.now) ∷ context_of scene.now.ctx) }
    ensures formed { IfOk result (λ s. IsWellFormedContext (context_of s.ctx)) }
    ensures measures { IfOk result (λ s. AreMeasuresOf measures.now (context_of s.ctx)) }
    ensures stands { IfOk result (λ s. StandsWell root (context_of s.ctx) (term_of body.now.value)) }
{
    let inner = function_scene(alloc, scene, measures, ty, binders, at)?;
    Ok(inner)
}
