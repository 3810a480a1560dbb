//! The lines of a cause.

ghost use Rattle.std.specs.Prelude.{map, IfOk};
ghost use Rattle.cc_core.specs.TermViews.{shape_of, type_of, context_of};
ghost use Rattle.cc_labels.specs.LabelledLines.{line_of};
ghost use Rattle.cc_reasons.specs.Causes as plain;
ghost use Rattle.cc_causes.specs.Views.{locals_of, scene_of, head_of, cause_of};
ghost use Rattle.cc_cause_texts.specs.CauseLines.{DoNotMatch, CanBeTold, AreCauseLines, IsLabelling};

use crate::scene_labels::shared_labels;
use crate::single_lines::{
    head_line, name_line, shape_line, size_line, two_lines, type_line, words_line,
};
use crate::within::put_within;
use cc_base::name::Name;
use cc_causes::reason::{Cause, Head, Scene};
use cc_core::{Shape, Ty};
use cc_labels::{Labels, Line};
use std::alloc::{AllocError, Global};
use std::rc::Rc;

// What is told for the positions of a scene.
fn scene_labels(alloc: Global, names: &[Name], scene: &Scene) -> Result<Rc<Labels>, AllocError>
    ensures { IfOk result (λ l. IsLabelling names.now (scene_of scene.now) l.value) }
{
    shared_labels(alloc, names, &scene.locals, &scene.ctx)
}

// At a head stands a shape of another form.
fn wrong_head(
    alloc: Global,
    names: &[Name],
    scene: &Scene,
    found: &Rc<Shape>,
    wanted: Head,
) -> Result<Vec<Line>, AllocError>
    ensures { IfOk result (λ lines. AreCauseLines names.now (plain.WrongHead (scene_of scene.now) (shape_of found.now.value) (head_of wanted)) (map line_of lines.items)) }
{
    let labels = scene_labels(alloc, names, scene)?;
    let first = shape_line(alloc, "found ", &labels, found)?;
    let second = head_line(alloc, wanted, &labels)?;
    two_lines(alloc, first, second)
}

// A type does not match the one that is wanted.
fn wrong_type(
    alloc: Global,
    names: &[Name],
    scene: &Scene,
    found: &Ty,
    wanted: &Ty,
) -> Result<Vec<Line>, AllocError>
    requires { DoNotMatch (context_of scene.now.ctx) (type_of found.now).shape (type_of wanted.now).shape }
    ensures { IfOk result (λ lines. AreCauseLines names.now (plain.WrongType (scene_of scene.now) (type_of found.now) (type_of wanted.now)) (map line_of lines.items)) }
{
    let labels = scene_labels(alloc, names, scene)?;
    let first = type_line(alloc, "found ", &labels, found)?;
    let second = type_line(alloc, "wanted ", &labels, wanted)?;
    let mut lines = two_lines(alloc, first, second)?;
    put_within(alloc, names, scene, &found.shape, &wanted.shape, &mut lines)?;
    Ok(lines)
}

// A shape does not match the one that is wanted.
fn wrong_shape(
    alloc: Global,
    names: &[Name],
    scene: &Scene,
    found: &Rc<Shape>,
    wanted: &Rc<Shape>,
) -> Result<Vec<Line>, AllocError>
    requires { DoNotMatch (context_of scene.now.ctx) (shape_of found.now.value) (shape_of wanted.now.value) }
    ensures { IfOk result (λ lines. AreCauseLines names.now (plain.WrongShape (scene_of scene.now) (shape_of found.now.value) (shape_of wanted.now.value)) (map line_of lines.items)) }
{
    let labels = scene_labels(alloc, names, scene)?;
    let first = shape_line(alloc, "found ", &labels, found)?;
    let second = shape_line(alloc, "wanted ", &labels, wanted)?;
    let mut lines = two_lines(alloc, first, second)?;
    put_within(alloc, names, scene, found, wanted, &mut lines)?;
    Ok(lines)
}

// A variable cannot be avoided in a type.
fn unavoidable(
    alloc: Global,
    names: &[Name],
    scene: &Scene,
    position: u32,
    ty: &Ty,
) -> Result<Vec<Line>, AllocError>
    ensures { IfOk result (λ lines. AreCauseLines names.now (plain.Unavoidable (scene_of scene.now) position (type_of ty.now)) (map line_of lines.items)) }
{
    let labels = scene_labels(alloc, names, scene)?;
    let first = name_line(alloc, &labels, position)?;
    let second = type_line(alloc, "type ", &labels, ty)?;
    two_lines(alloc, first, second)
}

// A type is too large.
fn too_large(alloc: Global, names: &[Name], scene: &Scene, ty: &Ty) -> Result<Vec<Line>, AllocError>
    ensures { IfOk result (λ lines. AreCauseLines names.now (plain.TooLarge (scene_of scene.now) (type_of ty.now)) (map line_of lines.items)) }
{
    let labels = scene_labels(alloc, names, scene)?;
    let first = size_line(alloc, &labels, ty)?;
    let second = words_line(alloc, "limit 4096", &labels)?;
    two_lines(alloc, first, second)
}

/// The lines of a cause, where the first positions have these names: what was found, what was wanted, and where the two do
/// not match. Fails for want of memory alone, as which a size of 2^64 - 1 or more, where sizes are told, counts.
pub fn cause_lines(alloc: Global, names: &[Name], cause: &Cause) -> Result<Vec<Line>, AllocError>
    requires { CanBeTold (cause_of cause.now) }
    ensures { IfOk result (λ lines. AreCauseLines names.now (cause_of cause.now) (map line_of lines.items)) }
{
    match cause {
        Cause::WrongHead {
            scene,
            found,
            wanted,
        } => wrong_head(alloc, names, scene, found, *wanted),
        Cause::WrongType {
            scene,
            found,
            wanted,
        } => wrong_type(alloc, names, scene, found, wanted),
        Cause::WrongShape {
            scene,
            found,
            wanted,
        } => wrong_shape(alloc, names, scene, found, wanted),
        Cause::NothingThere => Ok(Vec::new(alloc)),
        Cause::Unavoidable {
            scene,
            position,
            ty,
        } => unavoidable(alloc, names, scene, *position, ty),
        Cause::TooLarge { scene, ty } => too_large(alloc, names, scene, ty),
    }
}
