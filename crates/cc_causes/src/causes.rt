//! Causes, which share what is in them.

ghost use Rattle.std.specs.Prelude.{◌≡◌, IfOk};
ghost use Rattle.cc_core.specs.TermViews.{shape_of, type_of};
ghost use Rattle.cc_reasons.specs.Causes as plain;
ghost use Rattle.cc_causes.specs.Views.{scene_of, head_of, cause_of};

use crate::reason::{Cause, Head, Scene};
use cc_core::{Shape, Ty};
use std::alloc::AllocError;
use std::rc::Rc;

/// At a head stands this, where that is wanted.
pub fn wrong_head(scene: &Scene, found: Rc<Shape>, wanted: Head) -> Result<Cause, AllocError>
    ensures { IfOk result (λ c. cause_of c ≡ plain.WrongHead (scene_of scene.now) (shape_of found.value) (head_of wanted)) }
{
    let scene = scene.clone()?;
    Ok(Cause::WrongHead {
        scene,
        found,
        wanted,
    })
}

/// A type does not match the one that is wanted.
pub fn wrong_type(scene: &Scene, found: Ty, wanted: Ty) -> Result<Cause, AllocError>
    ensures { IfOk result (λ c. cause_of c ≡ plain.WrongType (scene_of scene.now) (type_of found) (type_of wanted)) }
{
    let scene = scene.clone()?;
    Ok(Cause::WrongType {
        scene,
        found,
        wanted,
    })
}

/// A shape does not match the one that is wanted.
pub fn wrong_shape(scene: &Scene, found: Rc<Shape>, wanted: Rc<Shape>) -> Result<Cause, AllocError>
    ensures { IfOk result (λ c. cause_of c ≡ plain.WrongShape (scene_of scene.now) (shape_of found.value) (shape_of wanted.value)) }
{
    let scene = scene.clone()?;
    Ok(Cause::WrongShape {
        scene,
        found,
        wanted,
    })
}

/// The type is too large.
pub fn too_large(scene: &Scene, ty: Ty) -> Result<Cause, AllocError>
    ensures { IfOk result (λ c. cause_of c ≡ plain.TooLarge (scene_of scene.now) (type_of ty)) }
{
    let scene = scene.clone()?;
    Ok(Cause::TooLarge { scene, ty })
}
