//! Why a type has no signature.

ghost use Rattle.std.specs.Prelude.{◌≡◌, ◌<◌, ◌≤◌, ◌+◌, length, IfOk, Some, None};
ghost use Rattle.cc_core.specs.TermViews.{type_of, context_of};
ghost use Rattle.cc_core.specs.WellFormed.{IsWellFormedContext};
ghost use Rattle.cc_checking.specs.Verdicts.{signature_of};
ghost use Rattle.cc_reasons.specs.Causes as plain;
ghost use Rattle.cc_reasons.specs.DefinitionReasons as plain_reasons;
ghost use Rattle.cc_causes.specs.Views.{cause_of, scene_of};

use cc_causes::reason::{Cause, Scene, no_locals};
use cc_check::signature::signature;
use cc_core::{Ctx, Ty};
use std::alloc::{AllocError, Global};

/// The scene of the globals, where no binder is around.
pub(crate) fn outermost(alloc: Global, ctx: &Ctx) -> Result<Scene, AllocError>
    ensures is { IfOk result (λ s. scene_of s ≡ plain_reasons.outermost (context_of ctx.now)) }
    ensures context { IfOk result (λ s. context_of s.ctx ≡ context_of ctx.now) }
{
    let ctx = ctx.clone()?;
    let locals = no_locals(alloc)?;
    Ok(Scene { ctx, locals })
}

// That the variable at the position cannot be avoided in the type.
fn unavoidable(alloc: Global, ctx: &Ctx, position: u32, ty: Ty) -> Result<Cause, AllocError>
    ensures { IfOk result (λ c. cause_of c ≡ plain.Unavoidable (plain_reasons.outermost (context_of ctx.now)) position (type_of ty)) }
{
    let scene = outermost(alloc, ctx)?;
    Ok(Cause::Unavoidable {
        scene,
        position,
        ty,
    })
}

/// Why the type has no signature over so many devices, where it has none: of the imports and definitions, the newest that
/// cannot be avoided, and what is left of the type where those behind it are avoided.
///
/// It is found by halves: where a type has a signature over so many positions, it has one over more. Fails only for want
/// of memory.
pub(crate) fn unsigned_cause(
    alloc: Global,
    ctx: &Ctx,
    devices: u32,
    ty: &Ty,
) -> Result<Cause, AllocError>
    requires context { IsWellFormedContext (context_of ctx.now) }
    requires unsigned { signature_of devices (context_of ctx.now) (type_of ty.now) ≡ None }
    ensures { IfOk result (λ c. cause_of c ≡ plain_reasons.unsigned_cause (context_of ctx.now) (type_of ty.now)) }
{
    let mut fails = devices;
    let mut serves = ctx.len();
    let mut left = ty.clone()?;
    while serves - fails > 1 {
        let middle = fails + (serves - fails) / 2;
        match signature(alloc, ctx, middle, ty)? {
            Some(signed) => {
                serves = middle;
                left = signed;
            }
            None => {
                fails = middle;
            }
        }
    }
    let cause = unavoidable(alloc, ctx, fails, left)?;
    Ok(cause)
}
