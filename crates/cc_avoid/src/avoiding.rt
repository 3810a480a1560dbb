//! What a type becomes where a variable goes out of scope. At positive places the variable's declared set stands for
//! it, at negative ones it is left out, and where a place may become neither larger nor smaller it is not avoided.

ghost use Rattle.std.specs.Prelude.{◌≡◌, ℕ, false, Some, IfOk};
ghost use Rattle.std.specs.Option.{option_map};
ghost use Rattle.cc_capture.specs.Sets.{Set};
ghost use Rattle.cc_core.specs.Contexts.{TermEntry, lookup};
ghost use Rattle.cc_core.specs.Shapes.{Shape as PlainShape};
ghost use Rattle.cc_core.specs.Subtyping.{SubtypesType};
ghost use Rattle.cc_core.specs.TermViews.{type_of, bind_of, context_of};
ghost use Rattle.cc_core.specs.WellFormed.{IsWellFormedContext, IsWellFormedType};
ghost use Rattle.cc_checking.specs.Avoidance as plain;
ghost use Rattle.cc_checking.specs.Avoidance.{avoided_type, is_free_in_type};
ghost use Rattle.cc_avoid.specs.Avoiding.{IsTermPosition, Avoids};

use crate::positions::One;
use crate::walking::avoid_all;
use cc_core::{Bind, CapSet, Ctx, Ty};
use std::alloc::{AllocError, Global};

/// Why there is no type in which a variable is avoided.
#[derive(Debug, Drop)]
pub enum AvoidError {
    /// There was no memory.
    NoMemory,
    /// The variable is free in a bound or in the shape of an exit.
    Unavoidable,
}

/// The type in which the variable at the position is avoided, by its declared set in the context. The parts in which
/// the variable is not free are shared.
///
/// Fails with `Unavoidable` exactly where the variable is free in a bound or in the shape of an exit, and with
/// `NoMemory` for want of memory.
pub fn avoid(alloc: Global, ctx: &Ctx, position: u32, ty: &Ty) -> Result<Ty, AvoidError>
    requires context { IsWellFormedContext (context_of ctx.now) }
    requires ty { IsWellFormedType (context_of ctx.now) (type_of ty.now) }
    requires position { IsTermPosition (context_of ctx.now) position }
    ensures exact { (shape : PlainShape) (declared : Set)
        → lookup (context_of ctx.now) position ≡ Some (TermEntry shape declared)
        → Avoids position declared (type_of ty.now) result }
    ensures above { IfOk result (λ t. SubtypesType (context_of ctx.now) (type_of ty.now) (type_of t)) }
    ensures gone { IfOk result (λ t. is_free_in_type position (type_of t) ≡ false) }
    ensures same { IfOk result (λ t. is_free_in_type position (type_of ty.now) ≡ false
        → type_of t ≡ type_of ty.now) }
    ensures formed { IfOk result (λ t. IsWellFormedType (context_of ctx.now) (type_of t)) }
{
    match ctx.get(position) {
        Some(bind) => avoid_at(alloc, bind, position, ty),
        None => Err(AvoidError::Unavoidable),
    }
}

// The type in which the variable is avoided whose entry it is.
fn avoid_at(alloc: Global, bind: &Bind, position: u32, ty: &Ty) -> Result<Ty, AvoidError>
    ensures { (shape : PlainShape) (declared : Set) → bind_of bind.now ≡ TermEntry shape declared
        → Avoids position declared (type_of ty.now) result }
{
    match bind {
        Bind::Var(own) => avoid_type(alloc, position, &own.set, ty),
        Bind::TVar(_) => Err(AvoidError::Unavoidable),
        Bind::Unread { set, .. } => avoid_type(alloc, position, set, ty),
    }
}

/// The type in which the variable at the position is avoided, where its declared set is given. The parts in which the
/// variable is not free are shared.
///
/// Fails with `Unavoidable` exactly where the variable is free in a bound or in the shape of an exit, and with
/// `NoMemory` for want of memory.
pub fn avoid_type(
    alloc: Global,
    position: u32,
    declared: &CapSet,
    ty: &Ty,
) -> Result<Ty, AvoidError>
    ensures { Avoids position declared.now (type_of ty.now) result }
{
    match avoid_one(alloc, position, declared, ty) {
        Ok(found) => found.ok_or(AvoidError::Unavoidable),
        Err(_) => Err(AvoidError::NoMemory),
    }
}

// The same, where there is none if the variable is not to be avoided.
fn avoid_one(
    alloc: Global,
    position: u32,
    declared: &CapSet,
    ty: &Ty,
) -> Result<Option<Ty>, AllocError>
    ensures { IfOk result (λ t. option_map type_of t ≡ avoided_type plain.Positive position declared.now (type_of ty.now)) }
{
    let found = avoid_all(alloc, &One { position, declared }, ty)?;
    Ok(found)
}
