//! Contexts with one entry more.

ghost use Rattle.std.specs.Prelude.{◌≡◌, ◌∷◌, IfOk};
ghost use Rattle.cc_core.specs.Contexts.{TypeEntry, entry_of};
ghost use Rattle.cc_core.specs.TermViews.{shape_of, type_of, context_of};
ghost use Rattle.cc_core.specs.WellFormed.{IsWellFormedContext, IsWellFormedShape, IsWellFormedType};
ghost use Rattle.cc_checking.specs.Inference.{exit_entry};

use cc_capture::{CapSet, Elem};
use cc_core::{Bind, Ctx, Shape, Ty};
use std::alloc::{AllocError, Global};
use std::rc::Rc;

/// The context with a variable of the type.
pub fn with_variable(alloc: Global, ctx: &Ctx, ty: &Ty) -> Result<Ctx, AllocError>
    requires context { IsWellFormedContext (context_of ctx.now) }
    requires ty { IsWellFormedType (context_of ctx.now) (type_of ty.now) }
    ensures is { IfOk result (λ c. context_of c ≡ entry_of (type_of ty.now) ∷ context_of ctx.now) }
    ensures formed { IfOk result (λ c. IsWellFormedContext (context_of c)) }
{
    let inner = ctx.push(alloc, Bind::Var(ty.clone()?))?;
    Ok(inner)
}

/// The context with a type variable of the bound.
pub fn with_type_variable(alloc: Global, ctx: &Ctx, bound: &Rc<Shape>) -> Result<Ctx, AllocError>
    requires context { IsWellFormedContext (context_of ctx.now) }
    requires bound { IsWellFormedShape (context_of ctx.now) (shape_of bound.now.value) }
    ensures is { IfOk result (λ c. context_of c ≡ TypeEntry (shape_of bound.now.value) ∷ context_of ctx.now) }
    ensures formed { IfOk result (λ c. IsWellFormedContext (context_of c)) }
{
    let inner = ctx.push(alloc, Bind::TVar(bound.clone()?))?;
    Ok(inner)
}

// The type of the exit of a boundary that gives the shape.
fn exit_type(alloc: Global, gives: &Rc<Shape>) -> Result<Ty, AllocError>
    ensures { IfOk result (λ t. entry_of (type_of t) ≡ exit_entry (shape_of gives.now.value)) }
{
    let shape = Rc::new(alloc, Shape::Exit(gives.clone()?))?;
    let mut set = CapSet::new(alloc);
    set.insert(Elem::Cap)?;
    Ok(Ty { shape, set })
}

/// The context with the exit of a boundary that gives the shape.
pub fn with_exit(alloc: Global, ctx: &Ctx, gives: &Rc<Shape>) -> Result<Ctx, AllocError>
    requires context { IsWellFormedContext (context_of ctx.now) }
    requires gives { IsWellFormedShape (context_of ctx.now) (shape_of gives.now.value) }
    ensures is { IfOk result (λ c. context_of c ≡ exit_entry (shape_of gives.now.value) ∷ context_of ctx.now) }
    ensures formed { IfOk result (λ c. IsWellFormedContext (context_of c)) }
{
    let ty = exit_type(alloc, gives)?;
    let inner = ctx.push(alloc, Bind::Var(ty))?;
    Ok(inner)
}
