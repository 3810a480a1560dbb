//! The filled declared sets of a context alone. What is below a set, and how an element leads to an end, goes by these.

ghost use Rattle.std.specs.Prelude.{◌≡◌, IfOk};
ghost use Rattle.cc_core.specs.Contexts.{TermEntry};
ghost use Rattle.cc_core.specs.Shapes.{AnyShape};
ghost use Rattle.cc_core.specs.Substitution.{filled_set};
ghost use Rattle.cc_core.specs.TermViews.{shape_of, bind_of, context_of};
ghost use Rattle.cc_checking.specs.Fillings.{filled_entry, filled_context};
ghost use Rattle.cc_solve.specs.Solutions.{filling_of};
ghost use Rattle.cc_captured_reasons.specs.SetsAlone.{set_alone, sets_alone};

use cc_capture::CapSet;
use cc_core::{Bind, Ctx, Shape, Ty};
use cc_solve::Filling;
use cc_solve::judging::filled;
use std::alloc::{AllocError, Global};
use std::rc::Rc;

// A variable of terms with the filled set, of which no shape is known.
fn declared(
    alloc: Global,
    any: &Rc<Shape>,
    set: &CapSet,
    filling: &Filling,
) -> Result<Bind, AllocError>
    requires { shape_of any.now.value ≡ AnyShape }
    ensures { IfOk result (λ b. bind_of b ≡ TermEntry AnyShape (filled_set (filling_of filling.now) set.now)) }
{
    let set = filled(alloc, set, filling)?;
    let shape = any.clone()?;
    Ok(Bind::Var(Ty { shape, set }))
}

// The entry with its filled declared set alone.
fn with_set_alone(
    alloc: Global,
    any: &Rc<Shape>,
    bind: &Bind,
    filling: &Filling,
) -> Result<Bind, AllocError>
    requires { shape_of any.now.value ≡ AnyShape }
    ensures { IfOk result (λ b. bind_of b ≡ set_alone (filled_entry (filling_of filling.now) (bind_of bind.now))) }
{
    match bind {
        Bind::Var(ty) => declared(alloc, any, &ty.set, filling),
        Bind::TVar(_) => Ok(Bind::TVar(any.clone()?)),
        Bind::Unread { set, .. } => declared(alloc, any, set, filling),
    }
}

/// The context with the filled declared sets of its entries alone. Each set is filled once, and no shape is.
///
/// Fails only for want of memory.
pub(crate) fn filled_sets(alloc: Global, ctx: &Ctx, filling: &Filling) -> Result<Ctx, AllocError>
    ensures { IfOk result (λ c. context_of c ≡ sets_alone (filled_context (filling_of filling.now) (context_of ctx.now))) }
{
    let any = Rc::new(alloc, Shape::Any)?;
    let mut sets = Ctx::new();
    for position in 0..ctx.len() {
        let Some(bind) = ctx.get(position) else {
            unreachable!()
        };
        let entry = with_set_alone(alloc, &any, bind, filling)?;
        let more = sets.push(alloc, entry)?;
        sets = more;
    }
    Ok(sets)
}
