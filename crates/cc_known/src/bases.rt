//! The entries by which the comparison of two shapes goes: the oldest ones of a context, up to the newest that the shapes
//! name. Which that is is no one's concern: a wrong number costs time alone.

ghost use Rattle.std.specs.Prelude.{IfOk};
ghost use Rattle.cc_core.specs.TermViews.{context_of};
ghost use Rattle.cc_known.specs.KeptWalks.{StandsOn};

use crate::keys::copy_entry;
use cc_capture::{CapSet, Elem, Var};
use cc_core::{Ctx, Shape, Ty};
use std::alloc::{AllocError, Global};

// The number, or one more than the position of the variable.
fn past_variable(variable: Var, before: u32) -> u32 {
    match variable {
        Var::Free(position) => before.max(position.saturating_add(1)),
        Var::Bound(_) => before,
    }
}

fn past_elem(elem: Elem, before: u32) -> u32 {
    match elem {
        Elem::Var(variable) => past_variable(variable, before),
        Elem::Cap => before,
        Elem::Hole(_) => before,
    }
}

fn past_set(set: &CapSet, before: u32) -> u32 {
    let mut past = before;
    for elem in set.iter() {
        past = past_elem(elem, past);
    }
    past
}

#[cycle(past)]
fn past_type(ty: &Ty, before: u32) -> u32 {
    let past = past_set(&ty.set, before);
    past_shape(&ty.shape, past)
}

#[cycle(past)]
fn past_shape(shape: &Shape, before: u32) -> u32 {
    match shape {
        Shape::Base(_) => before,
        Shape::Any => before,
        Shape::TVar(variable) => past_variable(*variable, before),
        Shape::Fun(takes, gives) => {
            let past = past_type(takes, before);
            past_type(gives, past)
        }
        Shape::TFun(bound, gives) => {
            let past = past_shape(bound, before);
            past_type(gives, past)
        }
        Shape::Boxed(content) => past_type(content, before),
        Shape::Exit(gives) => past_shape(gives, before),
    }
}

/// One more than the greatest position that the two shapes name, or 0 where they name none.
pub fn named_by(left: &Shape, right: &Shape) -> u32 {
    let past = past_shape(left, 0);
    past_shape(right, past)
}

/// The context with so many of its oldest entries alone, or with all where it has no more. It fails only for want of
/// memory.
pub fn oldest(alloc: Global, ctx: &Ctx, count: u32) -> Result<Ctx, AllocError>
    ensures { IfOk result (λ c. StandsOn (context_of c) (context_of ctx.now)) }
{
    let mut first = Ctx::new();
    for position in 0..count {
        match ctx.get(position) {
            Some(bind) => {
                let bind = copy_entry(bind)?;
                let next = first.push(alloc, bind)?;
                first = next;
            }
            None => return Ok(first),
        }
    }
    Ok(first)
}
