//! Parts of shapes that are compared. Nothing is opened: what stands under a binder is read in the context where it
//! stands.

ghost use Rattle.std.specs.Prelude.{◌≡◌, ◌+◌, ◌∷◌, length, IfOk};
ghost use Rattle.cc_capture.specs.Sets as set;
ghost use Rattle.cc_core.specs.Equality as plain;
ghost use Rattle.cc_core.specs.Contexts.{TypeEntry, entry_of};
ghost use Rattle.cc_core.specs.Reading as reading;
ghost use Rattle.cc_core.specs.Traversal as traversal;
ghost use Rattle.cc_core.specs.TermViews.{shape_of, type_of, context_of};
ghost use Rattle.cc_checking.specs.Comparison.{is_any};
ghost use Rattle.cc_subty.specs.Parts as part;

use cc_capture::{CapSet, Var, same_var};
use cc_core::acting::{self, Action};
use cc_core::reading::{read_set, read_shape};
use cc_core::same::same_shape;
use cc_core::{Bind, Ctx, Shape, Ty};
use std::alloc::{AllocError, Global};
use std::rc::Rc;

// How many entries the context has.
fn entries(ctx: &Ctx) -> u32
    ensures { result ≡ length (context_of ctx.now) }
{
    ctx.len()
}

/// The context under a parameter of the type, which is read in the context. Its shape is shared. It fails only for want
/// of memory, as which a context of more than 2^32 - 1 entries counts.
pub fn under_parameter(alloc: Global, ctx: &Ctx, ty: &Ty) -> Result<Ctx, AllocError>
    ensures { IfOk result (λ c. context_of c ≡ entry_of (reading.read_type (length (context_of ctx.now)) (type_of ty.now)) ∷ context_of ctx.now) }
{
    let shape = ty.shape.clone()?;
    let entries = entries(ctx);
    let set = read_set(alloc, &ty.set, entries)?;
    ctx.push(
        alloc,
        Bind::Unread {
            shape,
            set,
            entries,
        },
    )
}

/// The context under a type variable with the bound, which is read in the context. It fails as `under_parameter` does.
pub fn under_bound(alloc: Global, ctx: &Ctx, bound: &Rc<Shape>) -> Result<Ctx, AllocError>
    ensures { IfOk result (λ c. context_of c ≡ TypeEntry (reading.read_shape (length (context_of ctx.now)) (shape_of bound.now.value)) ∷ context_of ctx.now) }
{
    let bound = read_shape(alloc, bound, entries(ctx))?;
    ctx.push(alloc, Bind::TVar(bound))
}

/// Whether the shape is Any.
pub fn is_any(shape: &Shape) -> bool
    ensures { result ≡ is_any (shape_of shape.now) }
{
    match shape {
        Shape::Any => true,
        _ => false,
    }
}

// Whether the sets are one, read under so many binders.
fn same_read_set(
    alloc: Global,
    left: &CapSet,
    right: &CapSet,
    entries: u32,
    depth: u32,
) -> Result<bool, AllocError>
    ensures { IfOk result (λ b. b ≡ set.same_set (traversal.act_set (reading.reading entries) depth left.now) (traversal.act_set (reading.reading entries) depth right.now)) }
{
    let left = acting::act_set(alloc, &Action::Read(entries), depth, left)?;
    let right = acting::act_set(alloc, &Action::Read(entries), depth, right)?;
    Ok(left == right)
}

// The depth under one binder more.
fn under(depth: u32) -> Result<u32, AllocError>
    ensures { IfOk result (λ d. d ≡ depth + 1) }
{
    depth.checked_add(1).ok_or(AllocError)
}

// Whether the types are one, read under so many binders.
#[cycle(same_read)]
fn same_read_type(
    alloc: Global,
    left: &Ty,
    right: &Ty,
    entries: u32,
    depth: u32,
) -> Result<bool, AllocError>
    ensures { IfOk result (λ b. b ≡ plain.same_type (traversal.act_type (reading.reading entries) depth (type_of left.now)) (traversal.act_type (reading.reading entries) depth (type_of right.now))) }
{
    let shapes = same_read(alloc, &left.shape, &right.shape, entries, depth)?;
    let sets = same_read_set(alloc, &left.set, &right.set, entries, depth)?;
    Ok(shapes && sets)
}

/// Whether the shapes are one, where both are read among so many entries and stand under so many binders. It fails only
/// for want of memory, as which more than 2^32 - 1 binders above one place count.
#[cycle(same_read)]
pub fn same_read(
    alloc: Global,
    left: &Shape,
    right: &Shape,
    entries: u32,
    depth: u32,
) -> Result<bool, AllocError>
    ensures { IfOk result (λ b. b ≡ plain.same_shape (traversal.act (reading.reading entries) depth (shape_of left.now)) (traversal.act (reading.reading entries) depth (shape_of right.now))) }
{
    match left {
        Shape::Base(_) => match right {
            Shape::Base(_) => Ok(same_shape(left, right)),
            _ => Ok(false),
        },
        Shape::Any => Ok(is_any(right)),
        Shape::TVar(variable) => match right {
            Shape::TVar(other) => Ok(same_var(
                acting::read_variable(entries, depth, *variable),
                acting::read_variable(entries, depth, *other),
            )),
            _ => Ok(false),
        },
        Shape::Fun(takes, gives) => match right {
            Shape::Fun(others, other_gives) => {
                let parameters = same_read_type(alloc, takes, others, entries, depth)?;
                let results = same_read_type(alloc, gives, other_gives, entries, under(depth)?)?;
                Ok(parameters && results)
            }
            _ => Ok(false),
        },
        Shape::TFun(bound, gives) => match right {
            Shape::TFun(other, other_gives) => {
                let bounds = same_read(alloc, bound, other, entries, depth)?;
                let results = same_read_type(alloc, gives, other_gives, entries, under(depth)?)?;
                Ok(bounds && results)
            }
            _ => Ok(false),
        },
        Shape::Boxed(content) => match right {
            Shape::Boxed(other) => same_read_type(alloc, content, other, entries, depth),
            _ => Ok(false),
        },
        Shape::Exit(gives) => match right {
            Shape::Exit(other) => same_read(alloc, gives, other, entries, depth),
            _ => Ok(false),
        },
    }
}

/// Whether the shape, read among so many entries, is the type variable.
pub fn is_variable(entries: u32, variable: Var, shape: &Shape) -> bool
    ensures { result ≡ part.is_variable entries variable (shape_of shape.now) }
{
    match shape {
        Shape::TVar(other) => same_var(variable, acting::read_variable(entries, 0, *other)),
        _ => false,
    }
}
