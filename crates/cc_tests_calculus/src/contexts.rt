// What the tests make their contexts, types and sets with.
ghost use Rattle.std.specs.Prelude.{IfOk};
ghost use Rattle.cc_core.specs.TermViews.{context_of};
ghost use Rattle.cc_core.specs.WellFormed.{IsWellFormedContext};

use cc_core::wellformed::{wf, wf_shape};
use cc_core::{Base, Bind, CapSet, Ctx, Elem, Shape, Ty, Var};
use std::alloc::{AllocError, Global};
use std::rc::Rc;

// The element at the position.
pub fn at(position: u32) -> Elem {
    Elem::Var(Var::Free(position))
}

// The type of the shape and the elements.
pub fn type_of(alloc: Global, shape: Shape, elems: &[Elem]) -> Result<Ty, AllocError> {
    let shape = Rc::new(alloc, shape)?;
    let set = CapSet::from_elems(alloc, elems)?;
    Ok(Ty { shape, set })
}

// Functions of the two types, with a set.
pub fn function_type(
    alloc: Global,
    takes: Ty,
    gives: Ty,
    elems: &[Elem],
) -> Result<Ty, AllocError> {
    let takes = Rc::new(alloc, takes)?;
    let gives = Rc::new(alloc, gives)?;
    type_of(alloc, Shape::Fun(takes, gives), elems)
}

// So many functions, each the result of the one before, from numbers with a set; the results have the other set.
pub fn nested_functions(
    alloc: Global,
    count: u32,
    taken: &[Elem],
    given: &[Elem],
) -> Result<Ty, AllocError> {
    let mut ty = type_of(alloc, Shape::Base(Base::Unit), given)?;
    for _index in 0..count {
        let takes = type_of(alloc, Shape::Base(Base::Int), taken)?;
        ty = function_type(alloc, takes, ty, given)?;
    }
    Ok(ty)
}

// So many functions, each the parameter of the one before, down to one that takes a number. Each part has the set.
pub fn nested_parameters(alloc: Global, count: u32, elems: &[Elem]) -> Result<Ty, AllocError> {
    let mut ty = type_of(alloc, Shape::Base(Base::Int), elems)?;
    for _index in 0..count {
        let gives = type_of(alloc, Shape::Base(Base::Unit), elems)?;
        ty = function_type(alloc, ty, gives, elems)?;
    }
    Ok(ty)
}

// Functions from numbers to unit, with a set.
pub fn printer(alloc: Global, elems: &[Elem]) -> Result<Ty, AllocError> {
    let takes = type_of(alloc, Shape::Base(Base::Int), &[])?;
    let gives = type_of(alloc, Shape::Base(Base::Unit), &[])?;
    function_type(alloc, takes, gives, elems)
}

// The context with a variable of the type more, if that is well formed there.
pub fn declared(alloc: Global, ctx: &Ctx, ty: Ty) -> Result<Ctx, AllocError>
    requires { IsWellFormedContext (context_of ctx.now) }
    ensures { IfOk result (λ c. IsWellFormedContext (context_of c)) }
{
    if wf(alloc, ctx, &ty)? {
        ctx.push(alloc, Bind::Var(ty))
    } else {
        ctx.clone()
    }
}

// The context with a type variable of the bound more, if that is well formed there.
pub fn bounded(alloc: Global, ctx: &Ctx, bound: Shape) -> Result<Ctx, AllocError>
    requires { IsWellFormedContext (context_of ctx.now) }
    ensures { IfOk result (λ c. IsWellFormedContext (context_of c)) }
{
    if wf_shape(alloc, ctx, &bound)? {
        ctx.push(alloc, Bind::TVar(Rc::new(alloc, bound)?))
    } else {
        ctx.clone()
    }
}

// A console, which may be used for anything.
pub fn console(alloc: Global) -> Result<Ctx, AllocError>
    ensures { IfOk result (λ c. IsWellFormedContext (context_of c)) }
{
    let ty = type_of(alloc, Shape::Base(Base::Console), &[Elem::Cap])?;
    declared(alloc, &Ctx::new(), ty)
}
