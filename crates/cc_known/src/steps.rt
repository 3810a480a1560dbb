//! The steps of inference that ask nothing.

ghost use Rattle.std.specs.Prelude.{◌≡◌, length, IfOk, option_map};
ghost use Rattle.cc_core.specs.Captured as captured;
ghost use Rattle.cc_core.specs.Contexts.{lookup};
ghost use Rattle.cc_core.specs.Reading.{read_shape};
ghost use Rattle.cc_core.specs.Shapes.{capturing};
ghost use Rattle.cc_core.specs.TermViews.{shape_of, type_of, bind_of, context_of};
ghost use Rattle.cc_core.specs.WellFormed.{IsWellFormedContext, IsWellFormedShape, IsWellFormedType};
ghost use Rattle.cc_checking.specs.Inference as plain;
ghost use Rattle.cc_checking.specs.Outcomes.{finds};
ghost use Rattle.cc_known.specs.Logs.{Answers};
ghost use Rattle.cc_known.specs.Parts.{some_entry};

use crate::stop::{Stop, refused};
use cc_base::code::Code;
use cc_base::literal::Base;
use cc_base::place::Place;
use cc_capture::{CapSet, Elem, Var};
use cc_core::acting::read_variable;
use cc_core::reading::read_shape;
use cc_core::same::same_shape;
use cc_core::{Bind, Ctx, Shape, Ty};
use std::alloc::{AllocError, Global};
use std::rc::Rc;

/// How many entries the context has.
pub fn entries(ctx: &Ctx) -> u32
    ensures { result ≡ length (context_of ctx.now) }
{
    ctx.len()
}

/// What stands in a term at a place of the context, as it stands in the context.
pub fn in_context(ctx: &Ctx, variable: Var) -> Var
    ensures { result ≡ plain.in_context (context_of ctx.now) variable }
{
    read_variable(entries(ctx), 0, variable)
}

/// The set of one variable.
pub fn variable_set(alloc: Global, variable: Var) -> Result<CapSet, AllocError>
    ensures { IfOk result (λ s. s ≡ captured.variable_set variable) }
{
    let mut set = CapSet::new(alloc);
    set.insert(Elem::Var(variable))?;
    Ok(set)
}

// The shape of a variable that the entry declares. It is none where no memory is wanting.
fn entry_shape(alloc: Global, variable: Var, found: Option<&Bind>) -> Result<Rc<Shape>, Stop>
    ensures { Answers (λ s. capturing (shape_of s.value) (captured.variable_set variable)) result (plain.entry_type variable (option_map (λ b. bind_of b.now) found.entry)) }
{
    match found {
        Some(bind) => match bind {
            Bind::Var(declared) => Ok(declared.shape.clone()?),
            Bind::TVar(_) => Err(Stop::NoMemory),
            Bind::Unread { shape, entries, .. } => Ok(read_shape(alloc, shape, *entries)?),
        },
        None => Err(Stop::NoMemory),
    }
}

/// The shape of a variable of the context, whose type has the set of that variable.
#[inline(always)]
pub fn variable_shape(alloc: Global, ctx: &Ctx, variable: Var) -> Result<Rc<Shape>, Stop>
    ensures { Answers (λ s. capturing (shape_of s.value) (captured.variable_set variable)) result (plain.variable_type (context_of ctx.now) variable) }
{
    match variable {
        Var::Free(position) => entry_shape(alloc, variable, ctx.get(position)),
        Var::Bound(_) => Err(Stop::NoMemory),
    }
}

/// The type of a variable of the context.
pub fn variable_type(alloc: Global, ctx: &Ctx, variable: Var) -> Result<Ty, Stop>
    ensures { Answers type_of result (plain.variable_type (context_of ctx.now) variable) }
{
    let shape = variable_shape(alloc, ctx, variable)?;
    let set = variable_set(alloc, variable)?;
    Ok(Ty { shape, set })
}

/// What a function takes and gives, where the shape is one.
pub fn function_head(at: Place, shape: &Shape) -> Result<(&Rc<Ty>, &Rc<Ty>), Stop>
    ensures { Answers (λ f. record { takes = type_of f.0.now.value; gives = type_of f.1.now.value }) result (plain.function_head at (shape_of shape.now)) }
{
    match shape {
        Shape::Fun(takes, gives) => Ok((takes, gives)),
        _ => Err(refused(Code::E13, at)),
    }
}

/// The bound that a type function takes and what it gives, where the shape is one.
pub fn type_function_head(at: Place, shape: &Shape) -> Result<(&Rc<Shape>, &Rc<Ty>), Stop>
    ensures { Answers (λ f. record { bound = shape_of f.0.now.value; gives = type_of f.1.now.value }) result (plain.type_function_head at (shape_of shape.now)) }
{
    match shape {
        Shape::TFun(bound, gives) => Ok((bound, gives)),
        _ => Err(refused(Code::E13, at)),
    }
}

/// The type of what is in a box, where the shape is one.
pub fn box_head(at: Place, shape: &Shape) -> Result<&Rc<Ty>, Stop>
    ensures { Answers (λ t. type_of t.now.value) result (plain.box_head at (shape_of shape.now)) }
{
    match shape {
        Shape::Boxed(content) => Ok(content),
        _ => Err(refused(Code::E13, at)),
    }
}

/// The shape that an exit takes, where the shape is one.
pub fn exit_head(at: Place, shape: &Shape) -> Result<&Rc<Shape>, Stop>
    ensures { Answers (λ s. shape_of s.now.value) result (plain.exit_head at (shape_of shape.now)) }
{
    match shape {
        Shape::Exit(gives) => Ok(gives),
        _ => Err(refused(Code::E13, at)),
    }
}

/// Whether the shape is that of the devices of the base.
pub fn device_head(at: Place, base: Base, shape: &Shape) -> Result<(), Stop>
    ensures { Answers (λ u. u) result (plain.device_head at base (shape_of shape.now)) }
{
    if same_shape(shape, &Shape::Base(base)) {
        Ok(())
    } else {
        Err(refused(Code::E13, at))
    }
}
