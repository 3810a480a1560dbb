//! What shapes and types become where positions are avoided in them, gone over once. At positive places a position's
//! declared set stands for it, at negative ones it is left out, and in a bound or in the shape of an exit none may be
//! free. Parts that stay are shared.

ghost use Rattle.std.specs.Prelude.{◌≡◌, ◌∷◌, Some, IfOk};
ghost use Rattle.std.specs.Option.{option_map, unwrap_or};
ghost use Rattle.cc_core.specs.Shapes.{FunctionShape, TypeFunctionShape, BoxShape, ExitShape, capturing};
ghost use Rattle.cc_core.specs.TermViews.{shape_of, type_of};
ghost use Rattle.cc_checking.specs.Avoidance as plain;
ghost use Rattle.cc_checking.specs.Avoidance.{unless_free};
ghost use Rattle.cc_avoid.specs.AvoidedTogether.{names_any, shape_avoiding, type_avoiding};
ghost use Rattle.cc_avoid.specs.Avoiding.{sign_of, given_shape, given_type, given_function, given_type_function, given_box};
ghost use Rattle.cc_avoid.specs.WaitingShapes.{waiting_of, in_turn, avoiding_set, Descends, TakesTurn};

use crate::positions::Positions;
use crate::sign::{Sign, opposite};
use cc_core::{CapSet, Shape, Ty};
use std::alloc::{AllocError, Global};
use std::rc::Rc;

/// What became of a shape.
#[derive(Drop)]
pub enum AvoidedShape {
    /// It is what it was.
    Kept,
    /// It became this one.
    Changed(Rc<Shape>),
    /// A position is free where it cannot be avoided.
    Unavoidable,
}

/// What became of a type.
#[derive(Drop)]
pub enum AvoidedType {
    /// It is what it was.
    Kept,
    /// It became this one.
    Changed(Rc<Ty>),
    /// A position is free where it cannot be avoided.
    Unavoidable,
}

/// The type in which the positions are avoided, if they can be.
pub fn avoid_all<P: Positions>(
    alloc: Global,
    positions: &P,
    ty: &Ty,
) -> Result<Option<Ty>, AllocError>
    requires { P.can_avoid positions.now }
    ensures { IfOk result (λ t. option_map type_of t ≡ type_avoiding plain.Positive (P.listed positions.now) (type_of ty.now)) }
{
    let shape = avoid_in_shape(alloc, positions, Sign::Positive, &ty.shape)?;
    let set = positions.avoid_in_set(alloc, Sign::Positive, &ty.set)?;
    whole_of(ty, shape, set)
}

/// The type of what became of its parts.
pub fn whole_of(ty: &Ty, shape: AvoidedShape, set: Option<CapSet>) -> Result<Option<Ty>, AllocError>
    ensures { IfOk result (λ t. option_map type_of t
        ≡ option_map (λ s. capturing s (unwrap_or set ty.now.set)) (given_shape (shape_of ty.now.shape.value) shape)) }
{
    match shape {
        AvoidedShape::Kept => Ok(Some(Ty {
            shape: ty.shape.clone()?,
            set: set_or_same(set, &ty.set)?,
        })),
        AvoidedShape::Changed(shape) => Ok(Some(Ty {
            shape,
            set: set_or_same(set, &ty.set)?,
        })),
        AvoidedShape::Unavoidable => Ok(None),
    }
}

/// The set that it became, or else the set itself.
pub fn set_or_same(became: Option<CapSet>, set: &CapSet) -> Result<CapSet, AllocError>
    ensures { IfOk result (λ s. s ≡ unwrap_or became set.now) }
{
    match became {
        Some(became) => Ok(became),
        None => set.clone(),
    }
}

// What waits for what becomes of a shape inside it, each at a place of the sign.
#[derive(Drop)]
enum Waiting<'a> {
    // Functions, for the shape of what they take. What they give is still to be gone over.
    Takes(Sign, &'a Rc<Ty>, &'a Rc<Ty>),
    // Functions, for the shape of what they give. What they take became this.
    Gives(Sign, &'a Rc<Ty>, &'a Rc<Ty>, AvoidedType),
    // Type functions, for the shape of what they give.
    Results(Sign, &'a Rc<Shape>, &'a Rc<Ty>),
    // Boxes, for the shape of their content.
    Contents(Sign, &'a Rc<Ty>),
}

/// What the shape becomes at a place of the sign. What stands round a part waits in a list, so that a deep shape takes no
/// more of the stack than a flat one.
pub fn avoid_in_shape<P: Positions>(
    alloc: Global,
    positions: &P,
    sign: Sign,
    shape: &Shape,
) -> Result<AvoidedShape, AllocError>
    requires { P.can_avoid positions.now }
    ensures { IfOk result (λ a. given_shape (shape_of shape.now) a ≡ shape_avoiding (sign_of sign) (P.listed positions.now) (shape_of shape.now)) }
{
    let mut waiting = Vec::new(alloc);
    let mut became = descend(positions, &mut waiting, sign, shape)?;
    while let Some(next) = waiting.pop() {
        became = take_turn(alloc, positions, &mut waiting, next, became)?;
    }
    Ok(became)
}

// Goes down in the shape to its first part that has none, by what functions take first. What stands round it waits.
// Gives what that part becomes.
fn descend<'a, P: Positions>(
    positions: &P,
    waiting: &mut Vec<Waiting<'a>>,
    sign: Sign,
    shape: &'a Shape,
) -> Result<AvoidedShape, AllocError>
    requires { P.can_avoid positions.now }
    ensures { IfOk result (λ a. Descends (P.listed positions.now) (sign_of sign) (shape_of shape.now) (in_turn waiting.old.items) (in_turn waiting.new.items) a) }
{
    let mut sign = sign;
    let mut inner = shape;
    loop {
        match inner {
            Shape::Base(_) => return Ok(AvoidedShape::Kept),
            Shape::Any => return Ok(AvoidedShape::Kept),
            Shape::TVar(_) => return Ok(AvoidedShape::Kept),
            Shape::Fun(takes, gives) => {
                waiting.push(Waiting::Takes(sign, takes, gives))?;
                sign = opposite(sign);
                inner = &takes.shape;
            }
            Shape::TFun(bound, gives) => {
                waiting.push(Waiting::Results(sign, bound, gives))?;
                inner = &gives.shape;
            }
            Shape::Boxed(content) => {
                waiting.push(Waiting::Contents(sign, content))?;
                inner = &content.shape;
            }
            Shape::Exit(gives) => return exit_of(positions, gives),
        }
    }
}

// Goes on with what waits last, where the shape that it waits for became this. Gives what the next part becomes.
fn take_turn<'a, P: Positions>(
    alloc: Global,
    positions: &P,
    waiting: &mut Vec<Waiting<'a>>,
    next: Waiting<'a>,
    became: AvoidedShape,
) -> Result<AvoidedShape, AllocError>
    requires { P.can_avoid positions.now }
    ensures { IfOk result (λ a. TakesTurn (P.listed positions.now) (waiting_of next.entry ∷ in_turn waiting.old.items) became (in_turn waiting.new.items) a) }
{
    match next {
        Waiting::Takes(sign, takes, gives) => {
            let taken = with_set(alloc, positions, opposite(sign), takes, became)?;
            waiting.push(Waiting::Gives(sign, takes, gives, taken))?;
            descend(positions, waiting, sign, &gives.shape)
        }
        Waiting::Gives(sign, takes, gives, taken) => {
            let given = with_set(alloc, positions, sign, gives, became)?;
            function_of(alloc, takes, gives, taken, given)
        }
        Waiting::Results(sign, bound, gives) => {
            let given = with_set(alloc, positions, sign, gives, became)?;
            type_function_of(alloc, positions, bound, gives, given)
        }
        Waiting::Contents(sign, content) => {
            let inside = with_set(alloc, positions, sign, content, became)?;
            box_of(alloc, content, inside)
        }
    }
}

/// What the type becomes at a place of the sign.
pub fn avoid_in_type<P: Positions>(
    alloc: Global,
    positions: &P,
    sign: Sign,
    ty: &Ty,
) -> Result<AvoidedType, AllocError>
    requires { P.can_avoid positions.now }
    ensures { IfOk result (λ a. given_type (type_of ty.now) a ≡ type_avoiding (sign_of sign) (P.listed positions.now) (type_of ty.now)) }
{
    let shape = avoid_in_shape(alloc, positions, sign, &ty.shape)?;
    with_set(alloc, positions, sign, ty, shape)
}

// What a type becomes at a place of the sign, of what its shape became.
#[inline(always)]
fn with_set<P: Positions>(
    alloc: Global,
    positions: &P,
    sign: Sign,
    ty: &Ty,
    shape: AvoidedShape,
) -> Result<AvoidedType, AllocError>
    requires { P.can_avoid positions.now }
    ensures { IfOk result (λ a. given_type (type_of ty.now) a
        ≡ avoiding_set (sign_of sign) (P.listed positions.now) ty.now.set (given_shape (shape_of ty.now.shape.value) shape)) }
{
    let set = positions.avoid_in_set(alloc, sign, &ty.set)?;
    type_of_parts(alloc, ty, shape, set)
}

/// What a type becomes, of what its parts became.
pub fn type_of_parts(
    alloc: Global,
    ty: &Ty,
    shape: AvoidedShape,
    set: Option<CapSet>,
) -> Result<AvoidedType, AllocError>
    ensures { IfOk result (λ a. given_type (type_of ty.now) a
        ≡ option_map (λ s. capturing s (unwrap_or set ty.now.set)) (given_shape (shape_of ty.now.shape.value) shape)) }
{
    match shape {
        AvoidedShape::Kept => type_with_set(alloc, ty, set),
        AvoidedShape::Changed(shape) => {
            let set = set_or_same(set, &ty.set)?;
            Ok(AvoidedType::Changed(Rc::new(alloc, Ty { shape, set })?))
        }
        AvoidedShape::Unavoidable => Ok(AvoidedType::Unavoidable),
    }
}

// What a type becomes whose shape is kept.
fn type_with_set(alloc: Global, ty: &Ty, set: Option<CapSet>) -> Result<AvoidedType, AllocError>
    ensures { IfOk result (λ a. given_type (type_of ty.now) a
        ≡ Some (capturing (shape_of ty.now.shape.value) (unwrap_or set ty.now.set))) }
{
    match set {
        Some(set) => {
            let shape = ty.shape.clone()?;
            Ok(AvoidedType::Changed(Rc::new(alloc, Ty { shape, set })?))
        }
        None => Ok(AvoidedType::Kept),
    }
}

/// What a function shape becomes, of what its types became.
pub fn function_of(
    alloc: Global,
    takes: &Rc<Ty>,
    gives: &Rc<Ty>,
    taken: AvoidedType,
    given: AvoidedType,
) -> Result<AvoidedShape, AllocError>
    ensures { let t = type_of takes.now.value in let g = type_of gives.now.value in
        IfOk result (λ a. given_shape (FunctionShape t.shape t.set g.shape g.set) a ≡ given_function (given_type t taken) (given_type g given)) }
{
    match taken {
        AvoidedType::Kept => match given {
            AvoidedType::Kept => Ok(AvoidedShape::Kept),
            AvoidedType::Changed(given) => {
                let shape = Shape::Fun(takes.clone()?, given);
                Ok(AvoidedShape::Changed(Rc::new(alloc, shape)?))
            }
            AvoidedType::Unavoidable => Ok(AvoidedShape::Unavoidable),
        },
        AvoidedType::Changed(taken) => match given {
            AvoidedType::Kept => {
                let shape = Shape::Fun(taken, gives.clone()?);
                Ok(AvoidedShape::Changed(Rc::new(alloc, shape)?))
            }
            AvoidedType::Changed(given) => {
                let shape = Shape::Fun(taken, given);
                Ok(AvoidedShape::Changed(Rc::new(alloc, shape)?))
            }
            AvoidedType::Unavoidable => Ok(AvoidedShape::Unavoidable),
        },
        AvoidedType::Unavoidable => Ok(AvoidedShape::Unavoidable),
    }
}

/// What a shape of type functions becomes, of what its result became.
pub fn type_function_of<P: Positions>(
    alloc: Global,
    positions: &P,
    bound: &Rc<Shape>,
    gives: &Rc<Ty>,
    given: AvoidedType,
) -> Result<AvoidedShape, AllocError>
    requires { P.can_avoid positions.now }
    ensures { let b = shape_of bound.now.value in let g = type_of gives.now.value in
        IfOk result (λ a. given_shape (TypeFunctionShape b g.shape g.set) a ≡ given_type_function (names_any (P.listed positions.now) b) b (given_type g given)) }
{
    if positions.are_free(bound)? {
        return Ok(AvoidedShape::Unavoidable);
    }
    match given {
        AvoidedType::Kept => Ok(AvoidedShape::Kept),
        AvoidedType::Changed(given) => {
            let shape = Shape::TFun(bound.clone()?, given);
            Ok(AvoidedShape::Changed(Rc::new(alloc, shape)?))
        }
        AvoidedType::Unavoidable => Ok(AvoidedShape::Unavoidable),
    }
}

/// What a shape of boxes becomes, of what its content became.
pub fn box_of(
    alloc: Global,
    content: &Rc<Ty>,
    inside: AvoidedType,
) -> Result<AvoidedShape, AllocError>
    ensures { let t = type_of content.now.value in
        IfOk result (λ a. given_shape (BoxShape t.shape t.set) a ≡ given_box (given_type t inside)) }
{
    match inside {
        AvoidedType::Kept => Ok(AvoidedShape::Kept),
        AvoidedType::Changed(inside) => Ok(AvoidedShape::Changed(Rc::new(
            alloc,
            Shape::Boxed(inside),
        )?)),
        AvoidedType::Unavoidable => Ok(AvoidedShape::Unavoidable),
    }
}

// What a shape of exits becomes.
fn exit_of<P: Positions>(positions: &P, gives: &Rc<Shape>) -> Result<AvoidedShape, AllocError>
    requires { P.can_avoid positions.now }
    ensures { let e = shape_of gives.now.value in
        IfOk result (λ a. given_shape (ExitShape e) a ≡ unless_free (names_any (P.listed positions.now) e) (Some (ExitShape e))) }
{
    if positions.are_free(gives)? {
        Ok(AvoidedShape::Unavoidable)
    } else {
        Ok(AvoidedShape::Kept)
    }
}
