//! One way through shapes: opening, closing, substitution, renaming, filling, reading and writing are its instances.
//! Terms go the same way (`acting_terms`). Each call fails only for want of memory, as which an index or binders above
//! one place beyond 2^32 - 1 count.

ghost use Rattle.std.specs.Prelude.{◌≡◌, ℕ, ◌+◌, ◌∷◌, IfOk, OnOk, IsTrue};
ghost use Rattle.std.specs.Option.{unwrap_or};
ghost use Rattle.cc_capture.specs.declared.var.Elem.TheVariants.{Hole};
ghost use Rattle.cc_capture.specs.Sets.{union};
ghost use Rattle.cc_core.specs.Traversal as plain;
ghost use Rattle.cc_core.specs.Changes.{became_shape, became_type};
ghost use Rattle.cc_core.specs.Shapes.{TypeVariable, FunctionShape, TypeFunctionShape, BoxShape, ExitShape, capturing};
ghost use Rattle.cc_core.specs.Substitution.{single, put_variable, renamed_variable, closed_variable};
ghost use Rattle.cc_core.specs.Reading.{read_variable, written_variable};
ghost use Rattle.cc_core.specs.Actions.{action_of, renamed_by};
ghost use Rattle.cc_core.specs.ActingShapes.{waiting_of, in_turn, Descends, TakesTurn};
ghost use Rattle.cc_core.specs.TermViews.{shape_of, type_of};

use crate::types::{Shape, Ty};
use cc_capture::{CapSet, Elem, Var, same_var};
use std::alloc::{AllocError, Global};
use std::rc::Rc;

/// What is done to the variables and the holes of shapes and terms.
#[derive(Drop)]
pub enum Action<'a> {
    /// The index that counts the binders above becomes the variable.
    Put(Var),
    /// The index that counts the binders above becomes the shape, at type variables alone.
    PutShape(&'a Rc<Shape>),
    /// A free position becomes the one that the list has for it. A position past the list stays.
    Rename(&'a [u32]),
    /// The free position becomes the index that counts the binders above.
    Close(u32),
    /// A hole becomes the set that the list has for it. A hole past the list stays.
    Fill(&'a [CapSet]),
    /// An index that counts more than the binders above becomes the position of the entry that many from the newest,
    /// where there are so many entries.
    Read(u32),
    /// A position from the first number on becomes the index of its binder, where there are as many entries as the
    /// second says.
    Write(u32, u32),
}

fn put_variable(by: Var, depth: u32, variable: Var) -> Var
    ensures { result ≡ put_variable by depth variable }
{
    match variable {
        Var::Bound(index) => { if index == depth { by } else { variable } }
        Var::Free(_) => variable,
    }
}

fn rename_variable(to: &[u32], variable: Var) -> Var
    ensures { result ≡ renamed_variable (renamed_by to.now) variable }
{
    match variable {
        Var::Bound(_) => variable,
        Var::Free(position) => match to.get(position as usize) {
            Some(renamed) => Var::Free(*renamed),
            None => variable,
        },
    }
}

fn close_variable(at: u32, depth: u32, variable: Var) -> Var
    ensures { result ≡ closed_variable at depth variable }
{
    match variable {
        Var::Bound(_) => variable,
        Var::Free(position) => {
            if position == at {
                Var::Bound(depth)
            } else {
                variable
            }
        }
    }
}

/// The variable of a part that stands under so many binders, where the context has so many entries: an index that
/// counts a binder outside of the part becomes the position of its entry.
pub fn read_variable(entries: u32, depth: u32, variable: Var) -> Var
    ensures { result ≡ read_variable entries depth variable }
{
    match variable {
        Var::Bound(index) => {
            if depth <= index && index - depth < entries {
                Var::Free(entries - 1 - (index - depth))
            } else {
                variable
            }
        }
        Var::Free(_) => variable,
    }
}

/// The other way: a position from the root on becomes the index of its binder. Fails where that index is beyond 2^32
/// - 1.
pub fn write_variable(root: u32, entries: u32, depth: u32, variable: Var) -> Result<Var, AllocError>
    ensures { IfOk result (λ v. v ≡ written_variable root entries depth variable) }
{
    match variable {
        Var::Bound(_) => Ok(variable),
        Var::Free(position) => {
            if root <= position && position < entries {
                let index = depth.checked_add(entries - 1 - position).ok_or(AllocError)?;
                Ok(Var::Bound(index))
            } else {
                Ok(variable)
            }
        }
    }
}

pub(crate) fn act_variable(action: &Action, depth: u32, variable: Var) -> Result<Var, AllocError>
    ensures { IfOk result (λ v. v ≡ (action_of action.now).variable depth variable) }
{
    match action {
        Action::Put(by) => Ok(put_variable(*by, depth, variable)),
        Action::PutShape(_) => Ok(variable),
        Action::Rename(to) => Ok(rename_variable(to, variable)),
        Action::Close(position) => Ok(close_variable(*position, depth, variable)),
        Action::Fill(_) => Ok(variable),
        Action::Read(entries) => Ok(read_variable(*entries, depth, variable)),
        Action::Write(root, entries) => write_variable(*root, *entries, depth, variable),
    }
}

// Puts what becomes of a hole into the set.
fn add_filled(
    alloc: Global,
    action: &Action,
    depth: u32,
    hole: u32,
    acted: &mut CapSet,
) -> Result<(), AllocError>
    ensures { OnOk result (acted.new ≡ union ((action_of action.now).element depth (Hole hole)) acted.old) }
{
    if let Action::Fill(sets) = action {
        if let Some(filling) = sets.get(hole as usize) {
            *acted = filling.union(alloc, acted)?;
            return Ok(());
        }
    }
    acted.insert(Elem::Hole(hole))
}

// Puts what becomes of the element into the set.
fn add_acted(
    alloc: Global,
    action: &Action,
    depth: u32,
    elem: Elem,
    acted: &mut CapSet,
) -> Result<(), AllocError>
    ensures { OnOk result (acted.new ≡ union ((action_of action.now).element depth elem) acted.old) }
{
    match elem {
        Elem::Var(variable) => acted.insert(Elem::Var(act_variable(action, depth, variable)?)),
        Elem::Cap => acted.insert(elem),
        Elem::Hole(hole) => add_filled(alloc, action, depth, hole, acted),
    }
}

/// The set of what becomes of the elements, where it stands under so many binders.
pub fn act_set(
    alloc: Global,
    action: &Action,
    depth: u32,
    set: &CapSet,
) -> Result<CapSet, AllocError>
    ensures { IfOk result (λ s. s ≡ plain.act_set (action_of action.now) depth set.now) }
{
    let mut acted = CapSet::new(alloc);
    for elem in set.iter() {
        add_acted(alloc, action, depth, elem, &mut acted)?;
    }
    Ok(acted)
}

// Whether the action leaves the variable as it is.
fn variable_stays(action: &Action, depth: u32, variable: Var) -> bool
    ensures { IsTrue result → (action_of action.now).variable depth variable ≡ variable }
{
    match act_variable(action, depth, variable) {
        Ok(acted) => same_var(acted, variable),
        Err(_) => false,
    }
}

// Whether the action leaves holes as they are.
fn holes_stay(action: &Action) -> bool
    ensures { IsTrue result → (depth : ℕ) → (hole : ℕ) → (action_of action.now).element depth (Hole hole) ≡ single (Hole hole) }
{
    match action {
        Action::Fill(_) => false,
        _ => true,
    }
}

// Whether the action leaves the element as it is.
fn stays(action: &Action, depth: u32, elem: Elem) -> bool
    ensures { IsTrue result → (action_of action.now).element depth elem ≡ single elem }
{
    match elem {
        Elem::Var(variable) => variable_stays(action, depth, variable),
        Elem::Cap => true,
        Elem::Hole(_) => holes_stay(action),
    }
}

// Whether the action leaves all elements as they are.
fn all_stay(action: &Action, depth: u32, set: &CapSet) -> bool
    ensures { IsTrue result → plain.act_set (action_of action.now) depth set.now ≡ set.now }
{
    for elem in set.iter() {
        if !stays(action, depth, elem) {
            return false;
        }
    }
    true
}

/// What the set becomes as `act_set` says, if it is another one. Nothing is built where it is not.
pub fn acted_set(
    alloc: Global,
    action: &Action,
    depth: u32,
    set: &CapSet,
) -> Result<Option<CapSet>, AllocError>
    ensures { IfOk result (λ s. unwrap_or s set.now ≡ plain.act_set (action_of action.now) depth set.now) }
{
    if all_stay(action, depth, set) {
        return Ok(None);
    }
    Ok(Some(act_set(alloc, action, depth, set)?))
}

// The set that it became, or else the set itself.
fn set_or_same(became: Option<CapSet>, set: &CapSet) -> Result<CapSet, AllocError>
    ensures { IfOk result (λ s. s ≡ unwrap_or became set.now) }
{
    match became {
        Some(became) => Ok(became),
        None => set.clone(),
    }
}

// What became of a shape.
#[derive(Drop)]
enum ActedShape {
    Kept,
    Changed(Rc<Shape>),
}

// What became of a type.
#[derive(Drop)]
enum ActedType {
    Kept,
    Changed(Rc<Ty>),
}

// The shape that it became, or else the shape itself, shared.
fn shape_or_same(became: ActedShape, shape: &Rc<Shape>) -> Result<Rc<Shape>, AllocError>
    ensures { IfOk result (λ s. shape_of s.value ≡ became_shape (shape_of shape.now.value) became) }
{
    match became {
        ActedShape::Kept => shape.clone(),
        ActedShape::Changed(shape) => Ok(shape),
    }
}

// The type that it became, or else the type itself, shared.
fn type_or_same(became: ActedType, ty: &Rc<Ty>) -> Result<Rc<Ty>, AllocError>
    ensures { IfOk result (λ t. type_of t.value ≡ became_type (type_of ty.now.value) became) }
{
    match became {
        ActedType::Kept => ty.clone(),
        ActedType::Changed(ty) => Ok(ty),
    }
}

// The depth under one binder more.
pub(crate) fn under(depth: u32) -> Result<u32, AllocError>
    ensures { IfOk result (λ d. d ≡ depth + 1) }
{
    depth.checked_add(1).ok_or(AllocError)
}

// What a type variable becomes.
fn acted_type_variable(
    alloc: Global,
    action: &Action,
    depth: u32,
    variable: Var,
) -> Result<ActedShape, AllocError>
    ensures { IfOk result (λ a. became_shape (TypeVariable variable) a ≡ (action_of action.now).shape depth variable) }
{
    if let Action::PutShape(by) = action {
        if let Var::Bound(index) = variable {
            if index == depth {
                return Ok(ActedShape::Changed((**by).clone()?));
            }
        }
    }
    let acted = act_variable(action, depth, variable)?;
    variable_of(alloc, variable, acted)
}

// What a shape becomes that is a type variable, of what the variable became.
fn variable_of(alloc: Global, variable: Var, acted: Var) -> Result<ActedShape, AllocError>
    ensures { IfOk result (λ a. became_shape (TypeVariable variable) a ≡ TypeVariable acted) }
{
    if same_var(acted, variable) {
        return Ok(ActedShape::Kept);
    }
    Ok(ActedShape::Changed(Rc::new(alloc, Shape::TVar(acted))?))
}

// What a type becomes, of what its parts became.
fn type_of_parts(
    alloc: Global,
    ty: &Ty,
    shape: ActedShape,
    set: Option<CapSet>,
) -> Result<ActedType, AllocError>
    ensures { IfOk result (λ a. became_type (type_of ty.now) a
        ≡ capturing (became_shape (shape_of ty.now.shape.value) shape) (unwrap_or set ty.now.set)) }
{
    match shape {
        ActedShape::Kept => type_with_set(alloc, ty, set),
        ActedShape::Changed(shape) => {
            let set = set_or_same(set, &ty.set)?;
            Ok(ActedType::Changed(Rc::new(alloc, Ty { shape, set })?))
        }
    }
}

// What a type becomes whose shape is kept.
fn type_with_set(alloc: Global, ty: &Ty, set: Option<CapSet>) -> Result<ActedType, AllocError>
    ensures { IfOk result (λ a. became_type (type_of ty.now) a
        ≡ capturing (shape_of ty.now.shape.value) (unwrap_or set ty.now.set)) }
{
    match set {
        Some(set) => {
            let shape = ty.shape.clone()?;
            Ok(ActedType::Changed(Rc::new(alloc, Ty { shape, set })?))
        }
        None => Ok(ActedType::Kept),
    }
}

// What a function shape becomes, of what its types became.
fn function_of(
    alloc: Global,
    takes: &Rc<Ty>,
    gives: &Rc<Ty>,
    taken: ActedType,
    given: ActedType,
) -> Result<ActedShape, AllocError>
    ensures { let t = type_of takes.now.value in let g = type_of gives.now.value in
        let t' = became_type t taken in let g' = became_type g given in
        IfOk result (λ a. became_shape (FunctionShape t.shape t.set g.shape g.set) a ≡ FunctionShape t'.shape t'.set g'.shape g'.set) }
{
    match taken {
        ActedType::Kept => match given {
            ActedType::Kept => Ok(ActedShape::Kept),
            ActedType::Changed(given) => {
                let shape = Shape::Fun(takes.clone()?, given);
                Ok(ActedShape::Changed(Rc::new(alloc, shape)?))
            }
        },
        ActedType::Changed(taken) => {
            let given = type_or_same(given, gives)?;
            Ok(ActedShape::Changed(Rc::new(alloc, Shape::Fun(taken, given))?))
        }
    }
}

// What a shape of type functions becomes, of what its bound and its result became.
fn type_function_of(
    alloc: Global,
    bound: &Rc<Shape>,
    gives: &Rc<Ty>,
    limit: ActedShape,
    given: ActedType,
) -> Result<ActedShape, AllocError>
    ensures { let b = shape_of bound.now.value in let g = type_of gives.now.value in
        let b' = became_shape b limit in let g' = became_type g given in
        IfOk result (λ a. became_shape (TypeFunctionShape b g.shape g.set) a ≡ TypeFunctionShape b' g'.shape g'.set) }
{
    match limit {
        ActedShape::Kept => match given {
            ActedType::Kept => Ok(ActedShape::Kept),
            ActedType::Changed(given) => {
                let shape = Shape::TFun(bound.clone()?, given);
                Ok(ActedShape::Changed(Rc::new(alloc, shape)?))
            }
        },
        ActedShape::Changed(limit) => {
            let given = type_or_same(given, gives)?;
            Ok(ActedShape::Changed(Rc::new(alloc, Shape::TFun(limit, given))?))
        }
    }
}

// What a shape of boxes becomes, of what its content became.
fn box_of(alloc: Global, content: &Rc<Ty>, inside: ActedType) -> Result<ActedShape, AllocError>
    ensures { let t = type_of content.now.value in let t' = became_type t inside in
        IfOk result (λ a. became_shape (BoxShape t.shape t.set) a ≡ BoxShape t'.shape t'.set) }
{
    match inside {
        ActedType::Kept => Ok(ActedShape::Kept),
        ActedType::Changed(inside) => {
            let shape = Shape::Boxed(inside);
            Ok(ActedShape::Changed(Rc::new(alloc, shape)?))
        }
    }
}

// What a shape of exits becomes, of what the shape of their values became.
fn exit_of(alloc: Global, gives: &Rc<Shape>, given: ActedShape) -> Result<ActedShape, AllocError>
    ensures { let g = shape_of gives.now.value in
        IfOk result (λ a. became_shape (ExitShape g) a ≡ ExitShape (became_shape g given)) }
{
    match given {
        ActedShape::Kept => Ok(ActedShape::Kept),
        ActedShape::Changed(given) => {
            let shape = Shape::Exit(given);
            Ok(ActedShape::Changed(Rc::new(alloc, shape)?))
        }
    }
}

// What waits for what becomes of a shape inside it. All but exits have how many binders stand above that shape.
#[derive(Drop)]
enum Waiting<'a> {
    // Functions, for the shape of what they take. What they give is still to be gone over.
    Takes(u32, &'a Rc<Ty>, &'a Rc<Ty>),
    // Functions, for the shape of what they give. What they take became this.
    Gives(u32, &'a Rc<Ty>, &'a Rc<Ty>, ActedType),
    // Type functions, for their bound. What they give is still to be gone over.
    Bounds(u32, &'a Rc<Shape>, &'a Rc<Ty>),
    // Type functions, for the shape of what they give. Their bound became this.
    Results(u32, &'a Rc<Shape>, &'a Rc<Ty>, ActedShape),
    // Boxes, for the shape of their content.
    Contents(u32, &'a Rc<Ty>),
    // Exits, for the shape of their values.
    Exits(&'a Rc<Shape>),
}

// What the shape becomes. What stands round a part waits in a list, so that a deep shape takes no more of the stack
// than a flat one.
fn acted_shape(
    alloc: Global,
    action: &Action,
    depth: u32,
    shape: &Shape,
) -> Result<ActedShape, AllocError>
    ensures { IfOk result (λ a. became_shape (shape_of shape.now) a ≡ plain.act (action_of action.now) depth (shape_of shape.now)) }
{
    let mut waiting = Vec::new(alloc);
    let mut became = descend(alloc, action, &mut waiting, depth, shape)?;
    while let Some(next) = waiting.pop() {
        became = take_turn(alloc, action, &mut waiting, next, became)?;
    }
    Ok(became)
}

// Goes down in the shape to its first part that has none, by what functions take and by the bounds of type functions
// first. What stands round it waits. Gives what that part becomes.
fn descend<'a>(
    alloc: Global,
    action: &Action,
    waiting: &mut Vec<Waiting<'a>>,
    depth: u32,
    shape: &'a Shape,
) -> Result<ActedShape, AllocError>
    ensures { IfOk result (λ a. Descends (action_of action.now) depth (shape_of shape.now) (in_turn waiting.old.items) (in_turn waiting.new.items) a) }
{
    let mut inner = shape;
    loop {
        match inner {
            Shape::Base(_) => return Ok(ActedShape::Kept),
            Shape::Any => return Ok(ActedShape::Kept),
            Shape::TVar(variable) => return acted_type_variable(alloc, action, depth, *variable),
            Shape::Fun(takes, gives) => {
                waiting.push(Waiting::Takes(depth, takes, gives))?;
                inner = &takes.shape;
            }
            Shape::TFun(bound, gives) => {
                waiting.push(Waiting::Bounds(depth, bound, gives))?;
                inner = bound;
            }
            Shape::Boxed(content) => {
                waiting.push(Waiting::Contents(depth, content))?;
                inner = &content.shape;
            }
            Shape::Exit(gives) => {
                waiting.push(Waiting::Exits(gives))?;
                inner = gives;
            }
        }
    }
}

// Goes on with what waits last, where the shape that it waits for became this. Gives what the next part becomes.
fn take_turn<'a>(
    alloc: Global,
    action: &Action,
    waiting: &mut Vec<Waiting<'a>>,
    next: Waiting<'a>,
    became: ActedShape,
) -> Result<ActedShape, AllocError>
    ensures { IfOk result (λ a. TakesTurn (action_of action.now) (waiting_of next.entry ∷ in_turn waiting.old.items) became (in_turn waiting.new.items) a) }
{
    match next {
        Waiting::Takes(depth, takes, gives) => {
            let taken = with_set(alloc, action, depth, takes, became)?;
            let below = under(depth)?;
            waiting.push(Waiting::Gives(below, takes, gives, taken))?;
            descend(alloc, action, waiting, below, &gives.shape)
        }
        Waiting::Gives(depth, takes, gives, taken) => {
            let given = with_set(alloc, action, depth, gives, became)?;
            function_of(alloc, takes, gives, taken, given)
        }
        Waiting::Bounds(depth, bound, gives) => {
            let below = under(depth)?;
            waiting.push(Waiting::Results(below, bound, gives, became))?;
            descend(alloc, action, waiting, below, &gives.shape)
        }
        Waiting::Results(depth, bound, gives, limit) => {
            let given = with_set(alloc, action, depth, gives, became)?;
            type_function_of(alloc, bound, gives, limit, given)
        }
        Waiting::Contents(depth, content) => {
            let inside = with_set(alloc, action, depth, content, became)?;
            box_of(alloc, content, inside)
        }
        Waiting::Exits(gives) => exit_of(alloc, gives, became),
    }
}

// What the type becomes.
fn acted_type(alloc: Global, action: &Action, depth: u32, ty: &Ty) -> Result<ActedType, AllocError>
    ensures { IfOk result (λ a. became_type (type_of ty.now) a ≡ plain.act_type (action_of action.now) depth (type_of ty.now)) }
{
    let shape = acted_shape(alloc, action, depth, &ty.shape)?;
    with_set(alloc, action, depth, ty, shape)
}

// What a type becomes, of what its shape became.
fn with_set(
    alloc: Global,
    action: &Action,
    depth: u32,
    ty: &Ty,
    shape: ActedShape,
) -> Result<ActedType, AllocError>
    ensures { IfOk result (λ a. became_type (type_of ty.now) a
        ≡ capturing (became_shape (shape_of ty.now.shape.value) shape) (plain.act_set (action_of action.now) depth ty.now.set)) }
{
    let set = acted_set(alloc, action, depth, &ty.set)?;
    type_of_parts(alloc, ty, shape, set)
}

/// The shape in which the action was taken everywhere, where it stands under so many binders. The parts in which
/// nothing changes are shared.
pub fn act_shape(
    alloc: Global,
    action: &Action,
    depth: u32,
    shape: &Rc<Shape>,
) -> Result<Rc<Shape>, AllocError>
    ensures { IfOk result (λ s. shape_of s.value ≡ plain.act (action_of action.now) depth (shape_of shape.now.value)) }
{
    let acted = acted_shape(alloc, action, depth, shape)?;
    shape_or_same(acted, shape)
}

pub(crate) fn act_shared_type(
    alloc: Global,
    action: &Action,
    depth: u32,
    ty: &Rc<Ty>,
) -> Result<Rc<Ty>, AllocError>
    ensures { IfOk result (λ t. type_of t.value ≡ plain.act_type (action_of action.now) depth (type_of ty.now.value)) }
{
    let acted = acted_type(alloc, action, depth, ty)?;
    type_or_same(acted, ty)
}

/// The type in which the action was taken everywhere, where it stands under so many binders. The parts in which
/// nothing changes are shared.
pub fn act_type(alloc: Global, action: &Action, depth: u32, ty: &Ty) -> Result<Ty, AllocError>
    ensures { IfOk result (λ t. type_of t ≡ plain.act_type (action_of action.now) depth (type_of ty.now)) }
{
    let shape = act_shape(alloc, action, depth, &ty.shape)?;
    let set = act_set(alloc, action, depth, &ty.set)?;
    Ok(Ty { shape, set })
}
