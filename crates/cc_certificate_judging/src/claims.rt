//! The claims of nodes, read at their places.

ghost use Rattle.std.specs.Prelude.{◌≡◌, ◌-◌, ◌+◌, ◌<◌, ◌∷◌, length, IfOk, OnOk};
ghost use Rattle.cc_capture.specs.Sets.{union};
ghost use Rattle.cc_core.specs.Shapes.{TypeVariable, capturing};
ghost use Rattle.cc_core.specs.Traversal.{act, act_set, act_type};
ghost use Rattle.cc_core.specs.TermViews.{shape_of, type_of, context_of};
ghost use Rattle.cc_core.specs.WellFormed.{kinds_of};
ghost use Rattle.cc_derivation.specs.DerivationViews.{claim_of, rule_of};
ghost use Rattle.cc_certificate_text.specs.Certificates.{rule_kind};
ghost use Rattle.cc_certificate_judging.specs.Judging as plain;
ghost use Rattle.cc_certificate_judging.specs.ReadingShapes.{waiting_of, in_turn, Descends, TakesTurn};

use cc_capture::{CapSet, Elem, Var};
use cc_core::wellformed::{wf, wf_set, wf_shape};
use cc_core::{Ctx, Shape, Ty};
use cc_derivation::{Claim, Rule};
use std::alloc::{AllocError, Global};
use std::rc::Rc;

// The variable that the number names under so many binders of the claim, where there are so many names, and so many
// entries with the local ones.
fn numbered(names: u32, entries: u32, depth: u32, number: u32) -> Var
    ensures { result ≡ plain.numbered names (entries - names) depth number }
{
    let locals = entries.saturating_sub(names);
    if number < locals {
        return Var::Free(names + number);
    }
    if number - locals < depth {
        Var::Bound(depth - (number - locals + 1))
    } else {
        Var::Bound(number)
    }
}

// The same of a variable as it is written.
fn read_variable(names: u32, entries: u32, depth: u32, variable: Var) -> Var
    ensures { result ≡ plain.read_variable names (entries - names) depth variable }
{
    match variable {
        Var::Bound(number) => numbered(names, entries, depth, number),
        Var::Free(_) => variable,
    }
}

// Puts the element, as it is read, into the set.
fn add_read(
    names: u32,
    entries: u32,
    depth: u32,
    elem: Elem,
    read: &mut CapSet,
) -> Result<(), AllocError>
    ensures { OnOk result (read.new ≡ union ((plain.reading names (entries - names)).element depth elem) read.old) }
{
    match elem {
        Elem::Var(variable) => read.insert(Elem::Var(read_variable(
            names, entries, depth, variable,
        ))),
        Elem::Cap => read.insert(elem),
        Elem::Hole(_) => read.insert(elem),
    }
}

// The set, as it is read.
fn read_set(
    alloc: Global,
    names: u32,
    entries: u32,
    depth: u32,
    set: &CapSet,
) -> Result<CapSet, AllocError>
    ensures { IfOk result (λ s. s ≡ act_set (plain.reading names (entries - names)) depth set.now) }
{
    let mut read = CapSet::new(alloc);
    for elem in set.iter() {
        add_read(names, entries, depth, elem, &mut read)?;
    }
    Ok(read)
}

// The depth under one binder more.
fn under(depth: u32) -> Result<u32, AllocError>
    ensures { IfOk result (λ d. d ≡ depth + 1) }
{
    depth.checked_add(1).ok_or(AllocError)
}

// A type of which the shape is read, with its set as it is read.
fn with_read_set(
    alloc: Global,
    names: u32,
    entries: u32,
    depth: u32,
    ty: &Ty,
    shape: Rc<Shape>,
) -> Result<Rc<Ty>, AllocError>
    ensures { IfOk result (λ t. type_of t.value ≡ capturing (shape_of shape.value) (act_set (plain.reading names (entries - names)) depth ty.now.set)) }
{
    let set = read_set(alloc, names, entries, depth, &ty.set)?;
    Ok(Rc::new(alloc, Ty { shape, set })?)
}

// What waits for a shape inside it to be read. All but exits have how many binders stand above that shape or, where
// they wait for the first of two, above their own.
#[derive(Drop)]
enum Waiting<'a> {
    // Functions, for the shape of what they take. What they give is still to be read.
    Takes(u32, &'a Rc<Ty>, &'a Rc<Ty>),
    // Functions, for the shape of what they give. What they take is read.
    Gives(u32, &'a Rc<Ty>, Rc<Ty>),
    // Type functions, for their bound. What they give is still to be read.
    Bounds(u32, &'a Rc<Ty>),
    // Type functions, for the shape of what they give. Their bound is read.
    Results(u32, &'a Rc<Ty>, Rc<Shape>),
    // Boxes, for the shape of their content.
    Contents(u32, &'a Rc<Ty>),
    // Exits, for the shape of their values.
    Exits,
}

// The shape, as it is read. What stands round a part waits in a list, so that a deep shape takes no more of the stack
// than a flat one.
fn read_shape(
    alloc: Global,
    names: u32,
    entries: u32,
    depth: u32,
    shape: &Rc<Shape>,
) -> Result<Rc<Shape>, AllocError>
    ensures { IfOk result (λ s. shape_of s.value ≡ act (plain.reading names (entries - names)) depth (shape_of shape.now.value)) }
{
    let mut waiting = Vec::new(alloc);
    let mut read = descend(alloc, names, entries, &mut waiting, depth, shape)?;
    while let Some(next) = waiting.pop() {
        read = take_turn(alloc, names, entries, &mut waiting, next, read)?;
    }
    Ok(read)
}

// Goes down in the shape to its first part that has none, by what functions take and by the bounds of type functions
// first. What stands round it waits. Gives that part as it is read.
fn descend<'a>(
    alloc: Global,
    names: u32,
    entries: u32,
    waiting: &mut Vec<Waiting<'a>>,
    depth: u32,
    shape: &'a Rc<Shape>,
) -> Result<Rc<Shape>, AllocError>
    ensures { IfOk result (λ s. Descends (plain.reading names (entries - names)) depth (shape_of shape.now.value) (in_turn waiting.old.items) (in_turn waiting.new.items) (shape_of s.value)) }
{
    let mut inner = shape;
    loop {
        match &**inner {
            Shape::Base(_) => return inner.clone(),
            Shape::Any => return inner.clone(),
            Shape::TVar(variable) => {
                return read_type_variable(alloc, names, entries, depth, *variable);
            }
            Shape::Fun(takes, gives) => {
                waiting.push(Waiting::Takes(depth, takes, gives))?;
                inner = &takes.shape;
            }
            Shape::TFun(bound, gives) => {
                waiting.push(Waiting::Bounds(depth, gives))?;
                inner = bound;
            }
            Shape::Boxed(content) => {
                waiting.push(Waiting::Contents(depth, content))?;
                inner = &content.shape;
            }
            Shape::Exit(gives) => {
                waiting.push(Waiting::Exits)?;
                inner = gives;
            }
        }
    }
}

// The shape that is a type variable, as it is read.
fn read_type_variable(
    alloc: Global,
    names: u32,
    entries: u32,
    depth: u32,
    variable: Var,
) -> Result<Rc<Shape>, AllocError>
    ensures { IfOk result (λ s. shape_of s.value ≡ act (plain.reading names (entries - names)) depth (TypeVariable variable)) }
{
    let read = read_variable(names, entries, depth, variable);
    Ok(Rc::new(alloc, Shape::TVar(read))?)
}

// Goes on with what waits last, where the shape that it waits for is read. Gives the next part as it is read.
fn take_turn<'a>(
    alloc: Global,
    names: u32,
    entries: u32,
    waiting: &mut Vec<Waiting<'a>>,
    next: Waiting<'a>,
    read: Rc<Shape>,
) -> Result<Rc<Shape>, AllocError>
    ensures { IfOk result (λ s. TakesTurn (plain.reading names (entries - names)) (waiting_of next.entry ∷ in_turn waiting.old.items) (shape_of read.value) (in_turn waiting.new.items) (shape_of s.value)) }
{
    match next {
        Waiting::Takes(depth, takes, gives) => {
            let taken = with_read_set(alloc, names, entries, depth, takes, read)?;
            let below = under(depth)?;
            waiting.push(Waiting::Gives(below, gives, taken))?;
            descend(alloc, names, entries, waiting, below, &gives.shape)
        }
        Waiting::Gives(depth, gives, taken) => {
            let given = with_read_set(alloc, names, entries, depth, gives, read)?;
            Ok(Rc::new(alloc, Shape::Fun(taken, given))?)
        }
        Waiting::Bounds(depth, gives) => {
            let below = under(depth)?;
            waiting.push(Waiting::Results(below, gives, read))?;
            descend(alloc, names, entries, waiting, below, &gives.shape)
        }
        Waiting::Results(depth, gives, bound) => {
            let given = with_read_set(alloc, names, entries, depth, gives, read)?;
            Ok(Rc::new(alloc, Shape::TFun(bound, given))?)
        }
        Waiting::Contents(depth, content) => {
            let inside = with_read_set(alloc, names, entries, depth, content, read)?;
            Ok(Rc::new(alloc, Shape::Boxed(inside))?)
        }
        Waiting::Exits => Ok(Rc::new(alloc, Shape::Exit(read))?),
    }
}

// The type, as it is read.
fn read_type(alloc: Global, names: u32, entries: u32, ty: &Ty) -> Result<Ty, AllocError>
    ensures { IfOk result (λ t. type_of t ≡ act_type (plain.reading names (entries - names)) 0 (type_of ty.now)) }
{
    let shape = read_shape(alloc, names, entries, 0, &ty.shape)?;
    let set = read_set(alloc, names, entries, 0, &ty.set)?;
    Ok(Ty { shape, set })
}

/// The claim, as it is read where there are so many names, and so many entries with the local ones.
fn read_claim(alloc: Global, names: u32, entries: u32, claim: &Claim) -> Result<Claim, AllocError>
    ensures { IfOk result (λ c. claim_of c ≡ plain.read_claim names (entries - names) (claim_of claim.now)) }
{
    match claim {
        Claim::Typed(ty) => Ok(Claim::Typed(read_type(alloc, names, entries, ty)?)),
        Claim::TypeBelow(left, right) => {
            let left = read_type(alloc, names, entries, left)?;
            let right = read_type(alloc, names, entries, right)?;
            Ok(Claim::TypeBelow(left, right))
        }
        Claim::ShapeBelow(left, right) => {
            let left = read_shape(alloc, names, entries, 0, left)?;
            let right = read_shape(alloc, names, entries, 0, right)?;
            Ok(Claim::ShapeBelow(left, right))
        }
        Claim::SetBelow(left, right) => {
            let left = read_set(alloc, names, entries, 0, left)?;
            let right = read_set(alloc, names, entries, 0, right)?;
            Ok(Claim::SetBelow(left, right))
        }
    }
}

// Whether each variable of the claim is in scope, and of the kind of its place.
fn is_in_scope(alloc: Global, ctx: &Ctx, claim: &Claim) -> Result<bool, AllocError>
    ensures { IfOk result (λ b. b ≡ plain.is_in_scope (kinds_of (context_of ctx.now)) (claim_of claim.now)) }
{
    match claim {
        Claim::Typed(ty) => wf(alloc, ctx, ty),
        Claim::TypeBelow(left, right) => {
            if !wf(alloc, ctx, left)? {
                return Ok(false);
            }
            wf(alloc, ctx, right)
        }
        Claim::ShapeBelow(left, right) => {
            if !wf_shape(alloc, ctx, left)? {
                return Ok(false);
            }
            wf_shape(alloc, ctx, right)
        }
        Claim::SetBelow(left, right) => Ok(wf_set(ctx, left) && wf_set(ctx, right)),
    }
}

// Whether the outermost binders, where there are some, have the number.
fn begins_at(locals: u32, first: Option<u32>) -> bool
    ensures { result ≡ plain.begins_at locals first }
{
    match first {
        Some(first) => first == locals,
        None => true,
    }
}

// Whether the rule concludes that a set is below another.
fn is_of_sets(rule: Rule) -> bool
    ensures { result ≡ plain.is_of_sets (rule_kind (rule_of rule)) }
{
    match rule {
        Rule::ByElement => true,
        Rule::ByVariable => true,
        Rule::BySet => true,
        _ => false,
    }
}

// A claim that is not of the kind of what the rule concludes.
fn claim_of_another_kind(alloc: Global, rule: Rule) -> Result<Claim, AllocError>
    ensures { IfOk result (λ c. claim_of c ≡ plain.claim_of_another_kind (rule_kind (rule_of rule))) }
{
    if is_of_sets(rule) {
        let shape = Rc::new(alloc, Shape::Any)?;
        let set = CapSet::new(alloc);
        Ok(Claim::Typed(Ty { shape, set }))
    } else {
        Ok(Claim::SetBelow(CapSet::new(alloc), CapSet::new(alloc)))
    }
}

// How many entries are in scope.
fn entries(ctx: &Ctx) -> u32
    ensures { result ≡ length (kinds_of (context_of ctx.now)) }
{
    ctx.len()
}

/// The claim of a node of the rule, as it is read at the place where the entries are in scope, of which the first ones
/// are those of so many names. Where its names do not fit the place, it is a claim of another kind. Fails only for want
/// of memory.
pub(crate) fn claim_at(
    alloc: Global,
    names: u32,
    ctx: &Ctx,
    rule: Rule,
    first: Option<u32>,
    claim: &Claim,
) -> Result<Claim, AllocError>
    ensures { IfOk result (λ c. claim_of c ≡ plain.claim_at names (kinds_of (context_of ctx.now)) (rule_of rule) first (claim_of claim.now)) }
{
    let entries = entries(ctx);
    if !begins_at(entries.saturating_sub(names), first) {
        return claim_of_another_kind(alloc, rule);
    }
    let read = read_claim(alloc, names, entries, claim)?;
    if is_in_scope(alloc, ctx, &read)? {
        Ok(read)
    } else {
        claim_of_another_kind(alloc, rule)
    }
}
