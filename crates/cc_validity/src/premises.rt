//! The places of the premises of a node.

ghost use Rattle.std.specs.Prelude.{◌≡◌, ℕ, Some, List, [], ◌∷◌, length, drop, map, option_map, IfOk};
ghost use Rattle.cc_capture.specs.declared.var.Elem.TheVariants.{Cap};
ghost use Rattle.cc_capture.specs.Sets.{Set};
ghost use Rattle.cc_core.specs.Contexts.{TermEntry, TypeEntry, entry_of};
ghost use Rattle.cc_core.specs.Derivations as derivations;
ghost use Rattle.cc_core.specs.Reading.{reading, read_variable, read_shape, read_type, read_term};
ghost use Rattle.cc_core.specs.Shapes.{CapturingType, ExitShape};
ghost use Rattle.cc_core.specs.Substitution.{single, opened_term};
ghost use Rattle.cc_core.specs.Traversal.{act_term};
ghost use Rattle.cc_core.specs.TermViews.{shape_of, type_of, term_of, bind_of, context_of};
ghost use Rattle.cc_derivation.specs.DerivationViews.{rule_of, premises_of};
ghost use Rattle.cc_validity.specs.Captures.{body_in, parts_in};
ghost use Rattle.cc_derivation.specs.Broken.{claims_of, are_as_many};
ghost use Rattle.cc_derivation.specs.Rows as plain;
ghost use Rattle.cc_validity.specs.Spots.{place_of, places_of, places_in};

use crate::captures::{
    KnownTerm, body_of, first_of, same_term, second_of, unknown, unknown_beside,
};
use crate::comparisons::{element_at, only_element};
use crate::places::{Spot, Spots};
use cc_capture::{CapSet, Elem, Var};
use cc_core::acting::Action;
use cc_core::acting_terms::act_node;
use cc_core::reading::{read_shape, read_type};
use cc_core::same::same_shape;
use cc_core::substitution::instantiate_term;
use cc_core::wellformed::wf_term;
use cc_core::{Bind, Ctx, Form, Node, Note, Shape, Ty};
use cc_derivation::{Claim, Premises, Rule};
use std::alloc::{AllocError, Global};
use std::rc::Rc;

// How many entries the context has.
fn entries_of(ctx: &Ctx) -> u32
    ensures { result ≡ length (context_of ctx.now) }
{
    ctx.len()
}

// One place.
fn one(alloc: Global, first: Spot) -> Result<Spots, AllocError>
    ensures { IfOk result (λ s. places_of s ≡ place_of first ∷ []) }
{
    Ok(Spots::More(first, Rc::new(alloc, Spots::End)?))
}

// Two places.
fn two(alloc: Global, first: Spot, second: Spot) -> Result<Spots, AllocError>
    ensures { IfOk result (λ s. places_of s ≡ place_of first ∷ place_of second ∷ []) }
{
    let rest = one(alloc, second)?;
    Ok(Spots::More(first, Rc::new(alloc, rest)?))
}

// Three places.
fn three(alloc: Global, first: Spot, second: Spot, third: Spot) -> Result<Spots, AllocError>
    ensures { IfOk result (λ s. places_of s ≡ place_of first ∷ place_of second ∷ place_of third ∷ []) }
{
    let rest = two(alloc, second, third)?;
    Ok(Spots::More(first, Rc::new(alloc, rest)?))
}

// Among how many entries the term is read as it is: all of the context, where each of its variables has its entry or its
// binder.
fn entries_read(alloc: Global, ctx: &Ctx, node: &Node) -> Result<u32, AllocError>
    ensures { IfOk result (λ n. read_term n (term_of node.now) ≡ term_of node.now) }
{
    if wf_term(alloc, ctx, node)? {
        Ok(entries_of(ctx))
    } else {
        Ok(0)
    }
}

// The place of the term as it is read among so many entries.
fn typing_read(ctx: &Ctx, term: &KnownTerm, entries: u32) -> Result<Spot, AllocError>
    ensures { IfOk result (λ s. place_of s ≡ plain.TypeOf (context_of ctx.now) (read_term entries (term_of term.now.node.value))) }
{
    let ctx = ctx.clone()?;
    let term = same_term(term)?;
    Ok(Spot::TypeOf(ctx, term, entries))
}

/// The place of the term in the context. Fails only for want of memory.
pub fn typing(alloc: Global, ctx: &Ctx, node: &Rc<Node>) -> Result<Spot, AllocError>
    ensures { IfOk result (λ s. place_of s ≡ plain.TypeOf (context_of ctx.now) (term_of node.now.value)) }
{
    let entries = entries_read(alloc, ctx, node)?;
    let term = unknown(alloc, node)?;
    typing_read(ctx, &term, entries)
}

// The place of a comparison of sets.
fn sets(ctx: &Ctx) -> Result<Spot, AllocError>
    ensures { IfOk result (λ s. place_of s ≡ plain.SetsBelow (context_of ctx.now)) }
{
    Ok(Spot::Sets(ctx.clone()?))
}

// The place of a comparison of shapes.
fn shapes(ctx: &Ctx) -> Result<Spot, AllocError>
    ensures { IfOk result (λ s. place_of s ≡ plain.ShapesBelow (context_of ctx.now)) }
{
    Ok(Spot::Shapes(ctx.clone()?))
}

// The place of a comparison of types.
fn types(ctx: &Ctx) -> Result<Spot, AllocError>
    ensures { IfOk result (λ s. place_of s ≡ plain.TypesBelow (context_of ctx.now)) }
{
    Ok(Spot::Types(ctx.clone()?))
}

// The place of a comparison of types under a binder of the entry.
fn types_under(alloc: Global, ctx: &Ctx, bind: Bind) -> Result<Spot, AllocError>
    ensures { IfOk result (λ s. place_of s ≡ plain.TypesBelow (bind_of bind ∷ context_of ctx.now)) }
{
    let inner = ctx.push(alloc, bind)?;
    Ok(Spot::Types(inner))
}

// The place of a variable that stands in the term at the node, as it is read among so many entries.
fn operand(
    alloc: Global,
    ctx: &Ctx,
    term: &KnownTerm,
    variable: Var,
    entries: u32,
) -> Result<Spot, AllocError>
    ensures { IfOk result (λ s. place_of s ≡ plain.operand (context_of ctx.now) (read_variable entries 0 variable)) }
{
    let name = Node {
        form: Form::Var(variable),
        at: term.node.at,
        first: term.node.first,
        second: term.node.second,
    };
    let ctx = ctx.clone()?;
    let node = Rc::new(alloc, name)?;
    let term = unknown_beside(alloc, term, &node)?;
    Ok(Spot::TypeOf(ctx, term, entries))
}

// The place of a body under a binder of the entry, where all entries of the context are read: the binder's is read too,
// so the body is shared.
fn under_read(alloc: Global, ctx: &Ctx, bind: Bind, body: &KnownTerm) -> Result<Spot, AllocError>
    ensures { IfOk result (λ s. (entries : ℕ) → entries ≡ length (context_of ctx.now)
        → place_of s ≡ plain.under (context_of ctx.now) (bind_of bind) (act_term (reading entries) 1 (term_of body.now.node.value))) }
{
    let inner = ctx.push(alloc, bind)?;
    let body = same_term(body)?;
    let entries = entries_of(&inner);
    Ok(Spot::TypeOf(inner, body, entries))
}

// The body with the position of the next entry in the place of its binder, where so many entries are read.
fn opened(alloc: Global, ctx: &Ctx, body: &Rc<Node>, entries: u32) -> Result<Rc<Node>, AllocError>
    ensures { IfOk result (λ n. term_of n.value ≡ opened_term (length (context_of ctx.now)) (act_term (reading entries) 1 (term_of body.now.value))) }
{
    let read = act_node(alloc, &Action::Read(entries), 1, body)?;
    instantiate_term(alloc, &read, entries_of(ctx))
}

// The place of a body under a binder of the entry, where so many entries are read: the body is copied.
fn under_opened(
    alloc: Global,
    ctx: &Ctx,
    bind: Bind,
    body: &KnownTerm,
    entries: u32,
) -> Result<Spot, AllocError>
    ensures { IfOk result (λ s. place_of s ≡ plain.under (context_of ctx.now) (bind_of bind) (act_term (reading entries) 1 (term_of body.now.node.value))) }
{
    let read = opened(alloc, ctx, &body.node, entries)?;
    let body = unknown(alloc, &read)?;
    let inner = ctx.push(alloc, bind)?;
    Ok(Spot::TypeOf(inner, body, 0))
}

// The place of a body under a binder of the entry, where so many entries are read outside of it.
fn under(
    alloc: Global,
    ctx: &Ctx,
    bind: Bind,
    body: &KnownTerm,
    entries: u32,
) -> Result<Spot, AllocError>
    ensures { IfOk result (λ s. place_of s ≡ plain.under (context_of ctx.now) (bind_of bind) (act_term (reading entries) 1 (term_of body.now.node.value))) }
{
    if entries == entries_of(ctx) {
        under_read(alloc, ctx, bind, body)
    } else {
        under_opened(alloc, ctx, bind, body, entries)
    }
}

// The place of the body of a let, whose variable has the type that the first premise claims.
fn body_place(
    alloc: Global,
    ctx: &Ctx,
    body: &KnownTerm,
    entries: u32,
    premises: &Premises,
) -> Result<Spot, AllocError>
    ensures { IfOk result (λ s. place_of s ≡ plain.body_place (context_of ctx.now) (act_term (reading entries) 1 (term_of body.now.node.value)) (claims_of (premises_of premises.now))) }
{
    match premises {
        Premises::End => Ok(Spot::Nowhere),
        Premises::More(first, _) => match &first.claim {
            Claim::Typed(ty) => under(alloc, ctx, Bind::Var(ty.clone()?), body, entries),
            _ => Ok(Spot::Nowhere),
        },
    }
}

// The place of the body of a function.
fn function(
    alloc: Global,
    ctx: &Ctx,
    term: &KnownTerm,
    takes: &Rc<Ty>,
    body: &Rc<Node>,
    entries: u32,
) -> Result<Option<Spots>, AllocError>
    requires { body_in (term_of term.now.node.value) ≡ Some (term_of body.now.value) }
    ensures { IfOk result (λ o. option_map places_of o ≡ Some (plain.under (context_of ctx.now) (entry_of (read_type entries (type_of takes.now.value))) (act_term (reading entries) 1 (term_of body.now.value)) ∷ [])) }
{
    let taken = read_type(alloc, takes, entries)?;
    let body = body_of(alloc, term, body)?;
    let first = under(alloc, ctx, Bind::Var(taken), &body, entries)?;
    let spots = one(alloc, first)?;
    Ok(Some(spots))
}

// That of the body of a type function.
fn type_function(
    alloc: Global,
    ctx: &Ctx,
    term: &KnownTerm,
    bound: &Rc<Shape>,
    body: &Rc<Node>,
    entries: u32,
) -> Result<Option<Spots>, AllocError>
    requires { body_in (term_of term.now.node.value) ≡ Some (term_of body.now.value) }
    ensures { IfOk result (λ o. option_map places_of o ≡ Some (plain.under (context_of ctx.now) (TypeEntry (read_shape entries (shape_of bound.now.value))) (act_term (reading entries) 1 (term_of body.now.value)) ∷ [])) }
{
    let limit = read_shape(alloc, bound, entries)?;
    let body = body_of(alloc, term, body)?;
    let first = under(alloc, ctx, Bind::TVar(limit), &body, entries)?;
    let spots = one(alloc, first)?;
    Ok(Some(spots))
}

// That of the body of a boundary, whose exit has the universal capability.
fn boundary(
    alloc: Global,
    ctx: &Ctx,
    term: &KnownTerm,
    gives: &Rc<Shape>,
    body: &Rc<Node>,
    entries: u32,
) -> Result<Option<Spots>, AllocError>
    requires { body_in (term_of term.now.node.value) ≡ Some (term_of body.now.value) }
    ensures { IfOk result (λ o. option_map places_of o ≡ Some (plain.under (context_of ctx.now) (TermEntry (ExitShape (read_shape entries (shape_of gives.now.value))) (single Cap)) (act_term (reading entries) 1 (term_of body.now.value)) ∷ [])) }
{
    let given = read_shape(alloc, gives, entries)?;
    let shape = Rc::new(alloc, Shape::Exit(given))?;
    let mut set = CapSet::new(alloc);
    set.insert(Elem::Cap)?;
    let body = body_of(alloc, term, body)?;
    let first = under(alloc, ctx, Bind::Var(Ty { shape, set }), &body, entries)?;
    let spots = one(alloc, first)?;
    Ok(Some(spots))
}

// The places of one operand.
fn operand_alone(
    alloc: Global,
    ctx: &Ctx,
    term: &KnownTerm,
    first: Var,
    entries: u32,
) -> Result<Option<Spots>, AllocError>
    ensures { IfOk result (λ o. option_map places_of o ≡ Some (plain.operand (context_of ctx.now) (read_variable entries 0 first) ∷ [])) }
{
    let first = operand(alloc, ctx, term, first, entries)?;
    let spots = one(alloc, first)?;
    Ok(Some(spots))
}

// The places of two operands.
fn operands(
    alloc: Global,
    ctx: &Ctx,
    term: &KnownTerm,
    first: Var,
    second: Var,
    entries: u32,
) -> Result<Option<Spots>, AllocError>
    ensures { IfOk result (λ o. option_map places_of o ≡ Some (plain.operand (context_of ctx.now) (read_variable entries 0 first) ∷ plain.operand (context_of ctx.now) (read_variable entries 0 second) ∷ [])) }
{
    let first = operand(alloc, ctx, term, first, entries)?;
    let second = operand(alloc, ctx, term, second, entries)?;
    let spots = two(alloc, first, second)?;
    Ok(Some(spots))
}

// The places of a type function that is applied, and of the comparison of its argument.
fn type_application(
    alloc: Global,
    ctx: &Ctx,
    term: &KnownTerm,
    head: Var,
    entries: u32,
) -> Result<Option<Spots>, AllocError>
    ensures { IfOk result (λ o. option_map places_of o ≡ Some (plain.operand (context_of ctx.now) (read_variable entries 0 head) ∷ plain.ShapesBelow (context_of ctx.now) ∷ [])) }
{
    let first = operand(alloc, ctx, term, head, entries)?;
    let second = shapes(ctx)?;
    let spots = two(alloc, first, second)?;
    Ok(Some(spots))
}

// The places of the right side and the body of a let.
fn named(
    alloc: Global,
    ctx: &Ctx,
    term: &KnownTerm,
    right: &Rc<Node>,
    body: &Rc<Node>,
    entries: u32,
    premises: &Premises,
) -> Result<Option<Spots>, AllocError>
    requires { parts_in (term_of term.now.node.value) ≡ Some (term_of right.now.value, term_of body.now.value) }
    ensures { IfOk result (λ o. option_map places_of o ≡ Some (plain.TypeOf (context_of ctx.now) (read_term entries (term_of right.now.value)) ∷ plain.body_place (context_of ctx.now) (act_term (reading entries) 1 (term_of body.now.value)) (claims_of (premises_of premises.now)) ∷ [])) }
{
    let own = first_of(alloc, term, right, body)?;
    let inner = second_of(alloc, term, right, body)?;
    let first = typing_read(ctx, &own, entries)?;
    let second = body_place(alloc, ctx, &inner, entries, premises)?;
    let spots = two(alloc, first, second)?;
    Ok(Some(spots))
}

// The places of the test and the branches of a choice.
fn choice(
    alloc: Global,
    ctx: &Ctx,
    term: &KnownTerm,
    test: Var,
    positive: &Rc<Node>,
    negative: &Rc<Node>,
    entries: u32,
) -> Result<Option<Spots>, AllocError>
    requires { parts_in (term_of term.now.node.value) ≡ Some (term_of positive.now.value, term_of negative.now.value) }
    ensures { IfOk result (λ o. option_map places_of o ≡ Some (plain.operand (context_of ctx.now) (read_variable entries 0 test) ∷ plain.TypeOf (context_of ctx.now) (read_term entries (term_of positive.now.value)) ∷ plain.TypeOf (context_of ctx.now) (read_term entries (term_of negative.now.value)) ∷ [])) }
{
    let taken = first_of(alloc, term, positive, negative)?;
    let other = second_of(alloc, term, positive, negative)?;
    let first = operand(alloc, ctx, term, test, entries)?;
    let second = typing_read(ctx, &taken, entries)?;
    let third = typing_read(ctx, &other, entries)?;
    let spots = three(alloc, first, second, third)?;
    Ok(Some(spots))
}

// The places of the term itself, and of the comparison of its types.
fn subsumption(
    alloc: Global,
    ctx: &Ctx,
    term: &KnownTerm,
    entries: u32,
) -> Result<Option<Spots>, AllocError>
    ensures { IfOk result (λ o. option_map places_of o ≡ Some (plain.TypeOf (context_of ctx.now) (read_term entries (term_of term.now.node.value)) ∷ plain.TypesBelow (context_of ctx.now) ∷ [])) }
{
    let first = typing_read(ctx, term, entries)?;
    let second = types(ctx)?;
    let spots = two(alloc, first, second)?;
    Ok(Some(spots))
}

/// The places of the premises of a typing by the rule, if the rule is one for the term, as it is read among so many
/// entries. Fails only for want of memory.
pub fn typing_places(
    alloc: Global,
    ctx: &Ctx,
    term: &KnownTerm,
    entries: u32,
    rule: Rule,
    premises: &Premises,
) -> Result<Option<Spots>, AllocError>
    ensures { IfOk result (λ o. (type : CapturingType) → option_map places_of o ≡ places_in (plain.typing_row (context_of ctx.now) (rule_of rule) (read_term entries (term_of term.now.node.value)) type) (claims_of (premises_of premises.now))) }
{
    let node = &term.node;
    match rule {
        Rule::Variable => match &node.form {
            Form::Var(_) => Ok(Some(Spots::End)),
            _ => Ok(None),
        },
        Rule::Literal => match &node.form {
            Form::Lit(_) => Ok(Some(Spots::End)),
            _ => Ok(None),
        },
        Rule::Function => match &node.form {
            Form::Fun(takes, body) => function(alloc, ctx, term, takes, body, entries),
            _ => Ok(None),
        },
        Rule::TypeFunction => match &node.form {
            Form::TFun(bound, body) => type_function(alloc, ctx, term, bound, body, entries),
            _ => Ok(None),
        },
        Rule::Application => match &node.form {
            Form::App(head, argument) => operands(alloc, ctx, term, *head, *argument, entries),
            _ => Ok(None),
        },
        Rule::TypeApplication => match &node.form {
            Form::TApp(head, _) => type_application(alloc, ctx, term, *head, entries),
            _ => Ok(None),
        },
        Rule::Boxing => match &node.form {
            Form::Boxed(content) => operand_alone(alloc, ctx, term, *content, entries),
            _ => Ok(None),
        },
        Rule::Unboxing => match &node.form {
            Form::Unbox(set, content) => match set {
                Some(_) => operand_alone(alloc, ctx, term, *content, entries),
                None => Ok(None),
            },
            _ => Ok(None),
        },
        Rule::Let => match &node.form {
            Form::Let(_, right, body) => named(alloc, ctx, term, right, body, entries, premises),
            _ => Ok(None),
        },
        Rule::Primitive => match &node.form {
            Form::Prim(_, left, right) => operands(alloc, ctx, term, *left, *right, entries),
            _ => Ok(None),
        },
        Rule::Choice => match &node.form {
            Form::If(note, test, positive, negative) => match note {
                Note::Written(_) => choice(alloc, ctx, term, *test, positive, negative, entries),
                _ => Ok(None),
            },
            _ => Ok(None),
        },
        Rule::Repetition => match &node.form {
            Form::Repeat(count, function) => operands(alloc, ctx, term, *count, *function, entries),
            _ => Ok(None),
        },
        Rule::Operation => match &node.form {
            Form::Operate(_, receiver, argument) => match argument {
                Some(argument) => operands(alloc, ctx, term, *receiver, *argument, entries),
                None => operand_alone(alloc, ctx, term, *receiver, entries),
            },
            _ => Ok(None),
        },
        Rule::Boundary => match &node.form {
            Form::Boundary(gives, body) => boundary(alloc, ctx, term, gives, body, entries),
            _ => Ok(None),
        },
        Rule::Exit => match &node.form {
            Form::Leave(_, exit, value) => operands(alloc, ctx, term, *exit, *value, entries),
            _ => Ok(None),
        },
        Rule::Subsumption => subsumption(alloc, ctx, term, entries),
        _ => Ok(None),
    }
}

// One place of a comparison of sets for each element from the index on.
fn each(alloc: Global, ctx: &Ctx, set: &CapSet, index: usize) -> Result<Spots, AllocError>
    ensures { IfOk result (λ s. places_of s ≡ map (λ e. plain.SetsBelow (context_of ctx.now)) (drop index set.now.list)) }
{
    let mut spots = Spots::End;
    let mut at = index;
    while let Some(_) = element_at(set, at) {
        let first = sets(ctx)?;
        spots = Spots::More(first, Rc::new(alloc, spots)?);
        at = at.checked_add(1).ok_or(AllocError)?;
    }
    Ok(spots)
}

// The place of the premise of a variable that stands alone on the left.
fn variable_alone(alloc: Global, ctx: &Ctx, left: &CapSet) -> Result<Option<Spots>, AllocError>
    ensures { IfOk result (λ o. (right : Set) (claims : List derivations.Claim) → option_map places_of o ≡ places_in (plain.variable_row (context_of ctx.now) left.now.list right) claims) }
{
    match only_element(left) {
        Some(elem) => match elem {
            Elem::Var(_) => {
                let first = sets(ctx)?;
                let spots = one(alloc, first)?;
                Ok(Some(spots))
            }
            Elem::Cap => Ok(None),
            Elem::Hole(_) => Ok(None),
        },
        None => Ok(None),
    }
}

/// The places of the premises of a comparison of sets by the rule, if the rule is one for its left side. Fails only for
/// want of memory.
pub fn set_places(
    alloc: Global,
    ctx: &Ctx,
    rule: Rule,
    left: &CapSet,
) -> Result<Option<Spots>, AllocError>
    ensures { IfOk result (λ o. (right : Set) (claims : List derivations.Claim) → option_map places_of o ≡ places_in (plain.set_row (context_of ctx.now) (rule_of rule) left.now right) claims) }
{
    match rule {
        Rule::ByElement => Ok(Some(Spots::End)),
        Rule::ByVariable => variable_alone(alloc, ctx, left),
        Rule::BySet => {
            let spots = each(alloc, ctx, left, 0)?;
            Ok(Some(spots))
        }
        _ => Ok(None),
    }
}

// The places of what functions take and give.
fn functions(
    alloc: Global,
    ctx: &Ctx,
    left: &Shape,
    right: &Shape,
) -> Result<Option<Spots>, AllocError>
    ensures { IfOk result (λ o. (claims : List derivations.Claim) → option_map places_of o ≡ places_in (plain.functions_row (context_of ctx.now) (shape_of left.now) (shape_of right.now)) claims) }
{
    match left {
        Shape::Fun(_, _) => match right {
            Shape::Fun(takes, _) => {
                let first = types(ctx)?;
                let second = types_under(alloc, ctx, Bind::Var((**takes).clone()?))?;
                let spots = two(alloc, first, second)?;
                Ok(Some(spots))
            }
            _ => Ok(None),
        },
        _ => Ok(None),
    }
}

// The places of the bounds and of what type functions give, if they have one bound.
fn type_functions(
    alloc: Global,
    ctx: &Ctx,
    left: &Shape,
    right: &Shape,
) -> Result<Option<Spots>, AllocError>
    ensures { IfOk result (λ o. (claims : List derivations.Claim) → option_map places_of o ≡ places_in (plain.type_functions_row (context_of ctx.now) (shape_of left.now) (shape_of right.now)) claims) }
{
    match left {
        Shape::TFun(bound, _) => match right {
            Shape::TFun(other, _) => {
                if !same_shape(bound, other) {
                    return Ok(None);
                }
                let first = shapes(ctx)?;
                let second = types_under(alloc, ctx, Bind::TVar(bound.clone()?))?;
                let spots = two(alloc, first, second)?;
                Ok(Some(spots))
            }
            _ => Ok(None),
        },
        _ => Ok(None),
    }
}

// The place of the contents of boxes.
fn boxes(alloc: Global, ctx: &Ctx, left: &Shape, right: &Shape) -> Result<Option<Spots>, AllocError>
    ensures { IfOk result (λ o. (claims : List derivations.Claim) → option_map places_of o ≡ places_in (plain.boxes_row (context_of ctx.now) (shape_of left.now) (shape_of right.now)) claims) }
{
    match left {
        Shape::Boxed(_) => match right {
            Shape::Boxed(_) => {
                let first = types(ctx)?;
                let spots = one(alloc, first)?;
                Ok(Some(spots))
            }
            _ => Ok(None),
        },
        _ => Ok(None),
    }
}

// The two places of a comparison by way of a third shape.
fn chain(alloc: Global, ctx: &Ctx) -> Result<Option<Spots>, AllocError>
    ensures { IfOk result (λ o. option_map places_of o ≡ Some (plain.ShapesBelow (context_of ctx.now) ∷ plain.ShapesBelow (context_of ctx.now) ∷ [])) }
{
    let first = shapes(ctx)?;
    let second = shapes(ctx)?;
    let spots = two(alloc, first, second)?;
    Ok(Some(spots))
}

/// The places of the premises of a comparison of shapes by the rule, if the rule is one for its sides. Fails only for
/// want of memory.
pub fn shape_places(
    alloc: Global,
    ctx: &Ctx,
    rule: Rule,
    left: &Shape,
    right: &Shape,
) -> Result<Option<Spots>, AllocError>
    ensures { IfOk result (λ o. (claims : List derivations.Claim) → option_map places_of o ≡ places_in (plain.shape_row (context_of ctx.now) (rule_of rule) (shape_of left.now) (shape_of right.now)) claims) }
{
    match rule {
        Rule::ByReflexivity => Ok(Some(Spots::End)),
        Rule::ByTransitivity => chain(alloc, ctx),
        Rule::ByTypeVariable => Ok(Some(Spots::End)),
        Rule::ByTop => Ok(Some(Spots::End)),
        Rule::ByFunction => functions(alloc, ctx, left, right),
        Rule::ByTypeFunction => type_functions(alloc, ctx, left, right),
        Rule::ByBox => boxes(alloc, ctx, left, right),
        _ => Ok(None),
    }
}

/// The places of the premises of a comparison of types by the rule, if the rule is one for types. Fails only for want of
/// memory.
pub fn type_places(alloc: Global, ctx: &Ctx, rule: Rule) -> Result<Option<Spots>, AllocError>
    ensures { IfOk result (λ o. (left right : CapturingType) (claims : List derivations.Claim) → option_map places_of o ≡ places_in (plain.type_row (context_of ctx.now) (rule_of rule) left right) claims) }
{
    match rule {
        Rule::ByCapturing => {
            let first = sets(ctx)?;
            let second = shapes(ctx)?;
            let spots = two(alloc, first, second)?;
            Ok(Some(spots))
        }
        _ => Ok(None),
    }
}

/// Whether there are as many places as premises.
pub fn are_as_many(spots: &Spots, premises: &Premises) -> bool
    ensures { result ≡ are_as_many (places_of spots.now) (claims_of (premises_of premises.now)) }
{
    let mut places = spots;
    let mut left = premises;
    while let Spots::More(_, others) = places {
        match left {
            Premises::End => return false,
            Premises::More(_, rest) => {
                places = &**others;
                left = &**rest;
            }
        }
    }
    match left {
        Premises::End => true,
        Premises::More(_, _) => false,
    }
}

/// The same place once more. Fails only for want of memory.
pub fn same_place(spot: &Spot) -> Result<Spot, AllocError>
    ensures { IfOk result (λ s. place_of s ≡ place_of spot.now) }
{
    match spot {
        Spot::Nowhere => Ok(Spot::Nowhere),
        Spot::TypeOf(ctx, term, entries) => typing_read(ctx, term, *entries),
        Spot::Sets(ctx) => sets(ctx),
        Spot::Shapes(ctx) => shapes(ctx),
        Spot::Types(ctx) => types(ctx),
    }
}
