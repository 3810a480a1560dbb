//! What the functions in a term capture, found once for all of them. Each call fails only for want of memory.

ghost use Rattle.std.specs.Prelude.{◌≡◌, ℕ, ◌+◌, ◌<◌, ◌≤◌, ◌∷◌, Some, IfOk, IfSome, MatchOption, if◌then◌else◌, ◌⊎◌};
ghost use Rattle.cc_capture.specs.Sets.{union};
ghost use Rattle.cc_core.specs.Captured as plain;
ghost use Rattle.cc_core.specs.Captured.{captured_variables};
ghost use Rattle.cc_core.specs.Terms.{Term, Note, Let, Conditional};
ghost use Rattle.cc_core.specs.TermViews.{term_of};
ghost use Rattle.cc_validity.specs.Captures.{body_in, parts_in, Tells, Tells-prop};
ghost use Rattle.cc_validity.specs.declared.captures.Captures.{Captures};
ghost use Rattle.cc_validity.specs.declared.captures.Captures.TheVariants.{Unknown};
ghost use Rattle.cc_validity.specs.DroppedCaptures.{turns, turns_waiting, NoneLarger};
ghost use Rattle.cc_validity.specs.Gathering.{IsFound, in_turn, Descends, TakesTurn};

use cc_capture::{CapSet, Elem, Var};
use cc_captured::captured::{cv, is_value, without_binder};
use cc_core::{Form, Node};
use std::alloc::{AllocError, Global};
use std::mem;
use std::rc::Rc;

/// What is known of what the functions in a term capture.
#[cycle(captures)]
pub enum Captures {
    /// Nothing.
    Unknown,
    /// What a function, a type function or a boundary captures, and what is known of its body.
    Body(CapSet, Rc<Captures>),
    /// What is known of the right side and the body of a let, or of the branches of a choice.
    Parts(Rc<Captures>, Rc<Captures>),
}

// What no one else holds; else nothing.
fn owned(captures: Rc<Captures>) -> Captures
    ensures { (result ≡ captures.value) ⊎ (result ≡ Unknown) }
{
    match Rc::into_inner(captures) {
        Some(inner) => inner,
        None => Captures::Unknown,
    }
}

impl Captures {
    // Of what waits to be dropped, each beside the others, the first and the others, if there is something.
    fn next(self) -> Option<(Captures, Captures)>
        ensures fewer { MatchOption result (self ≡ Unknown) (λ parts. turns parts.0 + turns_waiting parts.1 < turns_waiting self) }
        ensures no_larger { IfSome result (λ parts. (size : Captures → ℕ) → (limit : ℕ) → size Unknown ≤ limit → NoneLarger size limit self → (size parts.0 ≤ limit) × NoneLarger size limit parts.1) }
    {
        match self {
            Captures::Unknown => None,
            Captures::Body(set, body) => {
                drop(set);
                Some((owned(body), Captures::Unknown))
            }
            Captures::Parts(first, others) => Some((owned(first), owned(others))),
        }
    }
}

// What is known is dropped by a loop, and takes neither stack nor memory for it. What waits is held by what is dropped:
// where no one else holds a second part, the first one waits in front of the others in the place of that part, which is
// gone over first.
impl Drop for Captures {
    #[cycle(drops)]
    fn drop(mut self) {
        let mut waiting = Captures::Unknown;
        loop {
            match self {
                Captures::Unknown => match waiting.next() {
                    None => return,
                    Some((first, others)) => {
                        self = first;
                        waiting = others;
                    }
                },
                Captures::Body(set, body) => {
                    drop(set);
                    self = owned(body);
                }
                Captures::Parts(first, mut second) => match Rc::get_mut(&mut second) {
                    Some(place) => {
                        self = mem::replace(place, waiting);
                        waiting = Captures::Parts(first, second);
                    }
                    None => {
                        drop(second);
                        self = owned(first);
                    }
                },
            }
        }
    }
}

/// A term, with what is known of what the functions in it capture.
#[derive(Drop)]
pub struct KnownTerm {
    pub node: Rc<Node>,
    pub captures: Rc<Captures>,
    pub ghost told: { Tells captures.value (term_of node.value) } by { Tells-prop captures.value (term_of node.value) },
}

// What is found for a term: what it captures, and what the functions in it do.
#[derive(Drop)]
struct Found {
    set: CapSet,
    captures: Captures,
}

// The term, of which this is known.
fn told(node: &Rc<Node>, captures: &Rc<Captures>) -> Result<KnownTerm, AllocError>
    requires { Tells captures.now.value (term_of node.now.value) }
    ensures { IfOk result (λ t. term_of t.node.value ≡ term_of node.now.value) }
{
    let node = node.clone()?;
    let captures = captures.clone()?;
    Ok(KnownTerm { node, captures })
}

/// The term, of which nothing is known.
pub fn unknown(alloc: Global, node: &Rc<Node>) -> Result<KnownTerm, AllocError>
    ensures { IfOk result (λ t. term_of t.node.value ≡ term_of node.now.value) }
{
    let captures = Rc::new(alloc, Captures::Unknown)?;
    told(node, &captures)
}

/// The node, of which nothing is known. Where nothing is known of the term either, that is shared.
pub fn unknown_beside(
    alloc: Global,
    term: &KnownTerm,
    node: &Rc<Node>,
) -> Result<KnownTerm, AllocError>
    ensures { IfOk result (λ t. term_of t.node.value ≡ term_of node.now.value) }
{
    match &*term.captures {
        Captures::Unknown => told(node, &term.captures),
        _ => unknown(alloc, node),
    }
}

/// The same term once more, with what is known of it.
pub fn same_term(term: &KnownTerm) -> Result<KnownTerm, AllocError>
    ensures { IfOk result (λ t. term_of t.node.value ≡ term_of term.now.node.value) }
{
    told(&term.node, &term.captures)
}

// What is found for a term with the body, of what is found for the body.
fn found_around(alloc: Global, body: Found) -> Result<Found, AllocError>
    ensures { IfOk result (λ f. (term : Term) → (inner : Term) → body_in term ≡ Some inner → IsFound body inner → IsFound f term) }
{
    let set = without_binder(alloc, &body.set)?;
    let own = set.clone()?;
    let captures = Captures::Body(own, Rc::new(alloc, body.captures)?);
    Ok(Found { set, captures })
}

// Whether nothing is known.
fn is_unknown(captures: &Captures) -> bool {
    match captures {
        Captures::Unknown => true,
        _ => false,
    }
}

// What is known of a term with two parts, of which this is known.
fn beside(alloc: Global, first: Captures, second: Captures) -> Result<Captures, AllocError>
    ensures { IfOk result (λ c. (term : Term) → IfSome (parts_in term) (λ parts. Tells first parts.0 × Tells second parts.1) → Tells c term) }
{
    if is_unknown(&first) && is_unknown(&second) {
        return Ok(Captures::Unknown);
    }
    Ok(Captures::Parts(Rc::new(alloc, first)?, Rc::new(alloc, second)?))
}

// What a let captures, by what its right side and its body do.
fn let_set(
    alloc: Global,
    right: &Node,
    first: &CapSet,
    second: &CapSet,
) -> Result<CapSet, AllocError>
    ensures { IfOk result (λ s. s ≡ (if plain.is_unused_value (term_of right.now) second.now then plain.without_binder second.now else union first.now (plain.without_binder second.now))) }
{
    let outer = without_binder(alloc, second)?;
    if is_value(right) && !second.contains(Elem::Var(Var::Bound(0))) {
        return Ok(outer);
    }
    first.union(alloc, &outer)
}

// What a choice captures, by what its branches do.
fn choice_set(
    alloc: Global,
    test: Var,
    positive: &CapSet,
    negative: &CapSet,
) -> Result<CapSet, AllocError>
    ensures { IfOk result (λ s. s ≡ union (plain.variable_set test) (union positive.now negative.now)) }
{
    let mut set = positive.union(alloc, negative)?;
    set.insert(Elem::Var(test))?;
    Ok(set)
}

// What is found for a let, of what is found for its parts.
fn found_let(alloc: Global, right: &Node, first: Found, second: Found) -> Result<Found, AllocError>
    ensures { IfOk result (λ f. (note : Note) → (body : Term) → IsFound first (term_of right.now) → IsFound second body → IsFound f (Let note (term_of right.now) body)) }
{
    let set = let_set(alloc, right, &first.set, &second.set)?;
    let captures = beside(alloc, first.captures, second.captures)?;
    Ok(Found { set, captures })
}

// What is found for a choice, of what is found for its branches.
fn found_choice(alloc: Global, test: Var, first: Found, second: Found) -> Result<Found, AllocError>
    ensures { IfOk result (λ f. (note : Note) → (positive : Term) → (negative : Term) → IsFound first positive → IsFound second negative → IsFound f (Conditional note test positive negative)) }
{
    let set = choice_set(alloc, test, &first.set, &second.set)?;
    let captures = beside(alloc, first.captures, second.captures)?;
    Ok(Found { set, captures })
}

// What is found for a term whose functions are not looked for.
fn found_alone(alloc: Global, node: &Node) -> Result<Found, AllocError>
    ensures { IfOk result (λ f. IsFound f (term_of node.now)) }
{
    let set = cv(alloc, node)?;
    Ok(Found {
        set,
        captures: Captures::Unknown,
    })
}

// What is found for a let or a choice, of what is found for its two parts.
fn found_of_parts(
    alloc: Global,
    node: &Node,
    first: Found,
    second: Found,
) -> Result<Found, AllocError>
    ensures { IfOk result (λ f. (one : Term) → (other : Term) → parts_in (term_of node.now) ≡ Some (one, other) → IsFound first one → IsFound second other → IsFound f (term_of node.now)) }
{
    match &node.form {
        Form::Let(_, right, _) => found_let(alloc, right, first, second),
        Form::If(_, test, _, _) => found_choice(alloc, *test, first, second),
        _ => found_alone(alloc, node),
    }
}

// A term that waits for what is found for a part of it.
#[derive(Drop)]
enum Waiting<'a> {
    // A function, a type function or a boundary, for its body.
    Body(&'a Node),
    // A let or a choice, for its first part. The second is still to be gone over.
    First(&'a Node, &'a Rc<Node>),
    // A let or a choice, for its second part. This was found for the first.
    Second(&'a Node, Found),
}

// What is found for a term. The set of each part is found once. What stands round a part waits in a list, so that a high
// term takes no more of the stack than a low one.
fn gathered(alloc: Global, node: &Node) -> Result<Found, AllocError>
    ensures { IfOk result (λ f. IsFound f (term_of node.now)) }
{
    let mut waiting = Vec::new(alloc);
    let mut found = descend(alloc, &mut waiting, node)?;
    while let Some(next) = waiting.pop() {
        found = take_turn(alloc, &mut waiting, next, found)?;
    }
    Ok(found)
}

// Goes down in the term to its first part whose own parts are not looked for. What stands round that waits. Gives what is
// found for it.
fn descend<'a>(
    alloc: Global,
    waiting: &mut Vec<Waiting<'a>>,
    node: &'a Node,
) -> Result<Found, AllocError>
    ensures { IfOk result (λ f. Descends (term_of node.now) (in_turn waiting.old.items) (in_turn waiting.new.items) f) }
{
    let mut inner = node;
    loop {
        match &inner.form {
            Form::Fun(_, body) => {
                waiting.push(Waiting::Body(inner))?;
                inner = body;
            }
            Form::TFun(_, body) => {
                waiting.push(Waiting::Body(inner))?;
                inner = body;
            }
            Form::Boundary(_, body) => {
                waiting.push(Waiting::Body(inner))?;
                inner = body;
            }
            Form::Let(_, right, body) => {
                waiting.push(Waiting::First(inner, body))?;
                inner = right;
            }
            Form::If(_, _, positive, negative) => {
                waiting.push(Waiting::First(inner, negative))?;
                inner = positive;
            }
            _ => return found_alone(alloc, inner),
        }
    }
}

// Goes on with what waits last, where this was found for the part that it waits for. Gives what is found for the next one.
fn take_turn<'a>(
    alloc: Global,
    waiting: &mut Vec<Waiting<'a>>,
    next: Waiting<'a>,
    found: Found,
) -> Result<Found, AllocError>
    ensures { IfOk result (λ f. TakesTurn (next.entry ∷ in_turn waiting.old.items) found (in_turn waiting.new.items) f) }
{
    match next {
        Waiting::Body(_) => found_around(alloc, found),
        Waiting::First(node, second) => {
            waiting.push(Waiting::Second(node, found))?;
            descend(alloc, waiting, second)
        }
        Waiting::Second(node, first) => found_of_parts(alloc, node, first, found),
    }
}

// The term, with all that its functions capture.
fn known(alloc: Global, node: &Rc<Node>) -> Result<KnownTerm, AllocError>
    ensures { IfOk result (λ t. term_of t.node.value ≡ term_of node.now.value) }
{
    let whole = gathered(alloc, node)?;
    let captures = Rc::new(alloc, whole.captures)?;
    told(node, &captures)
}

/// The body of a function, a type function or a boundary. What the functions in it capture is found where it is not
/// known.
pub fn body_of(alloc: Global, term: &KnownTerm, body: &Rc<Node>) -> Result<KnownTerm, AllocError>
    requires { body_in (term_of term.now.node.value) ≡ Some (term_of body.now.value) }
    ensures { IfOk result (λ t. term_of t.node.value ≡ term_of body.now.value) }
{
    match &*term.captures {
        Captures::Body(_, inner) => told(body, inner),
        _ => known(alloc, body),
    }
}

/// The first part of a let or a choice: the right side, or the branch for true.
pub fn first_of(
    alloc: Global,
    term: &KnownTerm,
    first: &Rc<Node>,
    second: &Rc<Node>,
) -> Result<KnownTerm, AllocError>
    requires { parts_in (term_of term.now.node.value) ≡ Some (term_of first.now.value, term_of second.now.value) }
    ensures { IfOk result (λ t. term_of t.node.value ≡ term_of first.now.value) }
{
    match &*term.captures {
        Captures::Parts(own, _) => told(first, own),
        _ => unknown_beside(alloc, term, first),
    }
}

/// The second part of a let or a choice: the body, or the branch for false.
pub fn second_of(
    alloc: Global,
    term: &KnownTerm,
    first: &Rc<Node>,
    second: &Rc<Node>,
) -> Result<KnownTerm, AllocError>
    requires { parts_in (term_of term.now.node.value) ≡ Some (term_of first.now.value, term_of second.now.value) }
    ensures { IfOk result (λ t. term_of t.node.value ≡ term_of second.now.value) }
{
    match &*term.captures {
        Captures::Parts(_, own) => told(second, own),
        _ => unknown_beside(alloc, term, second),
    }
}

/// What the term captures.
pub fn captured_by(alloc: Global, term: &KnownTerm) -> Result<CapSet, AllocError>
    ensures { IfOk result (λ s. s ≡ captured_variables (term_of term.now.node.value)) }
{
    match &*term.captures {
        Captures::Body(set, _) => set.clone(),
        _ => {
            let whole = gathered(alloc, &term.node)?;
            Ok(whole.set)
        }
    }
}
