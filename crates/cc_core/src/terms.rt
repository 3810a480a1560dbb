ghost use Rattle.std.specs.Prelude.{◌≡◌, ◌⊎◌, ℕ, ◌+◌, ◌<◌, ◌≤◌, IfSome};
ghost use Rattle.cc_core.specs.DroppedTerms.{no_parts, turns, turns_waiting, NoneLarger};

use crate::types::{Shape, Ty};
use cc_base::literal::{Lit, Op, Operator};
use cc_base::name::Name;
use cc_base::place::Place;
use cc_capture::{CapSet, Var};
use std::mem;
use std::rc::Rc;

/// The type that is written at a term, if one is.
#[derive(Drop)]
pub enum Note {
    /// None is written.
    Absent,
    /// A type.
    Written(Rc<Ty>),
    /// A shape alone: the set is the term's own.
    Own(Rc<Shape>),
}

/// What a term does. Heads and operands are variables. The last part of `Fun`, `TFun`, `Let` and `Boundary` stands
/// under a binder, which is its index 0.
#[cycle(terms)]
#[derive(Drop)]
pub enum Form {
    /// A variable.
    Var(Var),
    /// A literal.
    Lit(Lit),
    /// A function: the type that it takes, and its body.
    Fun(Rc<Ty>, Rc<Node>),
    /// A type function: the bound of what it takes, and its body.
    TFun(Rc<Shape>, Rc<Node>),
    /// A box of a variable.
    Boxed(Var),
    /// A function applied to a variable.
    App(Var, Var),
    /// A type function applied to a shape.
    TApp(Var, Rc<Shape>),
    /// The content of a box, with the set under which it is taken out, if one is written.
    Unbox(Option<CapSet>, Var),
    /// A term whose value is named in the body.
    Let(Note, Rc<Node>, Rc<Node>),
    /// An operator on two numbers.
    Prim(Operator, Var, Var),
    /// One of two terms, by a truth value.
    If(Note, Var, Rc<Node>, Rc<Node>),
    /// So many calls of a function on the numbers from 0.
    Repeat(Var, Var),
    /// An operation of a device, with its argument where it takes one.
    Operate(Op, Var, Option<Var>),
    /// A body that may be left through an exit, with the shape that the boundary gives.
    Boundary(Rc<Shape>, Rc<Node>),
    /// Leaving the boundary of an exit with a value. The type is what the term stands for where it is written.
    Leave(Rc<Ty>, Var, Var),
}

/// A term with the places of its start and of its operands.
#[cycle(terms)]
pub struct Node {
    pub form: Form,
    pub at: Place,
    pub first: Place,
    pub second: Place,
}

// A term with no parts, at no place.
fn no_parts() -> Node
    ensures { result ≡ no_parts }
{
    Node {
        form: Form::Var(Var::Free(0)),
        at: Place { line: 0, col: 0 },
        first: Place { line: 0, col: 0 },
        second: Place { line: 0, col: 0 },
    }
}

// The term, where no one else holds it, and else one with no parts.
fn owned(term: Rc<Node>) -> Node
    ensures { (result ≡ term.value) ⊎ (result ≡ no_parts) }
{
    match Rc::into_inner(term) {
        Some(inner) => inner,
        None => no_parts(),
    }
}

impl Node {
    // Of terms that wait to be dropped, each beside the others, the first and the others, if there is one.
    fn next(self) -> Option<(Node, Node)>
        ensures fewer { IfSome result (λ parts. turns parts.0.form + turns_waiting parts.1.form < turns_waiting self.form) }
        ensures no_larger { IfSome result (λ parts. (size : Node → ℕ) → (limit : ℕ) → size no_parts ≤ limit → NoneLarger size limit self.form → (size parts.0 ≤ limit) × NoneLarger size limit parts.1.form) }
    {
        let Node {
            form,
            at: _,
            first: _,
            second: _,
        } = self;
        match form {
            Form::Fun(ty, body) => {
                drop(ty);
                Some((owned(body), no_parts()))
            }
            Form::TFun(bound, body) => {
                drop(bound);
                Some((owned(body), no_parts()))
            }
            Form::Let(note, right, others) => {
                drop(note);
                Some((owned(right), owned(others)))
            }
            Form::If(note, _, positive, others) => {
                drop(note);
                Some((owned(positive), owned(others)))
            }
            Form::Boundary(gives, body) => {
                drop(gives);
                Some((owned(body), no_parts()))
            }
            Form::Var(_) => None,
            Form::Lit(_) => None,
            Form::Boxed(_) => None,
            Form::App(_, _) => None,
            Form::TApp(_, _) => None,
            Form::Unbox(_, _) => None,
            Form::Prim(_, _, _) => None,
            Form::Repeat(_, _) => None,
            Form::Operate(_, _, _) => None,
            Form::Leave(_, _, _) => None,
        }
    }
}

// Terms are dropped by a loop, and take neither stack nor memory for it. What waits is held by the terms that are
// dropped: where no one else holds the second of two parts, the first waits in front of the others in the place of the
// second, which is gone over first.
impl Drop for Node {
    fn drop(mut self) {
        let mut waiting = no_parts();
        loop {
            let Node {
                form,
                at,
                first,
                second,
            } = self;
            match form {
                Form::Fun(ty, body) => {
                    drop(ty);
                    self = owned(body);
                    continue;
                }
                Form::TFun(bound, body) => {
                    drop(bound);
                    self = owned(body);
                    continue;
                }
                Form::Let(note, right, mut body) => {
                    drop(note);
                    match Rc::get_mut(&mut body) {
                        Some(place) => {
                            self = mem::replace(place, waiting);
                            waiting = Node {
                                form: Form::Let(Note::Absent, right, body),
                                at,
                                first,
                                second,
                            };
                        }
                        None => {
                            drop(body);
                            self = owned(right);
                        }
                    }
                    continue;
                }
                Form::If(note, _test, positive, mut negative) => {
                    drop(note);
                    match Rc::get_mut(&mut negative) {
                        Some(place) => {
                            self = mem::replace(place, waiting);
                            waiting = Node {
                                form: Form::Let(Note::Absent, positive, negative),
                                at,
                                first,
                                second,
                            };
                        }
                        None => {
                            drop(negative);
                            self = owned(positive);
                        }
                    }
                    continue;
                }
                Form::Boundary(gives, body) => {
                    drop(gives);
                    self = owned(body);
                    continue;
                }
                Form::Var(_variable) => {}
                Form::Lit(literal) => drop(literal),
                Form::Boxed(_content) => {}
                Form::App(_function, _argument) => {}
                Form::TApp(_function, argument) => drop(argument),
                Form::Unbox(set, _box) => drop(set),
                Form::Prim(_operator, _left, _right) => {}
                Form::Repeat(_count, _function) => {}
                Form::Operate(_operation, _receiver, _argument) => {}
                Form::Leave(gives, _exit, _value) => drop(gives),
            }
            match waiting.next() {
                None => return,
                Some((next, others)) => {
                    self = next;
                    waiting = others;
                }
            }
        }
    }
}

/// A definition: its name, the type written for it, whether it is recursive, so that its right side sees its own name,
/// and the right side.
#[derive(Drop)]
pub struct CoreDef {
    pub name: Name,
    pub name_at: Place,
    pub note: Note,
    pub recursive: bool,
    pub right: Rc<Node>,
}

/// An accepted definition.
#[derive(Drop)]
pub struct Checked {
    /// The type that the right side was compared with, `Absent` where there is none, and never `Own`.
    pub note: Note,
    /// The right side with each omitted set filled in.
    pub filled: Rc<Node>,
    /// The type of the right side.
    pub ty: Ty,
    /// The type that others see, in which no name of a definition is left.
    pub sig: Ty,
}
