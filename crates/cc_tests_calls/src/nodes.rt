// What the tests make their terms and derivations with.
use cc_base::place::Place;
use cc_capture::{CapSet, Elem, Var};
use cc_core::{Base, Ctx, Form, Node, Note, Shape, Ty};
use cc_derivation::{Claim, Der, Premises, Rule, node_count};
use cc_validity::{ValidityError, valid};
use std::alloc::{AllocError, Global};
use std::rc::Rc;

// The least number of a node that breaks its rule, or 0 where there is none.
pub fn judged(alloc: Global, ctx: &Ctx, term: &Rc<Node>, der: &Rc<Der>) -> Result<u32, AllocError> {
    if node_count(der) > 4_294_967_295 {
        return Err(AllocError);
    }
    match valid(alloc, ctx, term, der) {
        Ok(()) => Ok(0),
        Err(ValidityError::BadNode { number }) => Ok(number),
        Err(ValidityError::NoMemory) => Err(AllocError),
    }
}

// The term of the form, somewhere.
pub fn term(alloc: Global, form: Form) -> Result<Rc<Node>, AllocError> {
    let at = Place { line: 1, col: 1 };
    let node = Node {
        form,
        at,
        first: at,
        second: at,
    };
    Ok(Rc::new(alloc, node)?)
}

// The type of the shape and the elements.
pub fn type_of(alloc: Global, shape: Shape, elems: &[Elem]) -> Result<Ty, AllocError> {
    let shape = Rc::new(alloc, shape)?;
    let set = CapSet::from_elems(alloc, elems)?;
    Ok(Ty { shape, set })
}

// Units with the elements.
pub fn unit(alloc: Global, elems: &[Elem]) -> Result<Ty, AllocError> {
    type_of(alloc, Shape::Base(Base::Unit), elems)
}

// No premises.
pub fn none() -> Premises {
    Premises::End
}

// One premise before the others.
pub fn more(alloc: Global, first: Rc<Der>, rest: Premises) -> Result<Premises, AllocError> {
    Ok(Premises::More(first, Rc::new(alloc, rest)?))
}

// A node.
pub fn node(
    alloc: Global,
    rule: Rule,
    premises: Premises,
    claim: Claim,
) -> Result<Rc<Der>, AllocError> {
    let der = Der {
        rule,
        claim,
        premises,
    };
    Ok(Rc::new(alloc, der)?)
}

// A node without premises that claims the type.
pub fn leaf(alloc: Global, rule: Rule, ty: Ty) -> Result<Rc<Der>, AllocError> {
    node(alloc, rule, none(), Claim::Typed(ty))
}

// A node with one premise.
pub fn over(
    alloc: Global,
    rule: Rule,
    first: Rc<Der>,
    claim: Claim,
) -> Result<Rc<Der>, AllocError> {
    let premises = more(alloc, first, none())?;
    node(alloc, rule, premises, claim)
}

// A node with two premises.
pub fn over_both(
    alloc: Global,
    rule: Rule,
    first: Rc<Der>,
    second: Rc<Der>,
    claim: Claim,
) -> Result<Rc<Der>, AllocError> {
    let premises = more(alloc, second, none())?;
    let premises = more(alloc, first, premises)?;
    node(alloc, rule, premises, claim)
}
