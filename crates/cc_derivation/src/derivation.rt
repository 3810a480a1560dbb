ghost use Rattle.std.specs.Prelude.{◌≡◌, ◌⊎◌};
ghost use Rattle.cc_derivation.specs.declared.derivation.Premises.TheVariants.{End};

use cc_capture::CapSet;
use cc_core::{Shape, Ty};
use std::mem;
use std::rc::Rc;

/// The rules by which a set, a shape and a type is below another, and those by which a term has a type.
#[derive(Clone, Copy, Debug, PartialEq, Eq)]
pub enum Rule {
    /// The set of an element is below a set that has it.
    ByElement,
    /// The set of a variable is below a set that its declared set is below.
    ByVariable,
    /// A set is below another that the set of each of its elements is below.
    BySet,
    /// A shape is below itself.
    ByReflexivity,
    /// A shape is below another by way of a third.
    ByTransitivity,
    /// A type variable is below its bound.
    ByTypeVariable,
    /// A shape is below the greatest one.
    ByTop,
    /// Functions, by what they take and give.
    ByFunction,
    /// Type functions of one bound, by what they give.
    ByTypeFunction,
    /// Boxes, by their contents.
    ByBox,
    /// A type is below another where its set is and its shape is.
    ByCapturing,
    /// A variable.
    Variable,
    /// A literal.
    Literal,
    /// A function.
    Function,
    /// A type function.
    TypeFunction,
    /// A function applied to a variable.
    Application,
    /// A type function applied to a shape.
    TypeApplication,
    /// A box of a variable.
    Boxing,
    /// The content of a box.
    Unboxing,
    /// A term whose value is named in a body.
    Let,
    /// An operator on two numbers.
    Primitive,
    /// One of two terms.
    Choice,
    /// So many calls of a function.
    Repetition,
    /// An operation of a device.
    Operation,
    /// A body that may be left through an exit.
    Boundary,
    /// Leaving a boundary.
    Exit,
    /// A term has each well-formed type above its own.
    Subsumption,
}

/// What a node concludes.
#[derive(Drop)]
pub enum Claim {
    /// The term has the type.
    Typed(Ty),
    /// The first type is below the second.
    TypeBelow(Ty, Ty),
    /// The first shape is below the second.
    ShapeBelow(Rc<Shape>, Rc<Shape>),
    /// The first set is below the second.
    SetBelow(CapSet, CapSet),
}

/// A list of derivations, in order.
#[cycle(derivations)]
#[derive(Drop)]
pub enum Premises {
    /// There is none, or none that is left.
    End,
    /// One, and those behind it.
    More(Rc<Der>, Rc<Premises>),
}

/// A derivation: its last node, with the derivations of its premises. Equal ones may be shared.
#[cycle(derivations)]
pub struct Der {
    pub rule: Rule,
    pub claim: Claim,
    pub premises: Premises,
}

impl Der {
    // The premises. The rest is dropped.
    fn into_premises(self) -> Premises
        ensures { result ≡ self.premises }
    {
        let Der {
            rule: _,
            claim,
            premises,
        } = self;
        drop(claim);
        premises
    }
}

// The premises of a derivation that no one else holds; else none.
fn owned_premises(der: Rc<Der>) -> Premises
    ensures { (result ≡ der.value.premises) ⊎ (result ≡ End) }
{
    match Rc::into_inner(der) {
        Some(der) => der.into_premises(),
        None => Premises::End,
    }
}

// The list, where no one else holds it; else none.
fn owned_list(list: Rc<Premises>) -> Premises
    ensures { (result ≡ list.value) ⊎ (result ≡ End) }
{
    match Rc::into_inner(list) {
        Some(list) => list,
        None => Premises::End,
    }
}

// Derivations are dropped by a loop, and take neither stack nor memory for it. What waits is held by the lists that are
// dropped: where no one else holds the rest of a list, its first derivation waits in front of the others in the place of
// that rest, and the rest is gone over first.
impl Drop for Der {
    #[cycle(drops)]
    fn drop(self) {
        let mut left = self.into_premises();
        let mut waiting = Premises::End;
        loop {
            match left {
                Premises::End => match waiting {
                    Premises::End => return,
                    Premises::More(first, others) => {
                        left = owned_premises(first);
                        waiting = owned_list(others);
                    }
                },
                Premises::More(first, mut rest) => match Rc::get_mut(&mut rest) {
                    Some(place) => {
                        left = mem::replace(place, waiting);
                        waiting = Premises::More(first, rest);
                    }
                    None => {
                        drop(rest);
                        left = owned_premises(first);
                    }
                },
            }
        }
    }
}
