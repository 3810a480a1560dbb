ghost use Rattle.std.specs.Prelude.{◌≡◌, ◌⊎◌};
ghost use Rattle.cc_core.specs.Leaves.{is_leaf};
ghost use Rattle.cc_core.specs.declared.types.Shape.TheVariants.{Any};

use cc_base::literal::Base;
use cc_capture::{CapSet, Var};
use std::alloc::AllocFailed;
use std::rc::Rc;

/// The shape of a type. Parts are shared.
#[cycle(shapes)]
pub enum Shape {
    /// A base shape: that of a literal or of a device.
    Base(Base),
    /// The greatest shape.
    Any,
    /// A type variable.
    TVar(Var),
    /// Functions from the first type to the second, in which the index 0 is the argument.
    Fun(Rc<Ty>, Rc<Ty>),
    /// Type functions over the shapes below the bound, with results of the type, in which the index 0 is the shape.
    TFun(Rc<Shape>, Rc<Ty>),
    /// Boxes of values of the type.
    Boxed(Rc<Ty>),
    /// Exits of a boundary that gives values of the shape.
    Exit(Rc<Shape>),
}

/// A type: a shape, and the set of what its values may capture.
#[cycle(shapes)]
#[derive(Drop)]
pub struct Ty {
    pub shape: Rc<Shape>,
    pub set: CapSet,
}

impl Shape {
    // Whether the shape has no parts.
    fn is_leaf(&self) -> bool
        ensures { result ≡ is_leaf self.now }
    {
        match self {
            Shape::Base(_) => true,
            Shape::Any => true,
            Shape::TVar(_) => true,
            Shape::Fun(_, _) => false,
            Shape::TFun(_, _) => false,
            Shape::Boxed(_) => false,
            Shape::Exit(_) => false,
        }
    }
}

// The shape, where nothing else holds it, and else one with no parts.
fn last_shape(shape: Rc<Shape>) -> Shape
    ensures { (result ≡ shape.value) ⊎ (result ≡ Any) }
{
    match Rc::into_inner(shape) {
        Some(inner) => inner,
        None => Shape::Any,
    }
}

// The shape of the type, where nothing else holds it, and else one with no parts.
fn last_content(ty: Rc<Ty>) -> Shape
    ensures { (result ≡ ty.value.shape.value) ⊎ (result ≡ Any) }
{
    match Rc::into_inner(ty) {
        Some(Ty { shape, set }) => {
            drop(set);
            last_shape(shape)
        }
        None => Shape::Any,
    }
}

// Whether dropping the type drops parts of its shape.
fn holds_parts(ty: &Rc<Ty>) -> bool {
    Rc::strong_count(ty) == 1 && Rc::strong_count(&ty.shape) == 1 && !ty.shape.is_leaf()
}

// Parts of parts are dropped by a loop. What waits is held by shapes of type functions, each round those before it, which
// take memory only where two parts of one shape have parts.
impl Drop for Shape {
    fn drop(mut self) {
        let mut waiting = Shape::Any;
        loop {
            match self {
                Shape::Base(_) | Shape::Any | Shape::TVar(_) => {
                    if waiting.is_leaf() {
                        self = waiting;
                        break;
                    }
                    self = waiting;
                    waiting = Shape::Any;
                }
                Shape::Exit(shape) => self = last_shape(shape),
                Shape::Boxed(ty) => self = last_content(ty),
                Shape::Fun(from, to) => {
                    if !holds_parts(&to) {
                        drop(last_content(to));
                        self = last_content(from);
                        continue;
                    }
                    if !holds_parts(&from) {
                        drop(last_content(from));
                        self = last_content(to);
                        continue;
                    }
                    match Rc::new(to.set.allocator(), waiting) {
                        Ok(others) => {
                            waiting = Shape::TFun(others, from);
                            self = last_content(to);
                        }
                        Err(AllocFailed { value }) => {
                            waiting = value;
                            drop(last_content(from));
                            self = last_content(to);
                        }
                    }
                }
                Shape::TFun(bound, to) => {
                    if waiting.is_leaf() {
                        waiting = last_shape(bound);
                        self = last_content(to);
                        continue;
                    }
                    match Rc::new(to.set.allocator(), waiting) {
                        Ok(others) => {
                            waiting = Shape::TFun(others, to);
                            self = last_shape(bound);
                        }
                        Err(AllocFailed { value }) => {
                            waiting = value;
                            drop(last_content(to));
                            self = last_shape(bound);
                        }
                    }
                }
            }
        }
        match self {
            Shape::Base(_) | Shape::Any | Shape::TVar(_) => {}
            _ => unreachable!(),
        }
    }
}
