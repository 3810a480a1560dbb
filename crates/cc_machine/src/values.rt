//! Values with their types.
use cc_core::{Node, Ty};
use std::rc::Rc;

/// A value with its declared type. Its free variables are positions of the program's store.
#[derive(Drop)]
pub struct TypedValue {
    pub value: Rc<Node>,
    pub ty: Ty,
}
