// What the tests make their terms with.
use cc_base::place::Place;
use cc_core::{Form, Node};
use std::alloc::{AllocError, Global};
use std::rc::Rc;

// A place of the line.
pub fn place(line: u32) -> Place {
    Place { line, col: 1 }
}

// The term at the place, which all three places are.
pub fn node_of(alloc: Global, at: Place, form: Form) -> Result<Rc<Node>, AllocError> {
    let node = Node {
        form,
        at,
        first: at,
        second: at,
    };
    Ok(Rc::new(alloc, node)?)
}
