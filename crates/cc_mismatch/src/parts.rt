//! Two shapes in a context.

use cc_core::{Ctx, Shape};
use std::rc::Rc;

/// What was found and what was wanted, as parts of shapes, with the context in which they are compared.
#[derive(Drop)]
pub struct Parts {
    pub ctx: Ctx,
    pub found: Rc<Shape>,
    pub wanted: Rc<Shape>,
}
