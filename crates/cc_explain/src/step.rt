//! A step of a path.

use crate::target::Target;

/// The first step of a path to a target: how many steps the path has, and where the first one leads.
#[derive(Clone, Copy)]
pub struct Step {
    pub length: u64,
    pub next: Target,
}
