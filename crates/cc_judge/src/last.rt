//! What is known of the modules that were judged last.

ghost use Rattle.std.specs.Prelude.{◌≡◌, []};

use crate::grounds::Grounds;
use crate::importing::KnownGraph;
use cc_base::name::Name;
use cc_module::judgement::ModuleVerdict;
use std::alloc::Global;
use std::rc::Rc;

/// The names and verdicts of the modules that were judged last, in order of name, and what each was judged by; and their
/// import graph.
#[derive(Drop)]
pub struct Last {
    pub verdicts: Vec<(Name, ModuleVerdict)>,
    pub grounds: Vec<Grounds>,
    pub(crate) graph: Option<Rc<KnownGraph>>,
}

impl Last {
    /// No modules. It takes no memory.
    pub fn new(alloc: Global) -> Last
        ensures verdicts { result.verdicts.items ≡ [] }
        ensures grounds { result.grounds.items ≡ [] }
    {
        Last {
            verdicts: Vec::new(alloc),
            grounds: Vec::new(alloc),
            graph: None,
        }
    }
}
