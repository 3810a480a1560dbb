//! An import graph, with the modules that it was made of.

ghost use Rattle.std.specs.Prelude.{◌≡◌};
ghost use Rattle.cc_judge.specs.KnownGraphs.{entries_of};

use cc_base::name::Name;
use cc_graph::imports::ImportGraph;

/// A module with the names of the modules that it imports from.
#[derive(Drop)]
pub struct Importing {
    pub name: Name,
    pub sources: Vec<Name>,
}

/// An import graph, with the modules that it was made of.
#[derive(Drop)]
pub struct KnownGraph {
    pub modules: Vec<Importing>,
    pub graph: ImportGraph,
    pub ghost is: { graph ≡ entries_of modules.items },
}
