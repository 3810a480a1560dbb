ghost use Rattle.cc_graph.specs.GraphLaws.{ReachingIsDecided, ReachingIsTransitive, CyclesAreSelfReach, ReachingEndsInAnImport, OrdersExist, OrdersAreUnique, OrdersListPresentModules, OrdersPutImportsFirst};

/// The test of reaching says yes exactly where there is a path.
pub fn reaching_is_decided()
    ensures { ReachingIsDecided }
{}

/// What is reached from what is reached is reached.
pub fn reaching_is_transitive()
    ensures { ReachingIsTransitive }
{}

/// A module is in a cycle exactly where it reaches itself.
pub fn cycles_are_self_reach()
    ensures { CyclesAreSelfReach }
{}

/// What is reached is imported by the module itself or by one that it reaches.
pub fn reaching_ends_in_an_import()
    ensures { ReachingEndsInAnImport }
{}

/// There is an order.
pub fn orders_exist()
    ensures { OrdersExist }
{}

/// There is at most one order.
pub fn orders_are_unique()
    ensures { OrdersAreUnique }
{}

/// An order lists each present module, and nothing else, and no name twice.
pub fn orders_list_present_modules()
    ensures { OrdersListPresentModules }
{}

/// An imported module that is present and does not reach back comes before the one that imports it.
pub fn orders_put_imports_first()
    ensures { OrdersPutImportsFirst }
{}
