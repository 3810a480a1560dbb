//! The laws of entries, and of the order in which modules are linked. The functions do nothing.
ghost use Rattle.cc_entry_laws.specs.EntryLaws as law;
ghost use Rattle.cc_entry_laws.specs.LinkOrders.{ChosenOrdersAreLinkOrders, AcceptedModulesReachAccepted};
ghost use Rattle.cc_entry_laws.specs.LinkOrders.{AcceptedOrdersAreLinkOrders};
ghost use Rattle.cc_entry_laws.specs.LinkedModules.{LinkedModulesAreInOrder};

/// Modules that are chosen with all that they import, none of them in a cycle, stand in the order of the graph in the
/// order in which they are linked.
pub fn chosen_orders_are_link_orders()
    ensures { ChosenOrdersAreLinkOrders }
{}

/// An accepted module reaches accepted modules alone, and it is in no cycle.
pub fn accepted_modules_reach_accepted()
    ensures { AcceptedModulesReachAccepted }
{}

/// An accepted module stands with all that it reaches in the order of the graph in the order in which they are linked.
pub fn accepted_orders_are_link_orders()
    ensures { AcceptedOrdersAreLinkOrders }
{}

/// Modules of a program whose names are linked in order stand in order.
pub fn linked_modules_are_in_order()
    ensures { LinkedModulesAreInOrder }
{}

/// The entry of a definition of a present module has all that an entry has; there is one wherever there is a definition
/// that is run, and no other.
pub fn present_entries_are_entries()
    ensures entries { law.EntriesOfTextsAreEntries }
    ensures exist { law.EntriesOfTextsExist }
    ensures unique { law.EntriesOfTextsAreUnique }
{}

/// The definition that is run, and its entry, are the same by any two functions that give the verdicts of the present
/// modules.
pub fn entries_are_of_any_verdicts()
    ensures started { law.StartedDefinitionsAreOne }
    ensures entries { law.EntriesAreOfAnyVerdicts }
    ensures one { law.EntriesAreOne }
{}
