//! The laws of chains, and worked ones.

ghost use Rattle.cc_explain.specs.ChainLaws.{FirstChainsAreUnique, FirstChainsExist, ChainsAreBounded, FirstChainsAreComputed};
ghost use Rattle.cc_explain.specs.ChainExamples as example;

/// There is at most one first shortest chain.
pub fn first_chains_are_unique()
    ensures { FirstChainsAreUnique }
{}

/// Where there is a chain there is a first shortest one.
pub fn first_chains_exist()
    ensures { FirstChainsExist }
{}

/// A chain has at most one target more than there are entries up to that of its first definition.
pub fn chains_are_bounded()
    ensures { ChainsAreBounded }
{}

/// The first shortest chain is that of its function.
pub fn first_chains_are_computed()
    ensures { FirstChainsAreComputed }
{}

/// Worked chains.
pub fn worked_chains()
    ensures through_the_one_that_has_it { example.ThroughTheOneThatHasIt }
    ensures in_turn { example.InTurn }
    ensures least_length { example.LeastLength }
    ensures first_of_as_long { example.FirstOfAsLong }
    ensures universal_capability { example.UniversalCapability }
    ensures no_chain { example.NoChain }
{}
