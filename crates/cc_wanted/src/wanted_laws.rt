//! What holds of the kinds that are wanted behind any tokens. The functions do nothing.

ghost use Rattle.cc_wanted.specs.WantedTokens.{TokensWantOneListOfKinds};
ghost use Rattle.cc_wanted.specs.WantedLaws.{KindsFoundByTryingAreWanted};

/// Behind no tokens two lists of kinds are wanted.
pub fn tokens_want_one_list_of_kinds()
    ensures { TokensWantOneListOfKinds }
{}

/// What is found by trying is wanted, behind each front with which modules without a tree that is too high begin.
pub fn kinds_found_by_trying_are_wanted()
    ensures { KindsFoundByTryingAreWanted }
{}
