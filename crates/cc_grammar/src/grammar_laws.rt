//! What holds of every list of tokens, as contracts that need no call.

ghost use Rattle.cc_grammar.specs.GrammarLaws.{
  TokensReadAsTheyAre,
  TokensHaveOneReading,
  ModulesHaveOneTree,
  LowModulesAreRead,
  HighModulesAreTooHigh,
  SetsBelongToInnermostTypes,
};

/// The reading that is computed of a list of tokens is one that it has: its tree, the place of its syntax error, or the
/// place where it is too high.
#[tactic(auto, using(crate::proofs::Readings::tokens_read_as_they_are))]
pub fn tokens_read_as_they_are()
    ensures { TokensReadAsTheyAre }
{}

/// No list of tokens has two readings.
#[tactic(auto, using(crate::proofs::Readings::tokens_have_one_reading))]
pub fn tokens_have_one_reading()
    ensures { TokensHaveOneReading }
{}

/// No tokens are those of two modules.
#[tactic(auto, using(crate::proofs::Readings::modules_have_one_tree))]
pub fn modules_have_one_tree()
    ensures { ModulesHaveOneTree }
{}

/// A module without a tree that is too high is read as it is.
#[tactic(auto, using(crate::proofs::Readings::low_modules_are_read))]
pub fn low_modules_are_read()
    ensures { LowModulesAreRead }
{}

/// A module with a tree that is too high is read as too high.
pub fn high_modules_are_too_high()
    ensures { HighModulesAreTooHigh }
{}

/// A set behind a shape belongs to the innermost type that ends there and has none.
pub fn sets_belong_to_innermost_types()
    ensures { SetsBelongToInnermostTypes }
{}
