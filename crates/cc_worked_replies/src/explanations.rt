//! Replies that explain signatures. The functions do nothing.
ghost use Rattle.cc_worked_replies.specs.ExplainExamples as example;

/// Each device is explained by the definition that brings it in.
pub fn three_modules_are_explained()
    ensures { example.ThreeModulesExplained }
{}

/// A chain through three modules.
pub fn chains_are_explained()
    ensures { example.ChainExplained }
{}

/// The universal capability, and an empty set.
pub fn universal_is_explained()
    ensures { example.UniversalExplained }
{}

/// Why a signature is not explained.
pub fn refused_explanations()
    ensures { example.RefusedExplanations }
{}
