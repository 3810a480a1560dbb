//! Replies that show derivations. The functions do nothing.
ghost use Rattle.cc_worked_replies.specs.DerivationExamples as example;

/// Whole certificates: without a bind, with an earlier definition, and with an import.
pub fn derivations_are_shown()
    ensures identity { example.IdentityIsDerived }
    ensures call { example.CallIsDerived }
    ensures import { example.ImportIsDerived }
{}

/// Why a derivation is not shown.
pub fn refused_derivations()
    ensures { example.RefusedDerivations }
{}

/// Up to how many nodes a derivation is shown.
pub fn large_derivations_are_refused()
    ensures small { example.SmallDerivationsAreShown }
    ensures large { example.LargeDerivationsAreRefused }
{}
