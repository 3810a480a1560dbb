//! The laws of inference.
ghost use Rattle.cc_checking_laws.specs.InferenceLaws as law;

/// A term has at most one outcome.
pub fn one_outcome()
    ensures { law.OutcomesAreUnique }
{}

/// No type that is inferred is larger than the greatest size.
pub fn sizes()
    ensures { law.InferredTypesAreNotTooLarge }
{}
