//! The laws of canonical derivations. The functions do nothing.
ghost use Rattle.cc_checking_laws.specs.CanonicalLaws as law;

/// The canonical derivation of a set, or of a shape, below another is valid.
pub fn canonical_comparisons()
    ensures sets { law.CanonicalDerivationsOfSetsAreValid }
    ensures shapes { law.CanonicalDerivationsOfShapesAreValid }
{}

/// The canonical derivation of an accepted definition is valid and concludes its type and the type that others see, and its
/// nodes are counted without building it.
pub fn canonical_derivations()
    ensures valid { law.CanonicalDerivationsOfDefinitionsAreValid }
    ensures counted { law.CanonicalDerivationsAreCounted }
{}
