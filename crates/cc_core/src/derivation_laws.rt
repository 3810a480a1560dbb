//! The laws of derivations, which hold of the values that contracts see. The function does nothing.
ghost use Rattle.cc_core.specs.DerivationLaws as law;

/// Derivations are the judgements: a set, a shape or a type is below another, and a term has a type, exactly where a
/// valid derivation concludes it.
pub fn derivations_are_the_judgements()
    ensures subcapturing { law.SubcapturingHasDerivations }
    ensures subtyping { law.SubtypingHasDerivations }
    ensures type_subtyping { law.TypeSubtypingHasDerivations }
    ensures typing { law.TypingHasDerivations }
    ensures types { law.TypesHaveDerivations }
{}
