//! Inference repeated. The functions do nothing.
ghost use Rattle.cc_checking_laws.specs.RepetitionLaws as law;

/// The completed and filled term is inferred again, with the filled type, and all that is then asked holds.
pub fn filled_terms()
    ensures { law.FilledTermsAreInferredAgain }
{}
