//! The functions do nothing. Their contracts are theorems.
ghost use Rattle.cc_certificate_laws.specs.JudgedCertificates as law;

/// The nodes that are written for a valid derivation are read as the derivation, and judged to be valid.
pub fn written_certificates_are_valid()
    ensures nodes { law.WrittenNodesAreOfTheTree }
    ensures read_back { law.DerivationsAreReadBack }
    ensures judged { law.ValidDerivationsAreJudgedValid }
{}

/// What is read back from the text of a valid derivation has its context, its term and its nodes, and is judged to be
/// valid, at the type that the derivation concludes; for an accepted definition this is the type that others see.
pub fn what_is_read_back_is_valid()
    ensures parts { law.PartsAreReadBack }
    ensures judged { law.WrittenCertificatesAreFoundValid }
    ensures definitions { law.CertificatesOfDefinitionsAreFoundValid }
{}

/// The tree that is read back from the text of a valid derivation is the derivation; for an accepted definition this is
/// its canonical derivation.
pub fn trees_are_read_back()
    ensures written { law.WrittenTreesAreReadBack }
    ensures definitions { law.TreesOfDefinitionsAreReadBack }
{}
