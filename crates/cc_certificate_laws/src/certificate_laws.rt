//! The functions do nothing. Their contracts are theorems.
ghost use Rattle.cc_certificate_laws.specs.CertificateLaws as law;
ghost use Rattle.cc_certificate_laws.specs.DefinitionLaws as definition_law;

/// The text that is written for a derivation is a certificate, of the lines that the derivation has and of no others.
pub fn written_texts_are_certificates()
    ensures written { law.WrittenTextsAreCertificates }
    ensures read_back { law.WrittenTextsAreReadBack }
{}

/// Each claim of a valid derivation can stand at its place in a certificate, and so the derivation has one.
pub fn valid_derivations_are_presentable()
    ensures claims { law.ValidDerivationsArePresentable }
    ensures certificates { law.ValidDerivationsHaveCertificates }
{}

/// So has the canonical derivation of an accepted definition, whose filled right side can be written.
pub fn accepted_definitions_have_certificates()
    ensures terms { definition_law.ValidTermsAreWhole }
    ensures certificates { definition_law.AcceptedDefinitionsHaveCertificates }
    ensures read_back { definition_law.CertificatesOfDefinitionsAreReadBack }
{}
