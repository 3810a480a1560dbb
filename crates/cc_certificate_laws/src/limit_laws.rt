//! The functions do nothing. Their contracts are theorems.
ghost use Rattle.cc_certificate_laws.specs.FoundCertificates as found_law;
ghost use Rattle.cc_certificate_laws.specs.LimitLaws as law;
ghost use Rattle.cc_certificate_laws.specs.ModuleCertificates as certificate_law;
ghost use Rattle.cc_certificate_laws.specs.ModuleExamples as example;
ghost use Rattle.cc_certificate_laws.specs.ModuleLimits as module_law;
ghost use Rattle.cc_certificate_laws.specs.RuleExamples as rule_example;
ghost use Rattle.cc_certificate_laws.specs.TextLimits as text_law;

/// The canonical derivation of an accepted low definition is low, as are its context and its right side, and the type
/// that others see is.
pub fn accepted_definitions_are_low()
    ensures low { law.AcceptedDefinitionsAreLow }
    ensures heights { law.HeightsAreKept }
    ensures literals { law.LiteralsAreKept }
    ensures signatures { law.SignaturesAreLow }
{}

/// The definitions of a text are low, have names, and their literals are those of the grammar.
pub fn definitions_of_texts_are_low()
    ensures definitions { text_law.DefinitionsOfTextsAreLow }
    ensures imports { text_law.ImportsOfTextsAreNamed }
{}

/// The signatures of accepted modules are low, and so is what is found for imports.
pub fn signatures_of_modules_are_low()
    ensures signatures { module_law.SignaturesOfModulesAreLow }
    ensures findings { module_law.FindingsAreLow }
{}

/// Each definition of an accepted module has a right certificate, where its canonical derivation has few enough nodes:
/// what is written is a certificate, is read back, and is judged to have the type that others see. Its context is that
/// of the definition in a program, and the devices of a job are named as is asked here.
pub fn modules_have_certificates()
    ensures modules { certificate_law.DefinitionsOfModulesAreCertified }
    ensures present { certificate_law.DefinitionsOfPresentTextsAreCertified }
    ensures contexts { certificate_law.ContextsAreThoseOfPrograms }
    ensures devices { certificate_law.DevicesOfJobsAreNamed }
    ensures literals { certificate_law.LiteralsOfDefinitionsAreWritten }
    ensures one_line { certificate_law.LinesOfDefinitionsHaveNoLineFeed }
{}

/// What is found of a definition's certificate, where it is read from its lines, each with its line feed: it proves the type
/// that others see, with the names of the definition's context, and nothing else is found. The lines are whole ones.
pub fn certificates_prove_signatures()
    ensures right { found_law.RightCertificatesProveSignatures }
    ensures present { found_law.CertificatesOfPresentTextsProveSignatures }
    ensures named { found_law.CertificatesOfNamedDefinitionsProveSignatures }
{}

/// A text whose definition has a right certificate.
pub fn worked_certificate()
    ensures { example.ANumberIsCertified }
{}

/// Two texts whose certificates have a node of each rule, with their lines.
pub fn every_rule_is_written()
    ensures generic { rule_example.GenericIsWritten }
    ensures control { rule_example.ControlIsWritten }
{}
