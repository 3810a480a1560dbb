//! The laws of certificates. The functions do nothing.
ghost use Rattle.cc_certificate_writing.specs.CertificateTextLaws as law;

/// Where a rule is one for its place and claim, the contexts at the places of its premises have as many entries more as
/// binders are counted there.
pub fn binders_are_entries()
    ensures { law.BindersAreEntries }
{}

/// Different claims of one kind, over one list of different names, have different texts.
pub fn different_claims_have_different_texts()
    ensures { law.DifferentClaimsHaveDifferentTexts }
{}

/// Different filled terms, over one list of different names, have different texts.
pub fn different_terms_have_different_texts()
    ensures { law.DifferentTermsHaveDifferentTexts }
{}

/// The line of a node tells its number, its rule, the numbers of its premises and its claim.
pub fn lines_tell_their_nodes()
    ensures { law.LinesTellTheirNodes }
{}

/// No line of a certificate has a line feed within, where names and literals have none.
pub fn lines_have_no_line_feed()
    ensures { law.LinesHaveNoLineFeed }
{}
