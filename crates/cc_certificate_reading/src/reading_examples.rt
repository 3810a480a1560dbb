//! Worked certificates. The functions do nothing.

ghost use Rattle.cc_certificate_reading.specs.ReadingExamples.{IdentityIsCertified, WrongTypeIsRead, WrongPremiseIsBad, NoNodeIsBad, TwoRootsAreBad, LeadingZeroIsBad, NothingIsBad};
ghost use Rattle.cc_certificate_reading.specs.LimitExamples as limit;

/// Worked certificates.
pub fn worked_certificates()
    ensures identity { IdentityIsCertified }
    ensures wrong_type { WrongTypeIsRead }
{}

/// Bytes that are none, with their bad lines.
pub fn worked_bad_lines()
    ensures premise { WrongPremiseIsBad }
    ensures no_node { NoNodeIsBad }
    ensures two_roots { TwoRootsAreBad }
    ensures zero { LeadingZeroIsBad }
    ensures nothing { NothingIsBad }
{}

/// Certificates at their limits: a string of 200 characters, the greatest number of a local variable, 100,000 nodes, and
/// types and terms of height 5,000.
pub fn certificates_at_limits()
    ensures string { limit.StringOf200IsRead }
    ensures local { limit.GreatestLocalIsRead }
    ensures nodes { limit.ManyNodesAreRead }
    ensures heights { limit.HighSyntaxIsRead }
{}

/// One more of each, and the bad line.
pub fn bad_lines_behind_limits()
    ensures string { limit.StringOf201IsBad }
    ensures local { limit.GreaterLocalIsBad }
    ensures nodes { limit.OneNodeMoreIsBad }
    ensures node_height { limit.HigherNodeIsBad }
    ensures bind_height { limit.HigherBindIsBad }
    ensures term_height { limit.HigherTermIsBad }
{}
