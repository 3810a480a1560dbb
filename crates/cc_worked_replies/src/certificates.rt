//! Replies to certificates.
ghost use Rattle.cc_worked_replies.specs.CertificateExamples as example;

use cc_certificate_judging::judging_laws::worked_answers;

/// The certificate of the identity, whole, with a node that breaks its rule, with a line that does not fit, and without a
/// node; and no bytes. The function does nothing.
pub fn certificates_are_judged()
    ensures valid { example.ValidCertificate }
    ensures node { example.BadNode }
    ensures premise { example.BadLine }
    ensures no_node { example.NoNode }
    ensures nothing { example.NoLine }
{
    worked_answers();
}
