//! The laws of certificates. The functions do nothing.

ghost use Rattle.cc_certificate_text.specs.BadLineLaws.{BytesAreOneCertificate, NeverACertificateAndABadLine, BytesHaveOneBadLine, BytesAreACertificateOrHaveABadLine};

/// Bytes are at most one certificate.
pub fn bytes_are_one_certificate()
    ensures { BytesAreOneCertificate }
{}

/// Bytes that are a certificate have no bad line.
pub fn never_a_certificate_and_a_bad_line()
    ensures { NeverACertificateAndABadLine }
{}

/// Bytes have at most one bad line.
pub fn bytes_have_one_bad_line()
    ensures { BytesHaveOneBadLine }
{}

/// Bytes are a certificate or have a bad line.
pub fn bytes_are_a_certificate_or_have_a_bad_line()
    ensures { BytesAreACertificateOrHaveABadLine }
{}
