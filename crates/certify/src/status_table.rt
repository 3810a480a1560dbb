//! How the program ends, by worked examples.
ghost use Rattle.certify.specs.StatusTable.{StatusesShow, CertificatesHaveSoManyBytes};

/// The number and the message of each status, written out.
pub fn statuses_show()
    ensures { StatusesShow }
{}

/// How many bytes a certificate may have, and with how many it is too long.
pub fn certificates_have_so_many_bytes()
    ensures { CertificatesHaveSoManyBytes }
{}
