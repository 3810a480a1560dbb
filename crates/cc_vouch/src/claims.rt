//! What is found of the bytes that are claimed to be a definition's certificate.

ghost use Rattle.std.specs.Prelude.{◌≡◌, ℕ, List, Some, IfOk};
ghost use Rattle.cc_certificate_text.specs.Certificates.{Start, AllFit, IsWhole, behind_lines, IsCertificate};
ghost use Rattle.cc_certificate_reading.specs.CertificateViews.{lines_of};
ghost use Rattle.cc_vouching.specs.ClaimedOutcomes.{IsClaimedAs};
ghost use Rattle.cc_vouch.specs.VouchViews.{claimed_of};

use cc_certificate_judging::{JudgeError, judge};
use cc_certificate_reading::{Cert, ReadCertError, read_cert};
use cc_core::Ty;
use std::alloc::{AllocError, Global};

/// What is found of bytes.
#[derive(Drop)]
pub enum Found {
    /// They are no certificate: the line is the first that does not fit.
    Misread(u32),
    /// They are a certificate that is not valid: the node is the first that breaks its rule, or whose names do not fit.
    Broken(u32),
    /// They are a certificate that is valid, and concludes the type.
    Proven(Cert, Ty),
}

// What is found of a certificate.
fn judged(alloc: Global, cert: Cert) -> Result<Found, AllocError>
    requires fit { AllFit Start (lines_of cert) }
    requires whole { IsWhole (behind_lines Start (lines_of cert)) }
    ensures { IfOk result (λ found. (bytes : List ℕ) → IsCertificate bytes (lines_of cert) → IsClaimedAs (Some bytes) (claimed_of found)) }
{
    match judge(alloc, &cert) {
        Ok(ty) => Ok(Found::Proven(cert, ty)),
        Err(JudgeError::BadNode { number }) => Ok(Found::Broken(number)),
        Err(JudgeError::NoMemory) => Err(AllocError),
    }
}

/// What is found of the bytes. Fails only for want of memory, as which more than 2^32 - 1 lines count.
pub fn found_of(alloc: Global, bytes: &[u8]) -> Result<Found, AllocError>
    ensures { IfOk result (λ found. IsClaimedAs (Some bytes.now) (claimed_of found)) }
{
    match read_cert(alloc, bytes) {
        Ok(cert) => judged(alloc, cert),
        Err(ReadCertError::BadCert { line }) => Ok(Found::Misread(line)),
        Err(ReadCertError::NoMemory) => Err(AllocError),
    }
}
