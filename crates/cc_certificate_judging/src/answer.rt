//! What is found of bytes as a certificate.

ghost use Rattle.std.specs.Prelude.{◌≡◌, ℕ, List, map, Some, IfOk};
ghost use Rattle.std.specs.String.{string_bytes};
ghost use Rattle.cc_core.specs.TermViews.{type_of};
ghost use Rattle.cc_print.specs.TypeTexts as plain;
ghost use Rattle.cc_certificate_text.specs.Certificates.{Start, AllFit, IsWhole, behind_lines, IsCertificate};
ghost use Rattle.cc_certificate_reading.specs.CertificateViews.{lines_of};
ghost use Rattle.cc_certificate_judging.specs.ToldAnswers.{IsAnswered, is_positive};

use crate::error::JudgeError;
use crate::judging::judge;
use cc_base::name::Name;
use cc_certificate_reading::{Cert, ReadCertError, read_cert};
use cc_core::Ty;
use cc_print::{Names, type_text};
use std::alloc::{AllocError, Global};
use std::fmt;

/// What is found of bytes.
#[derive(Drop)]
pub enum Answer {
    /// They are a certificate that is valid, with the text of its type.
    Valid(String),
    /// They are no certificate: the line is the first that does not fit.
    BadLine(u32),
    /// They are a certificate that is not valid: the node is the first that breaks its rule, or whose names do not fit.
    BadNode(u32),
}

impl Answer {
    /// Whether the certificate is valid.
    pub fn is_valid(&self) -> bool
        ensures { result ≡ is_positive self.now }
    {
        match self {
            Answer::Valid(_) => true,
            Answer::BadLine(_) => false,
            Answer::BadNode(_) => false,
        }
    }
}

impl fmt::Display for Answer {
    ghost use Rattle.cc_certificate_judging.specs.ToldAnswers.{answer_text};

    ghost output = { λ answer. Some (answer_text answer) };

    fn fmt<W: fmt::Write>(&self, f: &mut fmt::Formatter<W>) -> fmt::Result {
        match self {
            Answer::Valid(text) => write!(f, "valid {text}"),
            Answer::BadLine(line) => write!(f, "bad line {line}"),
            Answer::BadNode(node) => write!(f, "bad node {node}"),
        }
    }
}

// The names of the binds.
fn names_of(alloc: Global, binds: &[(Name, Ty)]) -> Result<Vec<Name>, AllocError>
    ensures { IfOk result (λ names. names.items ≡ map (λ bind. bind.0) binds.now) }
{
    let mut names = Vec::new(alloc);
    for bind in binds.iter() {
        names.push(bind.0.clone()?)?;
    }
    Ok(names)
}

// The text of a type over the binds.
fn text_of(alloc: Global, binds: &[(Name, Ty)], ty: &Ty) -> Result<String, AllocError>
    ensures { IfOk result (λ text. string_bytes text ≡ plain.type_text (map (λ bind. bind.0) binds.now) 0 (type_of ty.now)) }
{
    let names = Names {
        names: names_of(alloc, binds)?,
        locals: 0,
    };
    type_text(alloc, ty, &names)
}

// The answer for a certificate.
fn judged(alloc: Global, cert: &Cert) -> Result<Answer, AllocError>
    requires fit { AllFit Start (lines_of cert.now) }
    requires whole { IsWhole (behind_lines Start (lines_of cert.now)) }
    ensures { IfOk result (λ answer. (bytes : List ℕ) → IsCertificate bytes (lines_of cert.now) → IsAnswered bytes answer) }
{
    match judge(alloc, cert) {
        Ok(ty) => Ok(Answer::Valid(text_of(alloc, cert.binds.as_slice(), &ty)?)),
        Err(JudgeError::BadNode { number }) => Ok(Answer::BadNode(number)),
        Err(JudgeError::NoMemory) => Err(AllocError),
    }
}

/// What is found of the bytes: a valid certificate, the first bad line, or the least bad node. Fails only for want of
/// memory, as which more than 2^32 - 1 lines count.
pub fn answer_to(alloc: Global, bytes: &[u8]) -> Result<Answer, AllocError>
    ensures { IfOk result (IsAnswered bytes.now) }
{
    match read_cert(alloc, bytes) {
        Ok(cert) => judged(alloc, &cert),
        Err(ReadCertError::BadCert { line }) => Ok(Answer::BadLine(line)),
        Err(ReadCertError::NoMemory) => Err(AllocError),
    }
}
