//! The reply to a command that has a text judged as a certificate.

ghost use Rattle.std.specs.Prelude.{IfOk};
ghost use Rattle.std.specs.String.{string_bytes};
ghost use Rattle.cc_replies.specs.CertificateTexts.{TellsFound};

use cc_certificate_judging::answer::answer_to;
use std::alloc::{AllocError, Global};

/// The reply to a command that has the bytes judged as a certificate, with what is found of them, and whether that is a
/// refusal. Fails only for want of memory, as which more than 2^32 - 1 lines count.
pub fn verify_reply(alloc: Global, bytes: &[u8]) -> Result<(String, bool), AllocError>
    ensures { IfOk result (λ it. TellsFound bytes.now (string_bytes it.0) it.1) }
{
    let answer = answer_to(alloc, bytes)?;
    let text = format!(in alloc; "verify\n  {answer}\n")?;
    Ok((text, !answer.is_valid()))
}
