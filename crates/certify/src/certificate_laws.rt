//! What the contract of the call says, in bytes and numbers. The functions do nothing but cite what is found of the
//! certificates of the examples.
ghost use Rattle.certify.specs.Exactness as law;
ghost use Rattle.certify.specs.Outcome.{ends};

use cc_certificate_judging::judging_laws::worked_answers;
use cc_io::{Messages, Sink, Source};

/// The line of what the bytes are is written, whole and alone, with the number that says whether they are a valid
/// certificate.
pub fn certificates_are_answered()
    ensures proofs { law.AProofIsAnswered }
    ensures bad_lines { law.ABadLineIsAnswered }
    ensures bad_nodes { law.ABadNodeIsAnswered }
    ensures too_long { law.WhatIsTooLongIsRefused }
{}

/// A read failed exactly where the status says so, and so did a write. Nothing is written where a read failed.
pub fn faults_are_told()
    ensures told { law.AFaultIsTold }
    ensures silent { law.AFailedReadIsTold }
{}

/// A call with a word touches neither the source nor the sink.
pub fn words_are_refused<S: Source, K: Sink>()
    ensures { law.WordsAreRefused S K (λ source sink. ends (S.left source) (S.faults source) (K.written sink)
        (K.faults sink)) }
{}

/// What is said on standard error at each status, and the usage text at words alone.
pub fn what_is_said<E: Messages>()
    ensures { law.SaysExactly E.gives }
{}

/// Certificates as bytes, each with its whole output and its number.
pub fn worked_certificates()
    ensures { law.CertificatesAreAnswered }
{
    worked_answers();
}
