//! The laws of submissions. The functions do nothing.
ghost use Rattle.cc_vouching_laws.specs.SubmissionLaws as law;

/// Bytes are one submission at most.
pub fn bytes_are_one_submission()
    ensures { law.BytesAreOneSubmission }
{}
