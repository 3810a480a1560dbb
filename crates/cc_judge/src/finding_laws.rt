//! What the words of judging come to. The functions do nothing.
ghost use Rattle.cc_judge.specs.SameFindings.{SameFindingsDecides};

/// The test of findings says yes exactly where they are the same.
pub fn same_findings_decides()
    ensures { SameFindingsDecides }
{}
