//! Which parts do not match is told in one way. The functions do nothing.
ghost use Rattle.cc_mismatch.specs.MismatchLaws.{FoundPartsAreTheSame, MatchesHaveNoParts};

/// However long two comparisons may go on, the same parts are told of both.
pub fn found_parts_are_the_same()
    ensures { FoundPartsAreTheSame }
{}

/// Of shapes that match nothing is told.
pub fn matches_have_no_parts()
    ensures { MatchesHaveNoParts }
{}
