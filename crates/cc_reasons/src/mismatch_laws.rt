//! Where two shapes do not match. The functions do nothing.
ghost use Rattle.cc_reasons.specs.Mismatches.{MismatchesAreFound, FoundPartsDoNotMatch};

/// Wherever a comparison comes to no match, parts are told that do not match.
pub fn mismatches_are_found()
    ensures { MismatchesAreFound }
{}

/// And those that are told do not match, in the context in which they are told.
pub fn found_parts_do_not_match()
    ensures { FoundPartsDoNotMatch }
{}
