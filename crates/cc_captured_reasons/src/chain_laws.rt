//! How what was captured is told, and where it can be looked for. The functions do nothing.
ghost use Rattle.cc_captured_reasons.specs.CapturedChains.{CapturedIsTold};
ghost use Rattle.cc_captured_reasons.specs.FilledScenes.{FilledDemandsAreScenes};
ghost use Rattle.cc_captured_reasons.specs.SetsAlone.{SetsAloneCount, SetsAloneAreScenes, CapturedIsToldBySets};

/// The lines of a reason can be written from what is found.
pub fn captured_is_told()
    ensures { CapturedIsTold }
{}

/// What is asked of a context holds of all in which a demand of a definition is judged.
pub fn filled_demands_are_scenes()
    ensures { FilledDemandsAreScenes }
{}

/// No shape makes a difference.
pub fn sets_alone_count()
    ensures { SetsAloneCount }
{}

/// So it can be looked for in a context that has the declared sets alone.
pub fn sets_alone_are_scenes()
    ensures { SetsAloneAreScenes }
{}

/// And what is found there gives the same lines.
pub fn captured_is_told_by_sets()
    ensures { CapturedIsToldBySets }
{}
