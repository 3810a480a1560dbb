//! What is found is the first refusal. The functions do nothing.
ghost use Rattle.cc_elaboration_reasoning.specs.FindingLaws.{FirstRefusalIsFound};

/// Whoever asks why a module is refused waits for no elaboration.
pub fn first_refusal_is_found()
    ensures { FirstRefusalIsFound }
{}
