//! Why texts are no modules. The functions do nothing.
ghost use Rattle.cc_worked_module_reasons.specs.TextReasonRows as example;

/// Worked reasons: what tokens break at.
pub fn broken_tokens()
    ensures { example.BrokenTokens }
{}

/// Worked reasons: where they break.
pub fn broken_places()
    ensures { example.BrokenPlaces }
{}

/// Worked reasons: bytes that are not UTF-8.
pub fn bad_bytes()
    ensures { example.BadBytes }
{}

/// Worked reasons: tokens that are not wanted.
pub fn unwanted_tokens()
    ensures { example.UnwantedTokens }
{}

/// Worked reasons: trees that are too high.
pub fn high_trees()
    ensures { example.HighTrees }
{}
