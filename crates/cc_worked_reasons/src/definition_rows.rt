//! Why texts are refused. The functions do nothing.
ghost use Rattle.cc_worked_reasons.specs.DefinitionRows as example;

/// Worked reasons: heads.
pub fn heads_told()
    ensures { example.Heads }
{}

/// Worked reasons: matches.
pub fn matches_told()
    ensures { example.Matches }
{}

/// Worked reasons: captured.
pub fn captured_told()
    ensures { example.Captured }
{}

/// Worked reasons: chains.
pub fn chains_told()
    ensures { example.Chains }
{}

/// Worked reasons: universal.
pub fn universal_told()
    ensures { example.Universal }
{}

/// Worked reasons: unavoidable.
pub fn unavoidable_told()
    ensures { example.Unavoidable }
{}

/// Worked reasons: hidden.
pub fn hidden_told()
    ensures { example.Hidden }
{}

/// Worked reasons: sizes.
pub fn sizes_told()
    ensures { example.Sizes }
{}
