//! What is answered where it is asked why a module is refused. The functions do nothing.
ghost use Rattle.cc_module_reasons.specs.WhyLaws.{WhySaysTheVerdict, WhyHasAnAnswer, WhyHasOneAnswer};

/// Who asks why is told the code and the place that a check tells, or that the module is accepted, or not present.
pub fn why_says_the_verdict()
    ensures { WhySaysTheVerdict }
{}

/// Whatever is asked for has an answer.
pub fn why_has_an_answer()
    ensures { WhyHasAnAnswer }
{}

/// And no second one.
pub fn why_has_one_answer()
    ensures { WhyHasOneAnswer }
{}
