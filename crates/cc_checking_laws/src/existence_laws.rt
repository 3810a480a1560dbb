//! What is well formed has an outcome and a verdict. The functions do nothing.
ghost use Rattle.cc_checking_laws.specs.ExistenceLaws as law;

/// Inference of a well-formed term ends, and so does the checking of a well-formed definition.
pub fn outcomes_exist()
    ensures terms { law.WellFormedTermsHaveAnOutcome }
    ensures definitions { law.WellFormedDefinitionsAreChecked }
{}

/// What is asked of a well-formed definition has a least filling, and the definition a verdict.
pub fn verdicts_exist()
    ensures fillings { law.LeastFillingsExist }
    ensures verdicts { law.WellFormedDefinitionsHaveAVerdict }
{}
