//! The laws of the verdicts of present texts. The functions do nothing.
ghost use Rattle.cc_verdicts.specs.ModuleLaws as law;

/// The present modules have one verdict each, whatever their imports.
pub fn verdicts_of_present_texts()
    ensures exist { law.VerdictsExist }
    ensures unique { law.VerdictsAreUnique }
    ensures fit { law.FindingsFit }
{}
