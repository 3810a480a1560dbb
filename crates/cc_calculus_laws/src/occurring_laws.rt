//! The captured variables of a term by where they occur. The functions do nothing.
ghost use Rattle.cc_calculus_laws.specs.OccurringLaws as law;

/// A term captures exactly the elements that occur in it outside boxes.
pub fn captured_is_occurring()
    ensures captured { law.CapturedWhereItOccurs }
    ensures closed_over { law.ClosedOverWhereItOccurs }
    ensures values { law.ValuesAreTold }
{}
