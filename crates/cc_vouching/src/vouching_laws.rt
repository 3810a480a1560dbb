//! The laws of what is vouched for. The functions do nothing.
ghost use Rattle.cc_vouching.specs.ClaimedOutcomes as claimed;
ghost use Rattle.cc_vouching.specs.VouchingLaws as law;

/// Two lists of binds have no first difference exactly where they are one.
pub fn differences_are_found()
    ensures { law.DifferencesAreFound }
{}

/// A definition has one outcome, whatever the bytes of its claim are: it is vouched for, or one reason is told, exactly
/// where that is so.
pub fn definitions_have_one_outcome()
    ensures exist { law.OutcomesExist }
    ensures unique { law.OutcomesAreUnique }
    ensures by_claims { claimed.OutcomesGoByClaims }
{}

/// A module has one answer, whatever its text and its claims are, and so have modules in order.
pub fn modules_have_one_answer()
    ensures exist { law.AnswersExist }
    ensures unique { law.AnswersAreUnique }
    ensures all_exist { law.AllAnswersExist }
    ensures all_unique { law.AllAnswersAreUnique }
{}

/// What is vouched for is typed by the declarative rules, with what was vouched for before it.
pub fn vouched_modules_are_sound()
    ensures { law.VouchedModulesAreSound }
{}
