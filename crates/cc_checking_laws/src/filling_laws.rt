//! The laws of fillings. The functions do nothing.
ghost use Rattle.cc_checking_laws.specs.FillingLaws as law;

/// There is one least filling, over the globals; each filling that serves is above it; and where one serves, it serves.
pub fn least_fillings()
    ensures unique { law.LeastFillingsAreAlike }
    ensures over_globals { law.LeastFillingsAreOverGlobals }
    ensures below { law.ServingFillingsAreAbove }
    ensures serves { law.LeastFillingsServe }
{}

/// The order of what is asked changes neither the least filling nor those that serve.
pub fn order()
    ensures { law.OrderDoesNotMatter }
{}
