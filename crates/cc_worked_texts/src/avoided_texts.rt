//! Texts in which a name is avoided in a type. The functions do nothing.
ghost use Rattle.cc_worked_texts.specs.AvoidedTexts as example;

/// Where a set may become larger, a name gives way to what it was declared with.
pub fn positive()
    ensures { example.PositivePlaces }
{}

/// Where a set may become smaller, a name is left out.
pub fn negative()
    ensures { example.NegativePlaces }
{}

/// In a bound, or inside an exit, no name can be avoided.
pub fn invariant()
    ensures { example.InvariantPlaces }
{}
