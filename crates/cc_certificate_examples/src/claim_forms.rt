//! Which claims are one, and what the rules of sets and shapes ask of what their premises claim, by example. The functions do nothing.
ghost use Rattle.cc_certificate_examples.specs.ClaimForms as example;

/// Claims are one where both sides are, and they say the same of them.
pub fn same_claims()
    ensures { example.SameClaims }
{}

/// The set of one element is below each set that has it, and the set of a variable is below what its declared set is below.
pub fn set_rules()
    ensures { example.SetRules }
{}

/// A shape is below another by way of a third, a type variable is below its bound, and `Any` alone is above all.
pub fn shape_rules()
    ensures { example.ShapeRules }
{}
