//! The functions do nothing. Their contracts are theorems.
ghost use Rattle.cc_derivation.specs.ValidityLaws as law;
ghost use Rattle.cc_derivation.specs.ValidityExamples as example;

/// No node breaks its rule exactly where the derivation is valid for the term, or a valid comparison of the kind. The
/// numbers of the nodes that break their rules rise.
pub fn broken_nodes()
    ensures typings { law.ValidTypingsHaveNoBrokenNode }
    ensures sets { law.ValidSetComparisonsHaveNoBrokenNode }
    ensures shapes { law.ValidShapeComparisonsHaveNoBrokenNode }
    ensures types { law.ValidTypeComparisonsHaveNoBrokenNode }
    ensures rising { law.BrokenNumbersRise }
{}

/// A derivation of the identity, whole, with a claim that is changed, and its root alone.
pub fn identity()
    ensures whole { example.IdentityIsWhole }
    ensures changed { example.ClaimWithoutTheVariable }
    ensures root_alone { example.RootAlone }
{}

/// Each way in which a node does not fit its place; then the nodes of its premises are not counted.
pub fn nodes_that_do_not_fit()
    ensures too_many { example.TooManyPremises }
    ensures too_few { example.TooFewPremises }
    ensures other_kind { example.ClaimOfAnotherKind }
    ensures other_form { example.RuleOfAnotherForm }
    ensures omitted_set { example.OmittedSet }
    ensures other_comparison { example.RuleOfAnotherComparison }
    ensures no_variable { example.NoVariableAlone }
    ensures other_bounds { example.BoundsThatDiffer }
    ensures fits { example.PremisesOfTheRuleCount }
{}

/// A let whose first premise claims no type, and one whose first premise claims one.
pub fn premises_of_lets()
    ensures no_type { example.LetWithoutAType }
    ensures a_type { example.LetWithAType }
{}

/// A part that stands at two places counts at both.
pub fn shared_parts()
    ensures { example.PartAtTwoPlaces }
{}
