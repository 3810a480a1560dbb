//! Derivations in which a condition of a rule alone does not hold. The functions do nothing.
ghost use Rattle.cc_certificate_examples.specs.RuleConditions as example;

/// What is written in a term is well formed, and so is a type to which a term is widened.
pub fn well_formed_parts()
    ensures { example.WellFormedParts }
{}

/// The variable of a let does not occur in its type, and a type that is written for it has its set.
pub fn types_of_lets()
    ensures { example.TypesOfLets }
{}

/// An operation that takes an argument is not without one, and one that takes none has none.
pub fn arguments_of_operations()
    ensures { example.ArgumentsOfOperations }
{}

/// The rule of variables is for variables of terms, and that of bounds for type variables; neither is for a variable that
/// has no entry.
pub fn entries_of_variables()
    ensures { example.EntriesOfVariables }
{}
