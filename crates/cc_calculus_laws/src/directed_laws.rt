//! Directed types, and that the checker finds exactly these. The functions do nothing.
ghost use Rattle.cc_calculus_laws.specs.DirectedLaws as law;

/// An algorithmic type is a directed one; so a definition is accepted where some filling types it, and refused where
/// none does.
pub fn algorithmic_types_are_directed()
    ensures directed { law.AlgorithmicTypesAreDirected }
    ensures accepted { law.AcceptedWhereSomeFillingTypes }
    ensures refused { law.RefusedWhereNoFillingTypes }
{}

/// A directed type is one by the declarative rules.
pub fn directed_types_are_types()
    ensures typed { law.DirectedTypesAreTypes }
{}
