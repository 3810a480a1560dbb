//! What follows from the type of a term of each form. The functions do nothing.
ghost use Rattle.cc_typing_laws.specs.Inversion as law;

/// What the type of a variable and of each form of value says: of its declaration, its base shape, its body or its content.
pub fn inversion_of_values()
    ensures variables { law.VariablesInvert }
    ensures literals { law.LiteralsInvert }
    ensures functions { law.FunctionBodiesInvert }
    ensures type_functions { law.TypeFunctionsInvert }
    ensures boxes { law.BoxContentsInvert }
{}

/// What the type of each form of term that uses values says of its operands and its bodies.
pub fn inversion_of_terms()
    ensures applications { law.ApplicationsInvert }
    ensures type_applications { law.TypeApplicationsInvert }
    ensures unboxings { law.UnboxingsInvert }
    ensures lets { law.LetsInvert }
    ensures conditionals { law.ConditionalsInvert }
{}

/// What the type of each form that computes with numbers, uses a device or leaves a boundary says of its parts.
pub fn inversion_of_effects()
    ensures primitives { law.PrimitivesInvert }
    ensures repetitions { law.RepetitionsInvert }
    ensures operations { law.OperationsInvert }
    ensures operations_alone { law.OperationsAloneInvert }
    ensures boundaries { law.BoundariesInvert }
    ensures exits { law.ExitsInvert }
{}
