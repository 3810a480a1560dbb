//! The laws of checking a definition. The functions do nothing.
ghost use Rattle.cc_checking_laws.specs.CheckingLaws as law;

/// The right side of an accepted definition has its type; the type that others see is over the devices; and no hole is left.
pub fn accepted_definitions()
    ensures typed { law.AcceptedDefinitionsAreTyped }
    ensures over_devices { law.SignaturesAreOverDevices }
    ensures no_hole { law.AcceptedDefinitionsHaveNoHole }
    ensures sets { law.SignatureSetsAreOfDevices }
{}

/// A definition has at most one verdict, and what is refused has no algorithmic type under any filling.
pub fn verdicts()
    ensures unique { law.VerdictsAreUnique }
    ensures refused { law.RefusalsOfInferenceAreFinal }
    ensures fit { law.WhatIsAskedIsFit }
    ensures failed { law.FailedDemandsAreFinal }
    ensures no_type { law.RefusedDefinitionsHaveNoType }
{}
