//! Texts that are accepted, with the types that others see. The functions do nothing.
ghost use Rattle.cc_worked_texts.specs.AcceptedTexts as example;

/// Single definitions, with the types that others see.
pub fn signatures()
    ensures { example.Signatures }
{}

/// Omitted sets of a `val`, of a definition, of a choice and of parameters.
pub fn omitted_sets()
    ensures { example.OmittedSetSignatures }
{}

/// Definitions that name those before them, and imports.
pub fn several()
    ensures { example.SeveralDefinitions }
{}

/// Type functions, boundaries and local names that are avoided.
pub fn larger()
    ensures { example.LargerDefinitions }
{}

/// The omitted set of a parameter is filled with what flows into it, and with nothing else.
pub fn fillings()
    ensures { example.LeastFillings }
{}

/// The same where the parameter is boxed, and where it is a recursive definition that flows.
pub fn opened_fillings()
    ensures { example.OpenedFillings }
{}

/// What captures a device is not pure, and no exit leaves its boundary.
pub fn refused_sets()
    ensures { example.RefusedSets }
{}
