//! Replies that show signatures. The functions do nothing.
ghost use Rattle.cc_worked_replies.specs.SignatureExamples as example;

/// A line for each definition, with the type that others see.
pub fn signatures_are_shown()
    ensures definitions { example.DefinitionsAreShown }
    ensures importing { example.ImportingModuleIsShown }
    ensures none { example.NoDefinitionIsShown }
{}

/// Why signatures are not shown.
pub fn refused_signatures()
    ensures { example.RefusedSignatures }
{}
