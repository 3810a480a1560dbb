//! The laws of what present definitions link to. The functions do nothing.
ghost use Rattle.cc_entry_laws.specs.PresentLinkLaws as law;

/// An element stands in the outermost set of a definition's signature exactly where a chain of links leads from the
/// definition to it.
pub fn elements_of_signatures_are_linked()
    ensures { law.SignatureElementsAreLinked }
{}
