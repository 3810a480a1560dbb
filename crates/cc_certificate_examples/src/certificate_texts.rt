//! What fits as a line of a certificate, and what does not. The functions do nothing.
ghost use Rattle.cc_certificate_examples.specs.CertificateTexts as example;

/// A certificate begins with its form, then come its binds, one term, and nodes.
pub fn first_lines()
    ensures { example.FirstLines }
{}

/// Binds have names that differ, and types that are well formed behind the binds before them.
pub fn bind_lines()
    ensures { example.BindLines }
{}

/// The elements of a set stand in order: those with names by their binds, then local variables by their numbers, then
/// the universal capability. None stands twice, and an empty set behind `^` is not written.
pub fn set_lines()
    ensures { example.SetLines }
{}

/// A term has one text, and all that is omitted in a program is written in it. What stands in it has its binder, and
/// is of the kind of its place. Where a line of a term fits, the node behind it is bad.
pub fn term_lines()
    ensures { example.TermLines }
{}

/// A type has one text: what a function gives stands behind its arrow without parentheses, and these stand around it
/// where a set stands behind.
pub fn type_lines()
    ensures { example.TypeLines }
{}

/// A node has its number, its rule, its premises, which are the last nodes that are a premise of no other, in their
/// order, and a claim of the kind that its rule concludes.
pub fn node_lines()
    ensures { example.NodeLines }
{}
