//! Worked lines. The functions do nothing.
ghost use Rattle.cc_certificate_examples.specs.LineFacts as example;

/// Literals are those of the grammar: no number is negative, each is below 2^63, and a text has at most 200 characters that
/// may stand in a string.
pub fn written_literals()
    ensures { example.WrittenLiterals }
{}

/// A type is written without holes, where one has to be, and where one may be; and so is a set.
pub fn written_notes()
    ensures { example.WrittenNotes }
{}

/// Printing, saying and writing take an argument, reading and ticking take none.
pub fn arguments_of_operations()
    ensures { example.ArgumentsOfOperations }
{}

/// Each part of a term is asked whether it is written.
pub fn written_terms()
    ensures { example.WrittenTerms }
{}

/// Each rule concludes claims of one kind.
pub fn kinds_of_rules()
    ensures { example.KindsOfRules }
{}

///
pub fn kinds_of_claims()
    ensures { example.KindsOfClaims }
{}

/// Lines come from the first line to binds, from those to the term, and from there to nodes, each of which takes the last
/// unused ones that are its premises.
pub fn stages_of_lines()
    ensures { example.StagesOfLines }
{}

/// The text of a line depends on the names that stand before it, and on the number of the next node.
pub fn texts_of_lines()
    ensures { example.TextsOfLines }
{}

/// Each stage has its lines.
pub fn lines_at_stages()
    ensures { example.LinesAtStages }
{}

/// A bind has a name that none before it has, and a type that is well formed, without holes, and at most 5,000 high.
pub fn binds_that_fit()
    ensures { example.BindsThatFit }
{}

/// A term is well formed and written, and at most 5,000 high.
pub fn terms_that_fit()
    ensures { example.TermsThatFit }
{}

/// A node is one of 100,000, has a claim of its rule's kind, a number of binders where it has some, sides that are at most
/// 5,000 high, and as premises the last unused nodes in their order.
pub fn nodes_that_fit()
    ensures { example.NodesThatFit }
{}

/// So it is with each form: one part that is as high as the form may be makes it too high.
pub fn forms_beyond_the_limit()
    ensures { example.FormsBeyondTheLimit }
{}
