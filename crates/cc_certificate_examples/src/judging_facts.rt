//! Worked parts of judging, and of what is written. The functions do nothing.
ghost use Rattle.cc_certificate_examples.specs.JudgingFacts as example;

/// Behind two names and three local binders, numbers from 0 to 2 are those of the local ones, and those from 3 on are
/// binders of the claim, the outermost first; a number that none has is an index that none has.
pub fn numbers_at_a_place()
    ensures { example.NumbersAtAPlace }
{}

/// Under which binder the premises of a rule stand besides.
pub fn binders_at_premises()
    ensures { example.BindersAtPremises }
{}

/// The names of a claim fit where its binders begin at the number of the local ones and each name is of its kind; else
/// the claim is one of another kind.
pub fn names_at_a_place()
    ensures { example.NamesAtAPlace }
{}

/// Nodes are listed with the premises before them, and numbered from 1 on behind those that come before.
pub fn listed_nodes()
    ensures { example.ListedNodes }
{}

/// The answer is one line, and one of the three says that the certificate is valid.
pub fn answers_in_words()
    ensures { example.AnswersInWords }
{}

/// Binds are written from the oldest on, each with the names before it, and each line with a line feed.
pub fn written_certificates()
    ensures { example.WrittenCertificates }
{}
