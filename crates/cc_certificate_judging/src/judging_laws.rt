//! The functions do nothing. Their contracts are theorems.
ghost use Rattle.cc_certificate_judging.specs.AnswerExamples as answer;
ghost use Rattle.cc_certificate_judging.specs.AnswerLaws as answer_law;
ghost use Rattle.cc_certificate_judging.specs.JudgingExamples as example;
ghost use Rattle.cc_certificate_judging.specs.JudgingLaws as law;

/// A certificate of the identity, whole, with a type that is changed, and with another number of its binder.
pub fn identity()
    ensures nodes { example.NodesOfTheIdentity }
    ensures whole { example.IdentityIsWhole }
    ensures changed { example.TypeWithoutTheLocal }
    ensures renumbered { example.AnotherNumberOfTheBinder }
{}

/// A local name where its binder is of its kind, of the other kind, or where there is none; and a parameter of functions
/// that are compared.
pub fn local_names()
    ensures own_kind { example.LocalOfItsKind }
    ensures other_kind { example.LocalOfTheOtherKind }
    ensures no_binder { example.LocalWithoutABinder }
    ensures parameter { example.ResultsUnderTheParameter }
{}

/// A let whose first premise has names that do not fit its place, and one whose first premise claims a type.
pub fn premises_of_lets()
    ensures no_type { example.LetWithoutAType }
    ensures a_type { example.LetWithAType }
{}

/// A claim of another kind than the rule concludes fits no place.
pub fn claims_of_another_kind()
    ensures { law.ClaimsOfAnotherKindFitNoPlace }
{}

/// The nodes of a certificate are those of one tree.
pub fn trees()
    ensures some { law.CertificatesAreTrees }
    ensures one { law.TreesAreOne }
{}

/// The rules give the term the type that a certificate is judged to give. Where a node is bad, the derivation is not
/// valid.
pub fn judged_certificates()
    ensures types { law.JudgedTypesAreGiven }
    ensures bad { law.BadNodesAreNotValid }
{}

/// Each certificate that was read is judged, and in one way: it is valid at one type, or one node is the least bad one.
pub fn judgements()
    ensures some { law.CertificatesAreJudged }
    ensures trees { law.TreesAreJudged }
    ensures one { law.JudgementsAreOne }
{}

/// What is found of a certificate of the identity, whole, with a type that is changed, with a wrong premise, and without a
/// node; and of no bytes.
pub fn worked_answers()
    ensures valid { answer.IdentityIsValid }
    ensures node { answer.WrongTypeIsABadNode }
    ensures premise { answer.WrongPremiseIsABadLine }
    ensures no_node { answer.NoNodeIsABadLine }
    ensures nothing { answer.NothingIsABadLine }
{}

/// Something is found of any bytes, and one thing alone.
pub fn findings()
    ensures some { answer_law.SomethingIsFound }
    ensures one { answer_law.OneThingIsFound }
{}
