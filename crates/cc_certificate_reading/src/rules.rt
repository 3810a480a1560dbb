//! The names of rules.

ghost use Rattle.std.specs.Prelude.{◌≡◌, option_map};
ghost use Rattle.cc_derivation.specs.DerivationViews as plain;
ghost use Rattle.cc_certificate_text.specs.Certificates.{rule_kind};
ghost use Rattle.cc_certificate_text.specs.LineReading.{rule_among, rule_of, rule_at};
ghost use Rattle.cc_certificate_reading.specs.Agreement.{Agrees};
ghost use Rattle.cc_certificate_reading.specs.RuleLists.{middle_rules, last_rules};
ghost use Rattle.cc_certificate_reading.specs.CertificateViews.{kind_of};

use crate::claims::ClaimKind;
use crate::stop::{Reading, Stop};
use cc_derivation::Rule;
use cc_words::words::cut_at;

// The last rules.
fn last_rule_of(word: &[u8]) -> Option<Rule>
    ensures { option_map plain.rule_of result ≡ rule_among last_rules word.now }
{
    if word == "t-let".as_bytes() {
        return Some(Rule::Let);
    }
    if word == "t-prim".as_bytes() {
        return Some(Rule::Primitive);
    }
    if word == "t-if".as_bytes() {
        return Some(Rule::Choice);
    }
    if word == "t-repeat".as_bytes() {
        return Some(Rule::Repetition);
    }
    if word == "t-op".as_bytes() {
        return Some(Rule::Operation);
    }
    if word == "t-boundary".as_bytes() {
        return Some(Rule::Boundary);
    }
    if word == "t-exit".as_bytes() {
        return Some(Rule::Exit);
    }
    if word == "t-sub".as_bytes() {
        return Some(Rule::Subsumption);
    }
    None
}

// The first rules of typing, and the last ones.
fn middle_rule_of(word: &[u8]) -> Option<Rule>
    ensures { option_map plain.rule_of result ≡ rule_among middle_rules word.now }
{
    if word == "t-var".as_bytes() {
        return Some(Rule::Variable);
    }
    if word == "t-lit".as_bytes() {
        return Some(Rule::Literal);
    }
    if word == "t-abs".as_bytes() {
        return Some(Rule::Function);
    }
    if word == "t-tabs".as_bytes() {
        return Some(Rule::TypeFunction);
    }
    if word == "t-app".as_bytes() {
        return Some(Rule::Application);
    }
    if word == "t-tapp".as_bytes() {
        return Some(Rule::TypeApplication);
    }
    if word == "t-box".as_bytes() {
        return Some(Rule::Boxing);
    }
    if word == "t-unbox".as_bytes() {
        return Some(Rule::Unboxing);
    }
    last_rule_of(word)
}

// The rule that the word is.
#[tactic(auto, unfolding(cc_certificate_text::specs::LineReading::rule_of))]
fn rule_of(word: &[u8]) -> Option<Rule>
    ensures { option_map plain.rule_of result ≡ rule_of word.now }
{
    if word == "elem".as_bytes() {
        return Some(Rule::ByElement);
    }
    if word == "var".as_bytes() {
        return Some(Rule::ByVariable);
    }
    if word == "set".as_bytes() {
        return Some(Rule::BySet);
    }
    if word == "refl".as_bytes() {
        return Some(Rule::ByReflexivity);
    }
    if word == "tran".as_bytes() {
        return Some(Rule::ByTransitivity);
    }
    if word == "tvar".as_bytes() {
        return Some(Rule::ByTypeVariable);
    }
    if word == "top".as_bytes() {
        return Some(Rule::ByTop);
    }
    if word == "fun".as_bytes() {
        return Some(Rule::ByFunction);
    }
    if word == "tfun".as_bytes() {
        return Some(Rule::ByTypeFunction);
    }
    if word == "boxed".as_bytes() {
        return Some(Rule::ByBox);
    }
    if word == "capt".as_bytes() {
        return Some(Rule::ByCapturing);
    }
    middle_rule_of(word)
}

/// A rule, and the space behind it.
#[tactic(auto, unfolding(cc_certificate_text::specs::LineReading::rule_at))]
pub fn read_rule(bytes: &[u8]) -> Reading<'_, Rule>
    ensures { Agrees plain.rule_of result (rule_at bytes.now) }
{
    let Some((word, rest)) = cut_at(bytes, b' ') else {
        return Err(Stop::Misfit);
    };
    match rule_of(word) {
        Some(rule) => Ok((rule, rest)),
        None => Err(Stop::Misfit),
    }
}

/// Of which kind the claims of the rule are.
pub fn kind_of(rule: Rule) -> ClaimKind
    ensures { kind_of result ≡ rule_kind (plain.rule_of rule) }
{
    match rule {
        Rule::ByElement | Rule::ByVariable | Rule::BySet => ClaimKind::OfSets,
        Rule::ByReflexivity
        | Rule::ByTransitivity
        | Rule::ByTypeVariable
        | Rule::ByTop
        | Rule::ByFunction
        | Rule::ByTypeFunction
        | Rule::ByBox => ClaimKind::OfShapes,
        Rule::ByCapturing => ClaimKind::OfTypes,
        _ => ClaimKind::OfTerms,
    }
}
