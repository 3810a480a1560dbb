//! The line of one node of a derivation.

ghost use Rattle.std.specs.Prelude.{◌≡◌, ◌++◌, codes, OnOk};
ghost use Rattle.std.specs.Fmt.{decimal};
ghost use Rattle.std.specs.String.{string_bytes};
ghost use Rattle.cc_derivation.specs.DerivationViews.{rule_of, claim_of};
ghost use Rattle.cc_certificate_writing.specs.Certificates.{line};
ghost use Rattle.cc_certificate_text.specs.NodeTexts as plain;

use crate::writing::{put, put_set, put_shape, put_type};
use cc_derivation::{Claim, Rule};
use cc_print::Names;
use std::alloc::{AllocError, Global};

// The name of a rule.
fn rule_name(rule: Rule) -> &'static str
    ensures { result.now ≡ plain.rule_text (rule_of rule) }
{
    match rule {
        Rule::ByElement => "elem",
        Rule::ByVariable => "var",
        Rule::BySet => "set",
        Rule::ByReflexivity => "refl",
        Rule::ByTransitivity => "tran",
        Rule::ByTypeVariable => "tvar",
        Rule::ByTop => "top",
        Rule::ByFunction => "fun",
        Rule::ByTypeFunction => "tfun",
        Rule::ByBox => "boxed",
        Rule::ByCapturing => "capt",
        Rule::Variable => "t-var",
        Rule::Literal => "t-lit",
        Rule::Function => "t-abs",
        Rule::TypeFunction => "t-tabs",
        Rule::Application => "t-app",
        Rule::TypeApplication => "t-tapp",
        Rule::Boxing => "t-box",
        Rule::Unboxing => "t-unbox",
        Rule::Let => "t-let",
        Rule::Primitive => "t-prim",
        Rule::Choice => "t-if",
        Rule::Repetition => "t-repeat",
        Rule::Operation => "t-op",
        Rule::Boundary => "t-boundary",
        Rule::Exit => "t-exit",
        Rule::Subsumption => "t-sub",
    }
}

// Adds what a node concludes.
fn put_claim(
    alloc: Global,
    out: &mut String,
    names: &Names,
    claim: &Claim,
) -> Result<(), AllocError>
    ensures { OnOk result (string_bytes out.new ≡ string_bytes out.old ++ plain.claim_text names.now.names.items names.now.locals (claim_of claim.now)) }
{
    match claim {
        Claim::Typed(ty) => {
            put(out, ": ")?;
            put_type(alloc, out, names, ty)
        }
        Claim::TypeBelow(left, right) => {
            put_type(alloc, out, names, left)?;
            put(out, " <: ")?;
            put_type(alloc, out, names, right)
        }
        Claim::ShapeBelow(left, right) => {
            put_shape(alloc, out, names, left)?;
            put(out, " <: ")?;
            put_shape(alloc, out, names, right)
        }
        Claim::SetBelow(left, right) => {
            put_set(alloc, out, names, left)?;
            put(out, " <: ")?;
            put_set(alloc, out, names, right)
        }
    }
}

// Adds a number.
fn put_number(alloc: Global, out: &mut String, number: u64) -> Result<(), AllocError>
    ensures { OnOk result (string_bytes out.new ≡ string_bytes out.old ++ decimal number) }
{
    let text = format!(in alloc; "{number}")?;
    put(out, text.as_str())
}

// Adds numbers, each with a space before it.
fn put_others(alloc: Global, out: &mut String, numbers: &[u64]) -> Result<(), AllocError>
    ensures { OnOk result (string_bytes out.new ≡ string_bytes out.old ++ plain.other_numbers numbers.now) }
{
    for number in numbers {
        put(out, " ")?;
        put_number(alloc, out, *number)?;
    }
    Ok(())
}

// Adds numbers with a space between them.
fn put_numbers(alloc: Global, out: &mut String, numbers: &[u64]) -> Result<(), AllocError>
    ensures { OnOk result (string_bytes out.new ≡ string_bytes out.old ++ plain.numbers_text numbers.now) }
{
    match numbers.split_first() {
        Some((first, others)) => {
            put_number(alloc, out, *first)?;
            put_others(alloc, out, others)
        }
        None => Ok(()),
    }
}

// Adds the beginning of the line of a node, up to what it concludes.
fn put_rule(
    alloc: Global,
    out: &mut String,
    number: u64,
    rule: Rule,
    premises: &[u64],
) -> Result<(), AllocError>
    ensures { OnOk result (string_bytes out.new ≡ string_bytes out.old ++ (decimal number ++ codes " " ++ plain.rule_text (rule_of rule)
        ++ codes " [" ++ plain.numbers_text premises.now ++ codes "] ")) }
{
    put_number(alloc, out, number)?;
    put(out, " ")?;
    put(out, rule_name(rule))?;
    put(out, " [")?;
    put_numbers(alloc, out, premises)?;
    put(out, "] ")
}

/// Adds the line of a node with the number, the rule, the numbers of its premises and the claim, behind a front.
pub(crate) fn put_node_line(
    alloc: Global,
    out: &mut String,
    front: &str,
    names: &Names,
    number: u64,
    rule: Rule,
    premises: &[u64],
    claim: &Claim,
) -> Result<(), AllocError>
    ensures { OnOk result (string_bytes out.new ≡ string_bytes out.old ++ line (front.now ++ plain.node_line names.now.names.items names.now.locals number (rule_of rule) premises.now (claim_of claim.now))) }
{
    put(out, front)?;
    put_rule(alloc, out, number, rule, premises)?;
    put_claim(alloc, out, names, claim)?;
    put(out, "\n")
}
