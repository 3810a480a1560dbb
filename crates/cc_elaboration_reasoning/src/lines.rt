//! The lines that tell a cause.

ghost use Rattle.std.specs.Prelude.{◌≡◌, ◌-◌, ◌^◌, ◌<◌, [], ◌∷◌, ◌++◌, IfOk, OnOk};
ghost use Rattle.std.specs.String.{string_bytes};
ghost use Rattle.cc_io.specs.Pieces.{Streams};
ghost use Rattle.cc_io.specs.Wholes.{WriteAllCause};
ghost use Rattle.cc_elaboration_reasons.specs.ElaborationReasonTexts as plain;
ghost use Rattle.cc_elaboration_reasoning.specs.Lines.{lines_text};
ghost use Rattle.cc_elaboration_reasoning.specs.Views.{cause_seen, form_seen, strict_place_seen};

use crate::refusal::{ElaborationCause, ExpressionForm, StrictPlace};
use cc_base::place::Place;
use cc_io::{Sink, WriteAll, pass_on};
use std::alloc::{AllocError, Global};

// The words of a form.
fn form_text(form: ExpressionForm) -> &'static str
    ensures { result.now ≡ plain.form_text (form_seen form) }
{
    match form {
        ExpressionForm::AName => "name",
        ExpressionForm::ALiteral => "literal",
        ExpressionForm::AVal => "val",
        ExpressionForm::AFunction => "function",
        ExpressionForm::ATypeFunction => "type function",
        ExpressionForm::AChoice => "if",
        ExpressionForm::ABoundary => "boundary",
        ExpressionForm::AnOperator => "operator",
        ExpressionForm::ABox => "box",
        ExpressionForm::AnUnboxing => "unbox",
        ExpressionForm::AnApplication => "application",
        ExpressionForm::ATypeApplication => "type application",
        ExpressionForm::AnOperation => "operation",
        ExpressionForm::AnExit => "exit",
        ExpressionForm::ARepetition => "repeat",
    }
}

// The words of what stands around a set that may not be omitted.
fn strict_place_text(place: StrictPlace) -> &'static str
    ensures { result.now ≡ plain.strict_place_text (strict_place_seen place) }
{
    match place {
        StrictPlace::InBox => "box",
        StrictPlace::InParameter => "function parameter",
        StrictPlace::InResult => "function result",
        StrictPlace::InTypeResult => "type function",
        StrictPlace::InExit => "exit",
        StrictPlace::InRecursion => "def rec",
    }
}

// Where a name stands first.
fn first_text(alloc: Global, first: Option<Place>) -> Result<String, AllocError>
    ensures { IfOk result (λ text. string_bytes text ≡ plain.first_text first) }
{
    match first {
        Some(place) => format!(in alloc; "{place}"),
        None => String::from_str(alloc, "device"),
    }
}

// Adds a line of two texts, behind another.
fn put_line(out: &mut String, before: &str, label: &str, text: &str) -> Result<(), AllocError>
    ensures { OnOk result (string_bytes out.new ≡ string_bytes out.old ++ ((before.now ++ (label.now ++ text.now)) ++ 10 ∷ [])) }
{
    out.push_str(before)?;
    out.push_str(label)?;
    out.push_str(text)?;
    out.push_str("\n")
}

/// Adds the lines of a cause, each behind this text. Fails only for want of memory.
pub fn put_cause_lines(
    alloc: Global,
    out: &mut String,
    before: &str,
    cause: &ElaborationCause,
) -> Result<(), AllocError>
    ensures { OnOk result (string_bytes out.new ≡ string_bytes out.old ++ lines_text before.now (plain.elaboration_cause_lines (cause_seen cause.now))) }
{
    match cause {
        ElaborationCause::Repeated { name, first } => {
            put_line(out, before, "name ", name.as_str())?;
            let first = first_text(alloc, *first)?;
            put_line(out, before, "first ", first.as_str())
        }
        ElaborationCause::UnknownName(name) => put_line(out, before, "name ", name.as_str()),
        ElaborationCause::UnknownType(name) => put_line(out, before, "name ", name.as_str()),
        ElaborationCause::NotAValue(form) => put_line(out, before, "form ", form_text(*form)),
        ElaborationCause::OmittedSet(around) => {
            put_line(out, before, "place ", strict_place_text(*around))
        }
    }
}

/// Writes the lines of a cause, each behind this text.
pub fn write_cause_lines<K: Sink>(
    alloc: Global,
    sink: &mut K,
    waiting: &mut String,
    before: &str,
    cause: &ElaborationCause,
) -> Result<(), WriteAll>
    requires { K.faults sink.old < 2 ^ 64 - 1 }
    ensures streams { Streams (K.written sink.old) (K.written sink.new) (string_bytes waiting.old) (string_bytes waiting.new) result
        (lines_text before.now (plain.elaboration_cause_lines (cause_seen cause.now))) }
    ensures cause { WriteAllCause (K.faults sink.old) (K.faults sink.new) result }
{
    let put = put_cause_lines(alloc, waiting, before, cause);
    pass_on(sink, waiting, put)
}
