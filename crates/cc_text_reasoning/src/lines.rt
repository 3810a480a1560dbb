//! The lines by which the reason of a text that is no module is told.

ghost use Rattle.std.specs.Prelude.{◌≡◌, ◌-◌, ◌++◌, codes, IfOk, OnOk, map, replicate};
ghost use Rattle.std.specs.Option.{option_map};
ghost use Rattle.std.specs.Str.{chars};
ghost use Rattle.std.specs.String.{string_bytes};
ghost use Rattle.cc_lex.specs.Lexemes.{lexeme_of};
ghost use Rattle.cc_print.specs.TermTexts as terms;
ghost use Rattle.cc_text_reasons.specs.TextReasonTexts.{code_point_text, break_text, lexeme_text, found_text, kinds_text, text_reason_lines};
ghost use Rattle.cc_wanted.specs.KindTexts.{kind_text};
ghost use Rattle.cc_text_reasoning.specs.Views.{break_of, reason_of};

use crate::reason::{Break, TextReason};
use cc_lex::token::TokenKind;
use cc_wanted::kind::Kind;
use std::alloc::{AllocError, Global};

// The zeros in front of so many digits, where there are to be four at least.
fn zeros(digits: usize) -> &'static str
    ensures { result.now ≡ replicate (4 - digits) 48 }
{
    match digits {
        0 => "0000",
        1 => "000",
        2 => "00",
        3 => "0",
        _ => "",
    }
}

// A character by its code point.
fn code_point_text(alloc: Global, character: char) -> Result<String, AllocError>
    ensures { IfOk result (λ text. string_bytes text ≡ code_point_text character) }
{
    let code = character as u32;
    let digits = format!(in alloc; "{code:X}")?;
    let zeros = zeros(digits.len());
    format!(in alloc; "U+{zeros}{digits}")
}

// What a token breaks at.
fn break_line(alloc: Global, broken: Break) -> Result<String, AllocError>
    ensures { IfOk result (λ line. string_bytes line ≡ break_text (break_of broken)) }
{
    match broken {
        Break::AtCharacter(character) => {
            let text = code_point_text(alloc, character)?;
            format!(in alloc; "character {text}")
        }
        Break::AtEnd => String::from_str(alloc, "end of a text"),
        Break::TooGreat => String::from_str(alloc, "number too large"),
    }
}

// A text in quotes.
fn quoted(alloc: Global, text: &str) -> Result<String, AllocError>
    ensures { IfOk result (λ quoted. string_bytes quoted ≡ terms.quoted (chars text.now)) }
{
    format!(in alloc; "\"{text}\"")
}

// A token as it is spelled.
fn token_text(alloc: Global, token: &TokenKind) -> Result<String, AllocError>
    ensures { IfOk result (λ text. string_bytes text ≡ lexeme_text (lexeme_of token.now)) }
{
    match token {
        TokenKind::Name(name) => String::from_str(alloc, name.as_str()),
        TokenKind::Number(number) => format!(in alloc; "{number}"),
        TokenKind::Text(text) => quoted(alloc, text.as_str()),
        TokenKind::Word(word) => String::from_str(alloc, Kind::Word(*word).text()),
        TokenKind::Symbol(symbol) => String::from_str(alloc, Kind::Symbol(*symbol).text()),
    }
}

// The token that is found, or the end.
fn found_line(alloc: Global, found: &Option<TokenKind>) -> Result<String, AllocError>
    ensures { IfOk result (λ line. string_bytes line ≡ codes "found " ++ found_text (option_map lexeme_of found.now)) }
{
    match found {
        Some(token) => {
            let text = token_text(alloc, token)?;
            format!(in alloc; "found {text}")
        }
        None => String::from_str(alloc, "found end"),
    }
}

// Adds the kind behind a space.
fn put_kind(line: &mut String, kind: Kind) -> Result<(), AllocError>
    ensures { OnOk result (string_bytes line.new ≡ string_bytes line.old ++ (codes " " ++ kind_text kind)) }
{
    line.push_str(" ")?;
    line.push_str(kind.text())
}

// The kinds of tokens that are wanted.
fn wanted_line(alloc: Global, wanted: &[Kind]) -> Result<String, AllocError>
    ensures { IfOk result (λ line. string_bytes line ≡ codes "wanted" ++ kinds_text wanted.now) }
{
    let mut line = String::from_str(alloc, "wanted")?;
    for kind in wanted {
        put_kind(&mut line, *kind)?;
    }
    Ok(line)
}

/// The lines by which a reason is told, without line feeds. Fails only for want of memory.
pub fn reason_lines(alloc: Global, reason: &TextReason) -> Result<Vec<String>, AllocError>
    ensures { IfOk result (λ lines. map string_bytes lines.items ≡ text_reason_lines (reason_of reason.now)) }
{
    let mut lines = Vec::new(alloc);
    match reason {
        TextReason::NotUtf8(byte) => lines.push(format!(in alloc; "byte {byte}")?)?,
        TextReason::Broken(broken) => lines.push(break_line(alloc, *broken)?)?,
        TextReason::Unwanted { found, wanted } => {
            lines.push(found_line(alloc, found)?)?;
            lines.push(wanted_line(alloc, wanted)?)?;
        }
        TextReason::TooHigh => lines.push(String::from_str(alloc, "height 100")?)?,
    }
    Ok(lines)
}
