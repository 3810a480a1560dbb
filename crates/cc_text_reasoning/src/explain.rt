//! Why a text is no module.

ghost use Rattle.std.specs.Prelude.{◌≡◌, IfOk, MatchOption};
ghost use Rattle.cc_lex.specs.Lexical.{IsRefused};
ghost use Rattle.cc_text_reasons.specs.TextReasons.{HasTextReason};
ghost use Rattle.cc_text_reasoning.specs.Answers.{HasATree};
ghost use Rattle.cc_text_reasoning.specs.Views.{reason_of};

use crate::breaks::first_break;
use crate::fronts::token_reason;
use crate::reason::TextReason;
use crate::texts::text_from;
use cc_base::code::Diag;
use cc_base::place::Place;
use cc_lex::error::LexError;
use cc_lex::lexer::lex;
use std::alloc::{AllocError, Global};

// Why the text has no tokens.
fn reason_of_refused_text(text: &[u8], refusal: Diag) -> Result<TextReason, AllocError>
    requires { IsRefused text.now refusal }
    ensures { IfOk result (λ reason. HasTextReason text.now (reason_of reason) refusal.place) }
{
    match str::from_utf8(text) {
        Ok(text) => {
            let rest = text_from(text, refusal.place)?;
            Ok(TextReason::Broken(first_break(rest)))
        }
        Err(error) => Ok(TextReason::NotUtf8(error.valid_up_to())),
    }
}

/// Why a text is no module, with its place; `None` where it is one. It fails for want of memory alone, as which a place or an
/// offset past `u32::MAX` counts.
pub fn text_reason(alloc: Global, text: &[u8]) -> Result<Option<(TextReason, Place)>, AllocError>
    ensures { IfOk result (λ answer. MatchOption answer (HasATree text.now) (λ found. HasTextReason text.now (reason_of found.0) found.1)) }
{
    match lex(alloc, text) {
        Ok(tokens) => token_reason(alloc, tokens),
        Err(LexError::Refused(refusal)) => {
            let reason = reason_of_refused_text(text, refusal)?;
            Ok(Some((reason, refusal.place)))
        }
        Err(LexError::NoMemory) => Err(AllocError),
    }
}
