//! Why tokens are those of no module.

ghost use Rattle.std.specs.Prelude.{◌≡◌, IfOk, MatchOption, drop};
ghost use Rattle.std.specs.Option.{option_map};
ghost use Rattle.std.specs.List.{prefix_len};
ghost use Rattle.cc_grammar.specs.Reads.{Reads};
ghost use Rattle.cc_grammar.specs.Reads as plain;
ghost use Rattle.cc_lex.specs.Lexemes.{lexeme_of, placed_all};
ghost use Rattle.cc_text_reasons.specs.TextReasons.{first_of};
ghost use Rattle.cc_text_reasoning.specs.Places.{stands_elsewhere, DoPlacesRise};
ghost use Rattle.cc_text_reasoning.specs.TokenReasons.{HaveATree, AreRefused, HaveReason};
ghost use Rattle.cc_text_reasoning.specs.Views.{reason_of};

use crate::reason::TextReason;
use crate::texts::is_same;
use cc_base::code::{Code, Diag};
use cc_base::place::Place;
use cc_lex::token::{Token, TokenKind, Tokens};
use cc_parse::error::ParseError;
use cc_parse::parser::parse;
use cc_wanted::wanted::wanted;
use std::alloc::{AllocError, Global};

// How many tokens stand before the first at the place.
fn count_before(tokens: &[Token], at: Place) -> usize
    ensures { result ≡ prefix_len (stands_elsewhere at) tokens.now }
{
    tokens
        .iter()
        .take_while(|token| !is_same(token.at, at))
        .count()
}

// What the token of this index is, if there is one.
fn kind_at(mut tokens: Vec<Token>, index: usize) -> Option<TokenKind>
    ensures { option_map lexeme_of result ≡ first_of (placed_all (drop index tokens.items)) }
{
    if index < tokens.len() {
        let token = tokens.swap_remove(index);
        Some(token.kind)
    } else {
        None
    }
}

// The token at the place, or the end, is found, where others are wanted.
fn unwanted(alloc: Global, tokens: Tokens, at: Place) -> Result<TextReason, AllocError>
    requires rise { DoPlacesRise (placed_all tokens.tokens.items) tokens.end }
    requires refused { Reads (placed_all tokens.tokens.items) tokens.end (plain.SyntaxError at) }
    ensures { IfOk result (λ reason. HaveReason (placed_all tokens.tokens.items) tokens.end (reason_of reason) at) }
{
    let count = count_before(&tokens.tokens, at);
    let wanted = wanted(alloc, &tokens.tokens[..count])?;
    let found = kind_at(tokens.tokens, count);
    Ok(TextReason::Unwanted { found, wanted })
}

// Why the tokens are refused.
fn reason_of_refused_tokens(
    alloc: Global,
    tokens: Tokens,
    refusal: Diag,
) -> Result<TextReason, AllocError>
    requires rise { DoPlacesRise (placed_all tokens.tokens.items) tokens.end }
    requires refused { AreRefused (placed_all tokens.tokens.items) tokens.end refusal }
    ensures { IfOk result (λ reason. HaveReason (placed_all tokens.tokens.items) tokens.end (reason_of reason) refusal.place) }
{
    match refusal.code {
        Code::E03 => unwanted(alloc, tokens, refusal.place),
        _ => Ok(TextReason::TooHigh),
    }
}

/// Why the tokens are those of no module, with the place, if that is so.
pub(crate) fn token_reason(
    alloc: Global,
    tokens: Tokens,
) -> Result<Option<(TextReason, Place)>, AllocError>
    requires { DoPlacesRise (placed_all tokens.tokens.items) tokens.end }
    ensures { IfOk result (λ answer. MatchOption answer (HaveATree (placed_all tokens.tokens.items) tokens.end) (λ found. HaveReason (placed_all tokens.tokens.items) tokens.end (reason_of found.0) found.1)) }
{
    match parse(alloc, &tokens) {
        Ok(_) => Ok(None),
        Err(ParseError::Refused(refusal)) => {
            let reason = reason_of_refused_tokens(alloc, tokens, refusal)?;
            Ok(Some((reason, refusal.place)))
        }
        Err(ParseError::NoMemory) => Err(AllocError),
    }
}
