//! Whether modules go on behind tokens with one of a kind: samples of the kind are put behind them, and all are read.

ghost use Rattle.std.specs.Prelude.{◌≡◌, ◌||◌, [], IfOk};
ghost use Rattle.std.specs.Str.{chars};
ghost use Rattle.cc_base.specs.Names.{IsName};
ghost use Rattle.cc_lex.specs.Lexemes.{NameLexeme, TextLexeme, lexeme_of, placed_all};
ghost use Rattle.cc_grammar.specs.Reading.{reading_of};
ghost use Rattle.cc_parse.specs.Answers.{refusal_of};
ghost use Rattle.cc_wanted.specs.Trying as plain;
ghost use Rattle.cc_wanted.specs.Tries.{Tells};

use crate::kind::Kind;
use cc_base::code::{Code, Diag};
use cc_base::name::{Name, NameError};
use cc_base::place::Place;
use cc_lex::token::{Token, TokenKind, Tokens};
use cc_parse::error::ParseError;
use cc_parse::parser::parse;
use std::alloc::{AllocError, Global};
use std::rc::RcStr;

/// Where the token that is tried stands: somewhere in a text.
const PLACE_TRIED: Place = Place { line: 1, col: 1 };

/// Where the tokens end that are tried: nowhere in a text, since lines count from 1.
pub const END_TRIED: Place = Place { line: 0, col: 0 };

// Whether the last token passes although all are refused so: at the end, where tokens are missing behind it, or since only
// modules that are too high go on with it.
fn lets_pass(refusal: Diag) -> bool
    ensures { result ≡ plain.lets_pass refusal.code refusal.place }
{
    match refusal.code {
        Code::E03 => refusal.place.line == 0,
        _ => true,
    }
}

// Whether the last token is not refused.
fn passes(alloc: Global, tokens: &Tokens) -> Result<bool, AllocError>
    ensures { IfOk result (λ yes. yes ≡ plain.passes (refusal_of (reading_of (placed_all tokens.now.tokens.items) tokens.now.end))) }
{
    match parse(alloc, tokens) {
        Ok(_) => Ok(true),
        Err(ParseError::Refused(refusal)) => Ok(lets_pass(refusal)),
        Err(ParseError::NoMemory) => Err(AllocError),
    }
}

// Whether the token is not refused behind the tokens, which stay.
fn goes_on(alloc: Global, tokens: &mut Tokens, kind: TokenKind) -> Result<bool, AllocError>
    requires { tokens.old.end ≡ plain.end_tried }
    ensures { IfOk result (λ yes. Tells tokens.old tokens.new yes (plain.goes_on (placed_all tokens.old.tokens.items) (lexeme_of kind))) }
{
    tokens.tokens.push(Token {
        kind,
        at: PLACE_TRIED,
        start: 0,
        end: 0,
    })?;
    let yes = passes(alloc, tokens)?;
    tokens.tokens.pop();
    Ok(yes)
}

// Whether the answer was yes already, or the name goes on.
fn or_with_name(
    alloc: Global,
    tokens: &mut Tokens,
    was: bool,
    text: &str,
) -> Result<bool, AllocError>
    requires ends { tokens.old.end ≡ plain.end_tried }
    requires name { IsName (chars text.now) }
    ensures { IfOk result (λ yes. Tells tokens.old tokens.new yes (was || plain.goes_on (placed_all tokens.old.tokens.items) (NameLexeme (chars text.now)))) }
{
    if was {
        return Ok(true);
    }
    match Name::read(alloc, text) {
        Ok(name) => goes_on(alloc, tokens, TokenKind::Name(name)),
        Err(NameError::NoMemory) => Err(AllocError),
        Err(NameError::NotAName) => unreachable!(),
    }
}

// Whether some name goes on: one that is no operation's, or that of an operation.
fn goes_on_with_name(alloc: Global, tokens: &mut Tokens) -> Result<bool, AllocError>
    requires { tokens.old.end ≡ plain.end_tried }
    ensures { IfOk result (λ yes. Tells tokens.old tokens.new yes (plain.goes_on_with (placed_all tokens.old.tokens.items) Kind.Name)) }
{
    let yes = or_with_name(alloc, tokens, false, "x")?;
    let yes = or_with_name(alloc, tokens, yes, "print")?;
    let yes = or_with_name(alloc, tokens, yes, "say")?;
    let yes = or_with_name(alloc, tokens, yes, "read")?;
    let yes = or_with_name(alloc, tokens, yes, "write")?;
    let yes = or_with_name(alloc, tokens, yes, "tick")?;
    Ok(yes)
}

// Whether a text goes on.
fn goes_on_with_text(alloc: Global, tokens: &mut Tokens) -> Result<bool, AllocError>
    requires { tokens.old.end ≡ plain.end_tried }
    ensures { IfOk result (λ yes. Tells tokens.old tokens.new yes (plain.goes_on (placed_all tokens.old.tokens.items) (TextLexeme []))) }
{
    let text = RcStr::from_str(alloc, "")?;
    goes_on(alloc, tokens, TokenKind::Text(text))
}

/// Whether a module goes on behind the tokens, which stay, with one of the kind.
pub fn goes_on_with(alloc: Global, tokens: &mut Tokens, kind: Kind) -> Result<bool, AllocError>
    requires { tokens.old.end ≡ plain.end_tried }
    ensures { IfOk result (λ yes. Tells tokens.old tokens.new yes (plain.goes_on_with (placed_all tokens.old.tokens.items) kind)) }
{
    match kind {
        Kind::Name => goes_on_with_name(alloc, tokens),
        Kind::Number => goes_on(alloc, tokens, TokenKind::Number(0)),
        Kind::Text => goes_on_with_text(alloc, tokens),
        Kind::Word(word) => goes_on(alloc, tokens, TokenKind::Word(word)),
        Kind::Symbol(symbol) => goes_on(alloc, tokens, TokenKind::Symbol(symbol)),
    }
}
