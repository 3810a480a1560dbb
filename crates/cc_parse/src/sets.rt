//! Readers of sets, which take no room.

ghost use Rattle.std.specs.Prelude.{◌≡◌, IfOk};
ghost use Rattle.cc_lex.specs.Lexemes.{lexeme_of, placed_all};
ghost use Rattle.cc_grammar.specs.Reading.{AtFirst, first_step, next_step, behind_step, set_step, elements_at, caret_step, caret_at, set_at, captures_at};
ghost use Rattle.cc_parse.specs.Agreement.{Agrees};
ghost use Rattle.cc_parse.specs.Trees.{elements_syntax, captures_syntax, set_syntax};
ghost use Rattle.cc_parse.specs.Steps.{set_state, set_step_of, caret_step_of};

use crate::pieces::is_symbol;
use crate::stop::{Reading, Stop};
use crate::tree::{ElemTree, SetTree};
use cc_base::name::Name;
use cc_lex::token::{Symbol, Token, TokenKind, Word};
use std::alloc::{AllocError, Global};

/// Where reading the elements of a set stands.
#[derive(Clone, Copy)]
pub enum SetState {
    /// Behind the brace.
    First,
    /// Behind a comma.
    Next,
    /// Behind an element.
    Behind,
}

/// What a token does in a set.
#[derive(Drop)]
pub enum SetStep {
    /// It ends the set.
    Ends,
    /// It is an element.
    Takes(Option<Name>),
    /// It is the comma behind an element.
    Separates,
    /// It fits nowhere.
    Misfits,
}

fn first_step(kind: &TokenKind) -> Result<SetStep, AllocError>
    ensures { IfOk result (λ step. set_step_of step ≡ first_step (lexeme_of kind.now)) }
{
    match kind {
        TokenKind::Name(name) => Ok(SetStep::Takes(Some(name.clone()?))),
        TokenKind::Word(Word::Cap) => Ok(SetStep::Takes(None)),
        TokenKind::Symbol(Symbol::CloseBrace) => Ok(SetStep::Ends),
        _ => Ok(SetStep::Misfits),
    }
}

fn next_step(kind: &TokenKind) -> Result<SetStep, AllocError>
    ensures { IfOk result (λ step. set_step_of step ≡ next_step (lexeme_of kind.now)) }
{
    match kind {
        TokenKind::Name(name) => Ok(SetStep::Takes(Some(name.clone()?))),
        TokenKind::Word(Word::Cap) => Ok(SetStep::Takes(None)),
        _ => Ok(SetStep::Misfits),
    }
}

fn behind_step(kind: &TokenKind) -> SetStep
    ensures { set_step_of result ≡ behind_step (lexeme_of kind.now) }
{
    match kind {
        TokenKind::Symbol(Symbol::CloseBrace) => SetStep::Ends,
        TokenKind::Symbol(Symbol::Comma) => SetStep::Separates,
        _ => SetStep::Misfits,
    }
}

/// What the token does there.
fn set_step(state: SetState, kind: &TokenKind) -> Result<SetStep, AllocError>
    ensures { IfOk result (λ step. set_step_of step ≡ set_step (set_state state) (lexeme_of kind.now)) }
{
    match state {
        SetState::First => first_step(kind),
        SetState::Next => next_step(kind),
        SetState::Behind => Ok(behind_step(kind)),
    }
}

/// The elements of a set and the `}` behind them.
#[tactic(auto, unfolding(cc_grammar::specs::Reading::elements_at))]
fn read_elements(alloc: Global, spare: u32, tokens: &[Token]) -> Reading<'_, Vec<ElemTree>>
    ensures { Agrees (λ elements. elements_syntax elements.items) result (elements_at AtFirst spare (placed_all tokens.now)) }
{
    let mut elements = Vec::new(alloc);
    let mut state = SetState::First;
    let mut left = tokens;
    while let [token, rest @ ..] = left {
        match set_step(state, &token.kind)? {
            SetStep::Ends => return Ok((elements, spare, rest)),
            SetStep::Takes(name) => {
                elements.push(ElemTree { at: token.at, name })?;
                state = SetState::Behind;
            }
            SetStep::Separates => state = SetState::Next,
            SetStep::Misfits => return Err(Stop::Wrong(left)),
        }
        left = rest;
    }
    Err(Stop::Wrong(left))
}

/// What is behind `^`.
#[derive(Clone, Copy)]
pub enum CaretStep {
    /// The `?` of a set that is omitted.
    Omits,
    /// The brace of a set.
    Opens,
    /// Neither.
    Fails,
}

fn caret_step(kind: &TokenKind) -> CaretStep
    ensures { caret_step_of result ≡ caret_step (lexeme_of kind.now) }
{
    match kind {
        TokenKind::Symbol(Symbol::Question) => CaretStep::Omits,
        TokenKind::Symbol(Symbol::OpenBrace) => CaretStep::Opens,
        _ => CaretStep::Fails,
    }
}

/// `?` or `{a, b}`, behind `^`.
#[tactic(auto, unfolding(cc_grammar::specs::Reading::caret_at))]
fn read_behind_caret(alloc: Global, spare: u32, tokens: &[Token]) -> Reading<'_, SetTree>
    ensures { Agrees set_syntax result (caret_at spare (placed_all tokens.now)) }
{
    match tokens {
        [token, rest @ ..] => match caret_step(&token.kind) {
            CaretStep::Omits => Ok((SetTree::Omitted(token.at), spare, rest)),
            CaretStep::Opens => {
                let (elements, spare, rest) = read_elements(alloc, spare, rest)?;
                Ok((SetTree::Written(elements), spare, rest))
            }
            CaretStep::Fails => Err(Stop::Wrong(tokens)),
        },
        [] => Err(Stop::Wrong(tokens)),
    }
}

/// Perhaps `^?` or `^{a, b}`.
#[tactic(auto, unfolding(cc_grammar::specs::Reading::set_at))]
pub fn read_set(alloc: Global, spare: u32, tokens: &[Token]) -> Reading<'_, SetTree>
    ensures { Agrees set_syntax result (set_at spare (placed_all tokens.now)) }
{
    match tokens {
        [token, rest @ ..] if is_symbol(Symbol::Caret, &token.kind) => {
            read_behind_caret(alloc, spare, rest)
        }
        _ => Ok((SetTree::Absent, spare, tokens)),
    }
}

/// Perhaps `{a, b}`.
#[tactic(auto, unfolding(cc_grammar::specs::Reading::captures_at))]
pub fn read_captures(
    alloc: Global,
    spare: u32,
    tokens: &[Token],
) -> Reading<'_, Option<Vec<ElemTree>>>
    ensures { Agrees captures_syntax result (captures_at spare (placed_all tokens.now)) }
{
    match tokens {
        [token, rest @ ..] if is_symbol(Symbol::OpenBrace, &token.kind) => {
            let (elements, spare, rest) = read_elements(alloc, spare, rest)?;
            Ok((Some(elements), spare, rest))
        }
        _ => Ok((None, spare, tokens)),
    }
}
