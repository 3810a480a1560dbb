//! What the first token of an expression begins, and operations by their names.

ghost use Rattle.std.specs.Prelude.{◌≡◌, IfOk, IsTrue, nat_lt};
ghost use Rattle.std.specs.List.{list_all};
ghost use Rattle.std.specs.Str.{bytes_eq};
ghost use Rattle.cc_lex.specs.Lexemes.{lexeme_of, WordLexeme, SymbolLexeme};
ghost use Rattle.cc_grammar.specs.Grammar.{takes_argument};
ghost use Rattle.cc_grammar.specs.Tests.{operation_named, operation_of};
ghost use Rattle.cc_grammar.specs.Reading.{expr_head, start_level};
ghost use Rattle.cc_parse.specs.Steps.{expr_start, expr_head_of};

use crate::tree::{ExprForm, ExprTree};
use cc_base::literal::{Lit, Op};
use cc_base::name::Name;
use cc_base::place::Place;
use cc_lex::token::{Symbol, TokenKind, Word};
use std::alloc::AllocError;

/// What the first token of an expression begins, if it is not all of it.
#[derive(Clone, Copy)]
pub enum ExprStart {
    Paren,
    Val,
    Fun,
    If,
    Boundary,
    Box,
    Unbox,
    Exit,
    Repeat,
}

/// What a token is of an expression.
#[derive(Drop)]
pub enum ExprHead {
    /// All of it.
    Whole(ExprTree),
    /// Its first.
    Starts(ExprStart),
    /// Nothing.
    Misfit,
}

/// The expression at a place that has no parts.
fn whole_expr(at: Place, form: ExprForm) -> ExprHead
    ensures { result ≡ ExprHead.Whole (record { at = at; form = form }) }
{
    ExprHead::Whole(ExprTree { at, form })
}

fn word_expr(at: Place, word: Word) -> ExprHead
    ensures { expr_head_of result ≡ expr_head at (WordLexeme word) }
{
    match word {
        Word::True => whole_expr(at, ExprForm::Lit(Lit::Bool(true))),
        Word::False => whole_expr(at, ExprForm::Lit(Lit::Bool(false))),
        Word::Unit => whole_expr(at, ExprForm::Lit(Lit::Unit)),
        Word::Val => ExprHead::Starts(ExprStart::Val),
        Word::Fun => ExprHead::Starts(ExprStart::Fun),
        Word::If => ExprHead::Starts(ExprStart::If),
        Word::Boundary => ExprHead::Starts(ExprStart::Boundary),
        Word::Box => ExprHead::Starts(ExprStart::Box),
        Word::Unbox => ExprHead::Starts(ExprStart::Unbox),
        Word::Exit => ExprHead::Starts(ExprStart::Exit),
        Word::Repeat => ExprHead::Starts(ExprStart::Repeat),
        _ => ExprHead::Misfit,
    }
}

fn symbol_expr(at: Place, symbol: Symbol) -> ExprHead
    ensures { expr_head_of result ≡ expr_head at (SymbolLexeme symbol) }
{
    match symbol {
        Symbol::Open => ExprHead::Starts(ExprStart::Paren),
        _ => ExprHead::Misfit,
    }
}

/// What the token is of an expression.
pub fn expr_head(at: Place, kind: &TokenKind) -> Result<ExprHead, AllocError>
    ensures { IfOk result (λ head. expr_head_of head ≡ expr_head at (lexeme_of kind.now)) }
{
    match kind {
        TokenKind::Name(name) => Ok(whole_expr(at, ExprForm::Name(name.clone()?))),
        TokenKind::Number(number) => Ok(whole_expr(at, ExprForm::Lit(Lit::Int(*number)))),
        TokenKind::Text(text) => Ok(whole_expr(at, ExprForm::Lit(Lit::Str(text.clone()?)))),
        TokenKind::Word(word) => Ok(word_expr(at, *word)),
        TokenKind::Symbol(symbol) => Ok(symbol_expr(at, *symbol)),
    }
}

/// How tight the expression is.
pub fn start_level(start: ExprStart) -> u32
    ensures { result ≡ start_level (expr_start start) }
{
    match start {
        ExprStart::Val | ExprStart::Fun | ExprStart::If | ExprStart::Boundary => 0,
        ExprStart::Box | ExprStart::Unbox => 4,
        ExprStart::Paren | ExprStart::Exit | ExprStart::Repeat => 5,
    }
}

/// Whether the name is this text of ASCII characters.
fn is_text(name: &Name, text: &str) -> bool
    requires { IsTrue (list_all (λ byte. nat_lt byte 128) text.now) }
    ensures { result ≡ bytes_eq name.now text.now }
{
    name.as_str() == text
}

/// The operation of this name.
#[tactic(auto, unfolding(cc_grammar::specs::Tests::operation_named))]
fn operation_named(name: &Name) -> Option<Op>
    ensures { result ≡ operation_named name.now }
{
    if is_text(name, "print") {
        Some(Op::Print)
    } else if is_text(name, "say") {
        Some(Op::Say)
    } else if is_text(name, "read") {
        Some(Op::Read)
    } else if is_text(name, "write") {
        Some(Op::Write)
    } else if is_text(name, "tick") {
        Some(Op::Tick)
    } else {
        None
    }
}

/// The operation that the token names.
pub fn operation_of(kind: &TokenKind) -> Option<Op>
    ensures { result ≡ operation_of (lexeme_of kind.now) }
{
    match kind {
        TokenKind::Name(name) => operation_named(name),
        _ => None,
    }
}

/// Whether the operation has an argument.
pub fn takes_argument(operation: Op) -> bool
    ensures { result ≡ takes_argument operation }
{
    match operation {
        Op::Print | Op::Say | Op::Write => true,
        Op::Read | Op::Tick => false,
    }
}
