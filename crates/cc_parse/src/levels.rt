//! How tight expressions are, and what goes on them.

ghost use Rattle.std.specs.Prelude.{◌≡◌, ◌+◌, option_map};
ghost use Rattle.cc_lex.specs.Lexemes.{lexeme_of, placed_all, SymbolLexeme};
ghost use Rattle.cc_grammar.specs.Grammar.{operator_level, left_level, level};
ghost use Rattle.cc_grammar.specs.Reading.{link_of, link_level, link_left, goes_on, next_link, behind_first};
ghost use Rattle.cc_parse.specs.Trees.{expr_syntax};
ghost use Rattle.cc_parse.specs.Steps.{link_syntax};

use crate::tree::{ExprForm, ExprTree};
use cc_base::literal::Operator;
use cc_lex::token::{Symbol, Token, TokenKind};

/// What goes on an expression that has been read.
#[derive(Clone, Copy)]
pub enum Link {
    Operator(Operator),
    Call,
    TypeCall,
    Dot,
}

/// How tightly the operator binds.
fn operator_level(operator: Operator) -> u32
    ensures { result ≡ operator_level operator }
{
    match operator {
        Operator::Less | Operator::Equal => 1,
        Operator::Add | Operator::Sub => 2,
        Operator::Mul => 3,
    }
}

/// How tight the right operand is at least.
pub fn right_level(operator: Operator) -> u32
    ensures { result ≡ 1 + operator_level operator }
{
    match operator {
        Operator::Less | Operator::Equal => 2,
        Operator::Add | Operator::Sub => 3,
        Operator::Mul => 4,
    }
}

/// How tight the left operand is at least.
fn left_level(operator: Operator) -> u32
    ensures { result ≡ left_level operator }
{
    match operator {
        Operator::Less | Operator::Equal | Operator::Add | Operator::Sub => 2,
        Operator::Mul => 3,
    }
}

/// How tight the expression is.
#[tactic(auto, using(crate::proofs::Operations::operations))]
fn level(expr: &ExprTree) -> u32
    ensures { result ≡ level (expr_syntax expr.now) }
{
    match &expr.form {
        ExprForm::Val(..)
        | ExprForm::Fun(..)
        | ExprForm::TFun(..)
        | ExprForm::If(..)
        | ExprForm::Boundary(..) => 0,
        ExprForm::Prim(operator, _, _) => operator_level(*operator),
        ExprForm::Boxed(_) | ExprForm::Unbox(..) => 4,
        ExprForm::App(..)
        | ExprForm::TApp(..)
        | ExprForm::Operate(..)
        | ExprForm::Name(_)
        | ExprForm::Lit(_)
        | ExprForm::Paren(_)
        | ExprForm::Leave(..)
        | ExprForm::Repeat(..) => 5,
    }
}

fn symbol_link(symbol: Symbol) -> Option<Link>
    ensures { option_map link_syntax result ≡ link_of (SymbolLexeme symbol) }
{
    match symbol {
        Symbol::Plus => Some(Link::Operator(Operator::Add)),
        Symbol::Minus => Some(Link::Operator(Operator::Sub)),
        Symbol::Star => Some(Link::Operator(Operator::Mul)),
        Symbol::Less => Some(Link::Operator(Operator::Less)),
        Symbol::DoubleEquals => Some(Link::Operator(Operator::Equal)),
        Symbol::Open => Some(Link::Call),
        Symbol::OpenBracket => Some(Link::TypeCall),
        Symbol::Dot => Some(Link::Dot),
        _ => None,
    }
}

/// The link that a token is.
fn link_of(kind: &TokenKind) -> Option<Link>
    ensures { option_map link_syntax result ≡ link_of (lexeme_of kind.now) }
{
    match kind {
        TokenKind::Symbol(symbol) => symbol_link(*symbol),
        _ => None,
    }
}

/// How tight what the link makes is.
fn link_level(link: Link) -> u32
    ensures { result ≡ link_level (link_syntax link) }
{
    match link {
        Link::Operator(operator) => operator_level(operator),
        Link::Call | Link::TypeCall | Link::Dot => 5,
    }
}

/// How tight what the link goes on has to be.
fn link_left(link: Link) -> u32
    ensures { result ≡ link_left (link_syntax link) }
{
    match link {
        Link::Operator(operator) => left_level(operator),
        Link::Call | Link::TypeCall | Link::Dot => 5,
    }
}

/// Whether the link goes on the expression at a place that wants so tight a one.
fn goes_on(least: u32, expr: &ExprTree, link: Link) -> bool
    ensures { result ≡ goes_on least (expr_syntax expr.now) (link_syntax link) }
{
    least <= link_level(link) && link_left(link) <= level(expr)
}

/// The link at the front of the tokens that goes on the expression.
#[tactic(auto, unfolding(cc_grammar::specs::Reading::next_link))]
#[inline(always)]
pub fn next_link(least: u32, expr: &ExprTree, tokens: &[Token]) -> Option<Link>
    ensures { option_map link_syntax result ≡ next_link least (expr_syntax expr.now) (placed_all tokens.now) }
{
    match tokens {
        [token, ..] => match link_of(&token.kind) {
            Some(link) if goes_on(least, expr, link) => Some(link),
            _ => None,
        },
        [] => None,
    }
}

/// The tokens behind the first.
pub fn behind_first(tokens: &[Token]) -> &[Token]
    ensures { placed_all result.now ≡ behind_first (placed_all tokens.now) }
{
    match tokens {
        [_, rest @ ..] => rest,
        [] => tokens,
    }
}
