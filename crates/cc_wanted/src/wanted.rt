//! The kinds of tokens that are wanted behind the tokens of a module that has begun.

ghost use Rattle.std.specs.Prelude.{◌≡◌, IfOk, OnOk, [], ◌∷◌, ◌++◌, filter, if◌then◌else◌};
ghost use Rattle.cc_lex.specs.Lexemes.{lexeme_of, placed_of, placed_all};
ghost use Rattle.cc_grammar.specs.Reads.{BeginsLow};
ghost use Rattle.cc_wanted.specs.WantedTokens.{AreWanted};
ghost use Rattle.cc_wanted.specs.Trying.{end_tried, goes_on_with};
ghost use Rattle.cc_wanted.specs.Tries.{IsCopied};

use crate::kind::Kind;
use crate::trying::{END_TRIED, goes_on_with};
use cc_lex::token::{Symbol, Token, TokenKind, Tokens, Word};
use std::alloc::{AllocError, Global};

// All kinds, in the order in which they are told.
const KINDS: [Kind; 51] = [
    Kind::Name,
    Kind::Number,
    Kind::Text,
    Kind::Word(Word::Import),
    Kind::Word(Word::Def),
    Kind::Word(Word::Rec),
    Kind::Word(Word::Fun),
    Kind::Word(Word::Val),
    Kind::Word(Word::If),
    Kind::Word(Word::Then),
    Kind::Word(Word::Else),
    Kind::Word(Word::Box),
    Kind::Word(Word::Unbox),
    Kind::Word(Word::Boundary),
    Kind::Word(Word::Exit),
    Kind::Word(Word::Repeat),
    Kind::Word(Word::True),
    Kind::Word(Word::False),
    Kind::Word(Word::Unit),
    Kind::Word(Word::Cap),
    Kind::Word(Word::UnitType),
    Kind::Word(Word::BoolType),
    Kind::Word(Word::IntType),
    Kind::Word(Word::StrType),
    Kind::Word(Word::AnyType),
    Kind::Word(Word::ConsoleType),
    Kind::Word(Word::FileType),
    Kind::Word(Word::CounterType),
    Kind::Word(Word::ExitType),
    Kind::Word(Word::BoxType),
    Kind::Symbol(Symbol::Open),
    Kind::Symbol(Symbol::Close),
    Kind::Symbol(Symbol::OpenBracket),
    Kind::Symbol(Symbol::CloseBracket),
    Kind::Symbol(Symbol::OpenBrace),
    Kind::Symbol(Symbol::CloseBrace),
    Kind::Symbol(Symbol::Comma),
    Kind::Symbol(Symbol::Colon),
    Kind::Symbol(Symbol::Semicolon),
    Kind::Symbol(Symbol::Dot),
    Kind::Symbol(Symbol::Caret),
    Kind::Symbol(Symbol::Question),
    Kind::Symbol(Symbol::Equals),
    Kind::Symbol(Symbol::DoubleEquals),
    Kind::Symbol(Symbol::DoubleArrow),
    Kind::Symbol(Symbol::Arrow),
    Kind::Symbol(Symbol::Below),
    Kind::Symbol(Symbol::Less),
    Kind::Symbol(Symbol::Plus),
    Kind::Symbol(Symbol::Minus),
    Kind::Symbol(Symbol::Star),
];

// The same token. Names and texts are shared.
fn copy_of_kind(kind: &TokenKind) -> Result<TokenKind, AllocError>
    ensures { IfOk result (λ copy. lexeme_of copy ≡ lexeme_of kind.now) }
{
    match kind {
        TokenKind::Name(name) => Ok(TokenKind::Name(name.clone()?)),
        TokenKind::Number(number) => Ok(TokenKind::Number(*number)),
        TokenKind::Text(text) => Ok(TokenKind::Text(text.clone()?)),
        TokenKind::Word(word) => Ok(TokenKind::Word(*word)),
        TokenKind::Symbol(symbol) => Ok(TokenKind::Symbol(*symbol)),
    }
}

fn copy_of(token: &Token) -> Result<Token, AllocError>
    ensures { IfOk result (λ copy. placed_of copy ≡ placed_of token.now) }
{
    Ok(Token {
        kind: copy_of_kind(&token.kind)?,
        at: token.at,
        start: token.start,
        end: token.end,
    })
}

// The same tokens, which end nowhere in a text.
fn copied(alloc: Global, front: &[Token]) -> Result<Tokens, AllocError>
    ensures { IfOk result (IsCopied front.now) }
{
    let mut tokens = Vec::new(alloc);
    for token in front {
        tokens.push(copy_of(token)?)?;
    }
    Ok(Tokens {
        tokens,
        end: END_TRIED,
    })
}

// Puts the kind behind the others, if it goes on.
fn put_if(told: &mut Vec<Kind>, yes: bool, kind: Kind) -> Result<(), AllocError>
    ensures { OnOk result (told.new.items ≡ told.old.items ++ (if yes then kind ∷ [] else [])) }
{
    if yes {
        told.push(kind)?;
    }
    Ok(())
}

// Those of the kinds with which a module goes on behind the tokens.
fn kinds_behind(alloc: Global, mut tokens: Tokens, kinds: &[Kind]) -> Result<Vec<Kind>, AllocError>
    requires { tokens.end ≡ end_tried }
    ensures { IfOk result (λ told. told.items ≡ filter (goes_on_with (placed_all tokens.tokens.items)) kinds.now) }
{
    let mut told = Vec::new(alloc);
    for kind in kinds {
        let yes = goes_on_with(alloc, &mut tokens, *kind)?;
        put_if(&mut told, yes, *kind)?;
    }
    Ok(told)
}

/// The kinds of tokens with which modules go on behind a front, in their order, where modules without a tree that is too
/// high begin with it. It fails for want of memory alone.
pub fn wanted(alloc: Global, front: &[Token]) -> Result<Vec<Kind>, AllocError>
    requires { BeginsLow (placed_all front.now) }
    ensures { IfOk result (λ told. AreWanted (placed_all front.now) told.items) }
{
    let tokens = copied(alloc, front)?;
    kinds_behind(alloc, tokens, &KINDS)
}
