//! Readers of shapes and types.

ghost use Rattle.std.specs.Prelude.{◌≡◌, IfOk, option_map};
ghost use Rattle.cc_lex.specs.Lexemes.{lexeme_of, WordLexeme, SymbolLexeme, placed_all};
ghost use Rattle.cc_grammar.specs.Reading.{
  shape_head,
  ShapePart,
  TypePart,
  part_at,
  ExitShapeRule,
  BoxShapeRule,
  InnerRule,
  NamedInnerRule,
  FunctionShapeRule,
  TypeFunctionShapeRule,
  shape_rule_at,
  named_at,
  paren_at,
  shape_start_at,
  written_at,
};
ghost use Rattle.cc_grammar.specs.Tests.{begins_symbol};
ghost use Rattle.cc_parse.specs.Agreement.{Agrees};
ghost use Rattle.cc_parse.specs.Trees.{shape_syntax, boxed_shape_syntax, type_syntax, boxed_type_syntax};
ghost use Rattle.cc_parse.specs.Steps.{shape_start, shape_head_of};

use crate::pieces::{begins_symbol, is_symbol, read_name, read_symbol};
use crate::sets::read_set;
use crate::stop::{Reading, Stop};
use crate::tree::{ShapeForm, ShapeTree, TypeTree};
use cc_base::literal::Base;
use cc_base::name::Name;
use cc_base::place::Place;
use cc_lex::token::{Symbol, Token, TokenKind, Word};
use std::alloc::{AllocError, Global};

/// What the first token of a shape begins, if it is not all of it.
#[derive(Clone, Copy)]
pub enum ShapeStart {
    Exit,
    Box,
    Paren,
    TypeFunction,
}

/// What a token is of a shape.
#[derive(Drop)]
pub enum ShapeHead {
    /// All of it.
    Whole(ShapeTree),
    /// Its first.
    Starts(ShapeStart),
    /// Nothing.
    Misfit,
}

/// The shape at a place that has no parts.
fn whole_shape(at: Place, form: ShapeForm) -> ShapeHead
    ensures { result ≡ ShapeHead.Whole (record { at = at; form = form }) }
{
    ShapeHead::Whole(ShapeTree { at, form })
}

fn word_shape(at: Place, word: Word) -> ShapeHead
    ensures { shape_head_of result ≡ shape_head at (WordLexeme word) }
{
    match word {
        Word::UnitType => whole_shape(at, ShapeForm::Base(Base::Unit)),
        Word::BoolType => whole_shape(at, ShapeForm::Base(Base::Bool)),
        Word::IntType => whole_shape(at, ShapeForm::Base(Base::Int)),
        Word::StrType => whole_shape(at, ShapeForm::Base(Base::Str)),
        Word::ConsoleType => whole_shape(at, ShapeForm::Base(Base::Console)),
        Word::FileType => whole_shape(at, ShapeForm::Base(Base::File)),
        Word::CounterType => whole_shape(at, ShapeForm::Base(Base::Counter)),
        Word::AnyType => whole_shape(at, ShapeForm::Any),
        Word::ExitType => ShapeHead::Starts(ShapeStart::Exit),
        Word::BoxType => ShapeHead::Starts(ShapeStart::Box),
        _ => ShapeHead::Misfit,
    }
}

fn symbol_shape(at: Place, symbol: Symbol) -> ShapeHead
    ensures { shape_head_of result ≡ shape_head at (SymbolLexeme symbol) }
{
    match symbol {
        Symbol::Open => ShapeHead::Starts(ShapeStart::Paren),
        Symbol::OpenBracket => ShapeHead::Starts(ShapeStart::TypeFunction),
        _ => ShapeHead::Misfit,
    }
}

fn shape_head(at: Place, kind: &TokenKind) -> Result<ShapeHead, AllocError>
    ensures { IfOk result (λ head. shape_head_of head ≡ shape_head at (lexeme_of kind.now)) }
{
    match kind {
        TokenKind::Name(name) => Ok(whole_shape(at, ShapeForm::Name(name.clone()?))),
        TokenKind::Word(word) => Ok(word_shape(at, *word)),
        TokenKind::Symbol(symbol) => Ok(symbol_shape(at, *symbol)),
        TokenKind::Number(_) | TokenKind::Text(_) => Ok(ShapeHead::Misfit),
    }
}

/// `[S]` of an exit.
#[cycle(types)]
#[tactic(auto, unfolding(cc_grammar::specs::Reading::shape_rule_at, cc_grammar::specs::Reading::one_part_at))]
fn read_exit_shape(alloc: Global, room: u32, at: Place, tokens: &[Token]) -> Reading<'_, ShapeTree>
    ensures { Agrees shape_syntax result (shape_rule_at (part_at room) room at ExitShapeRule (placed_all tokens.now)) }
{
    let (_, spare, rest) = read_symbol(Symbol::OpenBracket, room, tokens)?;
    let (gives, part, rest) = read_shape(alloc, room, rest)?;
    let (_, spare, rest) = read_symbol(Symbol::CloseBracket, spare.min(part), rest)?;
    let gives = Box::new(alloc, gives)?;
    let form = ShapeForm::Exit(gives);
    Ok((ShapeTree { at, form }, spare, rest))
}

/// `[T]` of a box.
#[cycle(types)]
#[tactic(auto, unfolding(cc_grammar::specs::Reading::shape_rule_at, cc_grammar::specs::Reading::one_part_at))]
fn read_box_shape(alloc: Global, room: u32, at: Place, tokens: &[Token]) -> Reading<'_, ShapeTree>
    ensures { Agrees shape_syntax result (shape_rule_at (part_at room) room at BoxShapeRule (placed_all tokens.now)) }
{
    let (_, spare, rest) = read_symbol(Symbol::OpenBracket, room, tokens)?;
    let (content, part, rest) = read_type(alloc, room, rest)?;
    let (_, spare, rest) = read_symbol(Symbol::CloseBracket, spare.min(part), rest)?;
    let content = Box::new(alloc, content)?;
    let form = ShapeForm::Boxed(content);
    Ok((ShapeTree { at, form }, spare, rest))
}

/// `S)`
#[cycle(types)]
#[tactic(auto, unfolding(cc_grammar::specs::Reading::shape_rule_at, cc_grammar::specs::Reading::one_part_at))]
fn read_inner_shape(alloc: Global, room: u32, at: Place, tokens: &[Token]) -> Reading<'_, ShapeTree>
    ensures { Agrees shape_syntax result (shape_rule_at (part_at room) room at InnerRule (placed_all tokens.now)) }
{
    let (inner, part, rest) = read_shape(alloc, room, tokens)?;
    let (_, spare, rest) = read_symbol(Symbol::Close, room.min(part), rest)?;
    let inner = Box::new(alloc, inner)?;
    let form = ShapeForm::Paren(inner);
    Ok((ShapeTree { at, form }, spare, rest))
}

/// The `)` behind a name in parentheses.
#[tactic(auto, unfolding(cc_grammar::specs::Reading::shape_rule_at))]
fn read_named_inner(
    alloc: Global,
    room: u32,
    at: Place,
    name_at: Place,
    name: Name,
    tokens: &[Token],
) -> Reading<'_, ShapeTree>
    ensures { Agrees shape_syntax result (shape_rule_at (part_at room) room at (NamedInnerRule name_at name) (placed_all tokens.now)) }
{
    let (_, spare, rest) = read_symbol(Symbol::Close, room, tokens)?;
    let form = ShapeForm::Name(name);
    let inner = Box::new(alloc, ShapeTree { at: name_at, form })?;
    let form = ShapeForm::Paren(inner);
    Ok((ShapeTree { at, form }, spare, rest))
}

/// `: T) -> U`
#[cycle(types)]
#[tactic(auto, unfolding(cc_grammar::specs::Reading::shape_rule_at, cc_grammar::specs::Reading::one_part_at))]
fn read_function_shape(
    alloc: Global,
    room: u32,
    at: Place,
    parameter: Name,
    tokens: &[Token],
) -> Reading<'_, ShapeTree>
    ensures { Agrees shape_syntax result (shape_rule_at (part_at room) room at (FunctionShapeRule parameter) (placed_all tokens.now)) }
{
    let (_, spare, rest) = read_symbol(Symbol::Colon, room, tokens)?;
    let (takes, part, rest) = read_type(alloc, room, rest)?;
    let (_, spare, rest) = read_symbol(Symbol::Close, spare.min(part), rest)?;
    let (_, spare, rest) = read_symbol(Symbol::Arrow, spare, rest)?;
    let (gives, part, rest) = read_type(alloc, room, rest)?;
    let takes = Box::new(alloc, takes)?;
    let gives = Box::new(alloc, gives)?;
    let form = ShapeForm::Fun(parameter, takes, gives);
    Ok((ShapeTree { at, form }, spare.min(part), rest))
}

/// `X <: S] -> T`
#[cycle(types)]
#[tactic(auto, unfolding(cc_grammar::specs::Reading::shape_rule_at, cc_grammar::specs::Reading::one_part_at))]
fn read_type_function_shape(
    alloc: Global,
    room: u32,
    at: Place,
    tokens: &[Token],
) -> Reading<'_, ShapeTree>
    ensures { Agrees shape_syntax result (shape_rule_at (part_at room) room at TypeFunctionShapeRule (placed_all tokens.now)) }
{
    let (parameter, spare, rest) = read_name(room, tokens)?;
    let (_, spare, rest) = read_symbol(Symbol::Below, spare, rest)?;
    let (bound, part, rest) = read_shape(alloc, room, rest)?;
    let (_, spare, rest) = read_symbol(Symbol::CloseBracket, spare.min(part), rest)?;
    let (_, spare, rest) = read_symbol(Symbol::Arrow, spare, rest)?;
    let (gives, part, rest) = read_type(alloc, room, rest)?;
    let bound = Box::new(alloc, bound)?;
    let gives = Box::new(alloc, gives)?;
    let form = ShapeForm::TFun(parameter, bound, gives);
    Ok((ShapeTree { at, form }, spare.min(part), rest))
}

/// What is behind `(` and a name: the `)` of a pair of parentheses, or the parameter's type of a function.
#[cycle(types)]
#[tactic(auto, unfolding(cc_grammar::specs::Reading::named_at))]
fn read_behind_name(
    alloc: Global,
    room: u32,
    at: Place,
    name_at: Place,
    name: Name,
    tokens: &[Token],
) -> Reading<'_, ShapeTree>
    ensures { Agrees shape_syntax result (named_at (part_at room) room at (name_at, name) (placed_all tokens.now)) }
{
    if begins_symbol(Symbol::Colon, tokens) {
        read_function_shape(alloc, room, at, name, tokens)
    } else {
        read_named_inner(alloc, room, at, name_at, name, tokens)
    }
}

/// What is behind `(`.
#[cycle(types)]
#[tactic(auto, unfolding(cc_grammar::specs::Reading::paren_at))]
fn read_behind_paren(
    alloc: Global,
    room: u32,
    at: Place,
    tokens: &[Token],
) -> Reading<'_, ShapeTree>
    ensures { Agrees shape_syntax result (paren_at (part_at room) room at (placed_all tokens.now)) }
{
    match tokens {
        [token, rest @ ..] => match &token.kind {
            TokenKind::Name(name) => {
                let name = name.clone()?;
                read_behind_name(alloc, room, at, token.at, name, rest)
            }
            _ => read_inner_shape(alloc, room, at, tokens),
        },
        [] => Err(Stop::Wrong(tokens)),
    }
}

/// A shape, from behind its first token on.
#[cycle(types)]
#[tactic(auto, unfolding(cc_grammar::specs::Reading::shape_start_at))]
fn read_shape_start(
    alloc: Global,
    room: u32,
    at: Place,
    start: ShapeStart,
    tokens: &[Token],
) -> Reading<'_, ShapeTree>
    ensures { Agrees shape_syntax result (shape_start_at (part_at room) room at (shape_start start) (placed_all tokens.now)) }
{
    match start {
        ShapeStart::Exit => read_exit_shape(alloc, room, at, tokens),
        ShapeStart::Box => read_box_shape(alloc, room, at, tokens),
        ShapeStart::Paren => read_behind_paren(alloc, room, at, tokens),
        ShapeStart::TypeFunction => read_type_function_shape(alloc, room, at, tokens),
    }
}

/// A shape with so many levels below it at most.
#[cycle(types)]
fn read_shape(alloc: Global, room: u32, tokens: &[Token]) -> Reading<'_, ShapeTree>
    ensures { Agrees shape_syntax result (part_at room ShapePart (placed_all tokens.now)) }
{
    match tokens {
        [token, rest @ ..] => match shape_head(token.at, &token.kind)? {
            ShapeHead::Whole(shape) => Ok((shape, room, rest)),
            ShapeHead::Starts(_) if room == 0 => Err(Stop::High(tokens)),
            ShapeHead::Starts(start) => read_shape_start(alloc, room - 1, token.at, start, rest),
            ShapeHead::Misfit => Err(Stop::Wrong(tokens)),
        },
        [] => Err(Stop::Wrong(tokens)),
    }
}

/// A type: a shape, perhaps with a set.
#[cycle(types)]
#[tactic(auto, using(crate::proofs::Parts::type_parts))]
fn read_type(alloc: Global, room: u32, tokens: &[Token]) -> Reading<'_, TypeTree>
    ensures { Agrees type_syntax result (part_at room TypePart (placed_all tokens.now)) }
{
    let (shape, spare, rest) = read_shape(alloc, room, tokens)?;
    let (set, spare, rest) = read_set(alloc, spare, rest)?;
    let at = shape.at;
    Ok((TypeTree { at, shape, set }, spare, rest))
}

/// A shape, in a box.
pub fn read_boxed_shape(alloc: Global, room: u32, tokens: &[Token]) -> Reading<'_, Box<ShapeTree>>
    ensures { Agrees boxed_shape_syntax result (part_at room ShapePart (placed_all tokens.now)) }
{
    let (shape, spare, rest) = read_shape(alloc, room, tokens)?;
    let shape = Box::new(alloc, shape)?;
    Ok((shape, spare, rest))
}

/// A type, in a box.
#[inline(always)]
pub fn read_boxed_type(alloc: Global, room: u32, tokens: &[Token]) -> Reading<'_, Box<TypeTree>>
    ensures { Agrees boxed_type_syntax result (part_at room TypePart (placed_all tokens.now)) }
{
    let (tree, spare, rest) = read_type(alloc, room, tokens)?;
    let tree = Box::new(alloc, tree)?;
    Ok((tree, spare, rest))
}

/// Perhaps `: T`, with the type in a box.
#[tactic(auto, unfolding(cc_grammar::specs::Reading::written_at))]
pub fn read_boxed_written(
    alloc: Global,
    room: u32,
    spare: u32,
    tokens: &[Token],
) -> Reading<'_, Option<Box<TypeTree>>>
    ensures { Agrees (option_map boxed_type_syntax) result (written_at (part_at room) spare (placed_all tokens.now)) }
{
    match tokens {
        [token, rest @ ..] if is_symbol(Symbol::Colon, &token.kind) => {
            let (written, part, rest) = read_boxed_type(alloc, room, rest)?;
            Ok((Some(written), spare.min(part), rest))
        }
        _ => Ok((None, spare, tokens)),
    }
}

/// The type out of its box, if there is one.
pub fn unboxed(written: Option<Box<TypeTree>>) -> Option<TypeTree>
    ensures { result ≡ option_map (λ tree. tree.value) written }
{
    match written {
        Some(tree) => Some(Box::into_inner(tree)),
        None => None,
    }
}
