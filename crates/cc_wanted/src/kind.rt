ghost use Rattle.std.specs.Prelude.{◌≡◌, Some};
ghost use Rattle.cc_lex.specs.Forms.{word_text, symbol_text};
ghost use Rattle.cc_wanted.specs.KindTexts.{kind_text};

use cc_lex::token::{Symbol, Word};
use std::fmt;

/// A kind of tokens: all names, all numbers, all texts, or one word or symbol.
#[derive(Clone, Copy, Debug, PartialEq, Eq)]
pub enum Kind {
    Name,
    Number,
    Text,
    Word(Word),
    Symbol(Symbol),
}

/// As `NAME`, `NUMBER`, `TEXT`, or as the word or the symbol is spelled.
impl fmt::Display for Kind {
    ghost output = { λ kind. Some (kind_text kind) };

    fn fmt<W: fmt::Write>(&self, f: &mut fmt::Formatter<W>) -> fmt::Result {
        f.write_str(self.text())
    }
}

// The letters of the word.
fn word_text(word: Word) -> &'static str
    ensures { result.now ≡ word_text word }
{
    match word {
        Word::Import => "import",
        Word::Def => "def",
        Word::Rec => "rec",
        Word::Fun => "fun",
        Word::Val => "val",
        Word::If => "if",
        Word::Then => "then",
        Word::Else => "else",
        Word::Box => "box",
        Word::Unbox => "unbox",
        Word::Boundary => "boundary",
        Word::Exit => "exit",
        Word::Repeat => "repeat",
        Word::True => "true",
        Word::False => "false",
        Word::Unit => "unit",
        Word::Cap => "cap",
        Word::UnitType => "Unit",
        Word::BoolType => "Bool",
        Word::IntType => "Int",
        Word::StrType => "Str",
        Word::AnyType => "Any",
        Word::ConsoleType => "Console",
        Word::FileType => "File",
        Word::CounterType => "Counter",
        Word::ExitType => "Exit",
        Word::BoxType => "Box",
    }
}

// The characters of the symbol.
fn symbol_text(symbol: Symbol) -> &'static str
    ensures { result.now ≡ symbol_text symbol }
{
    match symbol {
        Symbol::Open => "(",
        Symbol::Close => ")",
        Symbol::OpenBracket => "[",
        Symbol::CloseBracket => "]",
        Symbol::OpenBrace => "{",
        Symbol::CloseBrace => "}",
        Symbol::Comma => ",",
        Symbol::Colon => ":",
        Symbol::Semicolon => ";",
        Symbol::Dot => ".",
        Symbol::Caret => "^",
        Symbol::Question => "?",
        Symbol::Equals => "=",
        Symbol::DoubleEquals => "==",
        Symbol::DoubleArrow => "=>",
        Symbol::Arrow => "->",
        Symbol::Below => "<:",
        Symbol::Less => "<",
        Symbol::Plus => "+",
        Symbol::Minus => "-",
        Symbol::Star => "*",
    }
}

impl Kind {
    /// The text by which the kind is told.
    pub fn text(self) -> &'static str
        ensures { result.now ≡ kind_text self }
    {
        match self {
            Kind::Name => "NAME",
            Kind::Number => "NUMBER",
            Kind::Text => "TEXT",
            Kind::Word(word) => word_text(word),
            Kind::Symbol(symbol) => symbol_text(symbol),
        }
    }
}
