use cc_base::name::Name;
use cc_base::place::Place;
use std::rc::RcStr;

/// A reserved word. The last ten begin with a capital letter.
#[derive(Clone, Copy, Debug, PartialEq, Eq)]
pub enum Word {
    /// `import`
    Import,
    /// `def`
    Def,
    /// `rec`
    Rec,
    /// `fun`
    Fun,
    /// `val`
    Val,
    /// `if`
    If,
    /// `then`
    Then,
    /// `else`
    Else,
    /// `box`
    Box,
    /// `unbox`
    Unbox,
    /// `boundary`
    Boundary,
    /// `exit`
    Exit,
    /// `repeat`
    Repeat,
    /// `true`
    True,
    /// `false`
    False,
    /// `unit`
    Unit,
    /// `cap`
    Cap,
    /// `Unit`
    UnitType,
    /// `Bool`
    BoolType,
    /// `Int`
    IntType,
    /// `Str`
    StrType,
    /// `Any`
    AnyType,
    /// `Console`
    ConsoleType,
    /// `File`
    FileType,
    /// `Counter`
    CounterType,
    /// `Exit`
    ExitType,
    /// `Box`
    BoxType,
}

/// A symbol, of one character or two.
#[derive(Clone, Copy, Debug, PartialEq, Eq)]
pub enum Symbol {
    /// `(`
    Open,
    /// `)`
    Close,
    /// `[`
    OpenBracket,
    /// `]`
    CloseBracket,
    /// `{`
    OpenBrace,
    /// `}`
    CloseBrace,
    /// `,`
    Comma,
    /// `:`
    Colon,
    /// `;`
    Semicolon,
    /// `.`
    Dot,
    /// `^`
    Caret,
    /// `?`
    Question,
    /// `=`
    Equals,
    /// `==`
    DoubleEquals,
    /// `=>`
    DoubleArrow,
    /// `->`
    Arrow,
    /// `<:`
    Below,
    /// `<`
    Less,
    /// `+`
    Plus,
    /// `-`
    Minus,
    /// `*`
    Star,
}

/// What a token is.
#[derive(Drop)]
pub enum TokenKind {
    Name(Name),
    /// A number of at most 9223372036854775807.
    Number(i64),
    /// What stands between the quotes of a string.
    Text(RcStr),
    Word(Word),
    Symbol(Symbol),
}

/// A token, with the place of its first character, and the bytes of the text that it spans: from `start` up to and
/// without `end`.
#[derive(Drop)]
pub struct Token {
    pub kind: TokenKind,
    pub at: Place,
    pub start: u32,
    pub end: u32,
}

/// The tokens of a text in order, and the place just past its last character.
#[derive(Drop)]
pub struct Tokens {
    pub tokens: Vec<Token>,
    pub end: Place,
}
