ghost use Rattle.std.specs.Prelude.{◌≡◌, find};
ghost use Rattle.std.specs.Str.{chars, bytes_eq};
ghost use Rattle.cc_lex.specs.Forms.{word_text};
ghost use Rattle.cc_lex.specs.Cutting.{word_of};

use crate::token::Word;

const WORDS: [Word; 27] = [
    Word::Import,
    Word::Def,
    Word::Rec,
    Word::Fun,
    Word::Val,
    Word::If,
    Word::Then,
    Word::Else,
    Word::Box,
    Word::Unbox,
    Word::Boundary,
    Word::Exit,
    Word::Repeat,
    Word::True,
    Word::False,
    Word::Unit,
    Word::Cap,
    Word::UnitType,
    Word::BoolType,
    Word::IntType,
    Word::StrType,
    Word::AnyType,
    Word::ConsoleType,
    Word::FileType,
    Word::CounterType,
    Word::ExitType,
    Word::BoxType,
];

/// The letters of the word.
pub fn word_text(word: Word) -> &'static str
    ensures { result.now ≡ word_text word }
{
    match word {
        Word::Import => "import",
        Word::Def => "def",
        Word::Rec => "rec",
        Word::Fun => "fun",
        Word::Val => "val",
        Word::If => "if",
        Word::Then => "then",
        Word::Else => "else",
        Word::Box => "box",
        Word::Unbox => "unbox",
        Word::Boundary => "boundary",
        Word::Exit => "exit",
        Word::Repeat => "repeat",
        Word::True => "true",
        Word::False => "false",
        Word::Unit => "unit",
        Word::Cap => "cap",
        Word::UnitType => "Unit",
        Word::BoolType => "Bool",
        Word::IntType => "Int",
        Word::StrType => "Str",
        Word::AnyType => "Any",
        Word::ConsoleType => "Console",
        Word::FileType => "File",
        Word::CounterType => "Counter",
        Word::ExitType => "Exit",
        Word::BoxType => "Box",
    }
}

fn find_word(words: &[Word], text: &str) -> Option<Word>
    ensures { result ≡ find (λ word. bytes_eq (word_text word) text.now) words.now }
{
    words.iter().copied().find(|word| word_text(*word) == text)
}

/// The reserved word with these letters, if there is one.
pub fn word_of(text: &str) -> Option<Word>
    ensures { result ≡ word_of (chars text.now) }
{
    match text.len() {
        1 => None,
        2 => find_word(&[Word::If], text),
        3 => find_word(
            &[
                Word::Def,
                Word::Rec,
                Word::Fun,
                Word::Val,
                Word::Box,
                Word::Cap,
                Word::IntType,
                Word::StrType,
                Word::AnyType,
                Word::BoxType,
            ],
            text,
        ),
        4 => find_word(
            &[
                Word::Then,
                Word::Else,
                Word::Exit,
                Word::True,
                Word::Unit,
                Word::UnitType,
                Word::BoolType,
                Word::FileType,
                Word::ExitType,
            ],
            text,
        ),
        5 => find_word(&[Word::Unbox, Word::False], text),
        6 => find_word(&[Word::Import, Word::Repeat], text),
        7 => find_word(&[Word::ConsoleType, Word::CounterType], text),
        8 => find_word(&[Word::Boundary], text),
        _ => find_word(&WORDS, text),
    }
}
