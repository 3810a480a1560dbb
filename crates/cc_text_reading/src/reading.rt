//! What the text of a module is.

ghost use Rattle.std.specs.Prelude.{◌≡◌, IfOk};
ghost use Rattle.cc_grammar.specs.Reading.{reading_of};
ghost use Rattle.cc_lex.specs.Lexemes.{placed_all};
ghost use Rattle.cc_verdicts.specs.Readings.{of_tokens, reading_of_text};
ghost use Rattle.cc_text_reading.specs.TextReadings.{text_reading_of};

use cc_base::code::Diag;
use cc_lex::error::LexError;
use cc_lex::lexer::lex;
use cc_lex::token::Tokens;
use cc_parse::error::ParseError;
use cc_parse::parser::parse;
use cc_parse::tree::Module;
use std::alloc::{AllocError, Global};

/// What a text is.
#[derive(Drop)]
pub enum TextReading {
    /// A module, with its tree.
    Tree(Module),
    /// No module, with its refusal.
    NoModule(Diag),
}

// What the tokens are.
fn read_tokens(alloc: Global, tokens: &Tokens) -> Result<TextReading, AllocError>
    ensures { IfOk result (λ r. text_reading_of r ≡ of_tokens (reading_of (placed_all tokens.now.tokens.items) tokens.now.end)) }
{
    match parse(alloc, tokens) {
        Ok(tree) => Ok(TextReading::Tree(tree)),
        Err(ParseError::Refused(diag)) => Ok(TextReading::NoModule(diag)),
        Err(ParseError::NoMemory) => Err(AllocError),
    }
}

/// What the text is. Fails only for want of memory, as which a place or an offset past 2^32 - 1 counts.
pub fn read(alloc: Global, text: &[u8]) -> Result<TextReading, AllocError>
    ensures { IfOk result (λ r. text_reading_of r ≡ reading_of_text text.now) }
{
    match lex(alloc, text) {
        Ok(tokens) => read_tokens(alloc, &tokens),
        Err(LexError::Refused(diag)) => Ok(TextReading::NoModule(diag)),
        Err(LexError::NoMemory) => Err(AllocError),
    }
}
