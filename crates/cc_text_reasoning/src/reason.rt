//! Why a text is no module.

use cc_lex::token::TokenKind;
use cc_wanted::kind::Kind;

/// What a token breaks at.
#[derive(Clone, Copy, Debug, PartialEq, Eq)]
pub enum Break {
    /// A character.
    AtCharacter(char),
    /// The end of the text.
    AtEnd,
    /// Nothing, but it is a number and too great.
    TooGreat,
}

/// Why a text is no module.
#[derive(Drop)]
pub enum TextReason {
    /// The byte of this offset is the first that is not UTF-8.
    NotUtf8(usize),
    /// A token breaks.
    Broken(Break),
    /// A token, or the end, is found where these kinds of tokens are wanted.
    Unwanted {
        found: Option<TokenKind>,
        wanted: Vec<Kind>,
    },
    /// A tree is too high.
    TooHigh,
}
