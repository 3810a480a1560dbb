use cc_lex::token::Token;
use std::alloc::{AllocError, AllocFailed};

/// Why a reader stops. The tokens are those from the refused one on.
#[derive(Drop)]
pub enum Stop<'a> {
    /// No tree goes on with the first of these tokens, or none ends where there are no more.
    Wrong(&'a [Token]),
    /// Only trees that are too high go on with the first of these tokens.
    High(&'a [Token]),
    /// There is no memory for the tree.
    NoMemory,
}

/// What a reader answers: a tree, the height that it leaves of the room, and the tokens behind it.
pub type Reading<'a, T> = Result<(T, u32, &'a [Token]), Stop<'a>>;

impl<'a> From<AllocError> for Stop<'a> {
    ghost use Rattle.std.specs.Prelude.{◌≡◌};
    ghost use Rattle.cc_parse.specs.declared.stop.Stop.TheVariants.{NoMemory};

    ghost from_gives = { λ _ stop. stop ≡ NoMemory };

    fn from(_error: AllocError) -> Stop<'a> {
        Stop::NoMemory
    }
}

impl<'a, T: Drop> From<AllocFailed<T>> for Stop<'a> {
    ghost use Rattle.std.specs.Prelude.{◌≡◌};
    ghost use Rattle.cc_parse.specs.declared.stop.Stop.TheVariants.{NoMemory};

    ghost from_gives = { λ _ stop. stop ≡ NoMemory };

    fn from(_error: AllocFailed<T>) -> Stop<'a> {
        Stop::NoMemory
    }
}
