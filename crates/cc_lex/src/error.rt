ghost use Rattle.std.specs.Prelude.{◌≡◌};
ghost use Rattle.cc_lex.specs.declared.error.LexError.TheVariants.{NoMemory};

use cc_base::code::Diag;
use std::alloc::{AllocError, AllocFailed};

/// Why bytes have no tokens.
#[derive(Clone, Copy, Debug, PartialEq, Eq)]
pub enum LexError {
    /// The bytes are refused: as `E01` they are no UTF-8, and as `E02` no token begins at the place.
    Refused(Diag),
    /// There is no memory for the tokens. A place or an offset past `u32::MAX` counts as that.
    NoMemory,
}

impl From<AllocError> for LexError {
    ghost from_gives = { λ _ e. e ≡ NoMemory };

    fn from(_error: AllocError) -> LexError {
        LexError::NoMemory
    }
}

impl<T: Drop> From<AllocFailed<T>> for LexError {
    ghost from_gives = { λ _ e. e ≡ NoMemory };

    fn from(_error: AllocFailed<T>) -> LexError {
        LexError::NoMemory
    }
}
