//! Why a derivation is not found valid.

use std::alloc::{AllocError, AllocFailed};

/// Why a derivation is not found valid.
#[derive(Clone, Copy, Debug, PartialEq, Eq)]
pub enum ValidityError {
    /// There is no memory.
    NoMemory,
    /// A node breaks its rule. The number is the least of such a node, in post-order from 1.
    BadNode { number: u32 },
}

impl From<AllocError> for ValidityError {
    ghost use Rattle.std.specs.Prelude.{◌≡◌};
    ghost use Rattle.cc_validity.specs.declared.error.ValidityError.TheVariants.{NoMemory};

    ghost from_gives = { λ _ error. error ≡ NoMemory };

    fn from(_error: AllocError) -> ValidityError {
        ValidityError::NoMemory
    }
}

impl<T: Drop> From<AllocFailed<T>> for ValidityError {
    ghost use Rattle.std.specs.Prelude.{◌≡◌};
    ghost use Rattle.cc_validity.specs.declared.error.ValidityError.TheVariants.{NoMemory};

    ghost from_gives = { λ _ error. error ≡ NoMemory };

    fn from(_error: AllocFailed<T>) -> ValidityError {
        ValidityError::NoMemory
    }
}
