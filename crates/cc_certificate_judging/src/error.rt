//! Why a certificate is not found valid.

use std::alloc::{AllocError, AllocFailed};

/// Why a certificate is not found valid.
#[derive(Clone, Copy, Debug, PartialEq, Eq)]
pub enum JudgeError {
    /// There is no memory.
    NoMemory,
    /// A node breaks its rule, or its names do not fit its place. The number is the least of such a node, from 1.
    BadNode { number: u32 },
}

impl From<AllocError> for JudgeError {
    ghost use Rattle.std.specs.Prelude.{◌≡◌};
    ghost use Rattle.cc_certificate_judging.specs.declared.error.JudgeError.TheVariants.{NoMemory};

    ghost from_gives = { λ _ error. error ≡ NoMemory };

    fn from(_error: AllocError) -> JudgeError {
        JudgeError::NoMemory
    }
}

impl<T: Drop> From<AllocFailed<T>> for JudgeError {
    ghost use Rattle.std.specs.Prelude.{◌≡◌};
    ghost use Rattle.cc_certificate_judging.specs.declared.error.JudgeError.TheVariants.{NoMemory};

    ghost from_gives = { λ _ error. error ≡ NoMemory };

    fn from(_error: AllocFailed<T>) -> JudgeError {
        JudgeError::NoMemory
    }
}
