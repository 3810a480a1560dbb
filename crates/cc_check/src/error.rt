//! Why there is no accepted definition.

ghost use Rattle.std.specs.Prelude.{◌≡◌};
ghost use Rattle.cc_check.specs.Judging.{error_of};

use cc_base::code::Diag;
use cc_known::Stop;
use std::alloc::AllocError;

/// Why a definition is not accepted.
#[derive(Clone, Copy, Debug, PartialEq, Eq)]
pub enum CheckError {
    /// There is no memory.
    NoMemory,
    /// The definition is refused, with a code and a place.
    Refused(Diag),
}

impl From<AllocError> for CheckError {
    ghost use Rattle.std.specs.Prelude.{◌≡◌};
    ghost use Rattle.cc_check.specs.declared.error.CheckError.TheVariants.{NoMemory};

    ghost from_gives = { λ _ error. error ≡ NoMemory };

    fn from(_error: AllocError) -> CheckError {
        CheckError::NoMemory
    }
}

// What stops inference stops checking.
pub(crate) fn error_of(stop: Stop) -> CheckError
    ensures { result ≡ error_of stop }
{
    match stop {
        Stop::NoMemory => CheckError::NoMemory,
        Stop::Refused(diag) => CheckError::Refused(diag),
    }
}
