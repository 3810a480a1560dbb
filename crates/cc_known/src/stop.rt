//! Why checking stops.

ghost use Rattle.std.specs.Prelude.{◌≡◌};
ghost use Rattle.cc_known.specs.declared.stop.Stop.TheVariants.{Refused};

use cc_base::code::{Code, Diag};
use cc_base::place::Place;
use std::alloc::{AllocError, AllocFailed};

/// Why checking stops before its end.
#[derive(Clone, Copy, Debug, PartialEq, Eq)]
pub enum Stop {
    /// There is no memory.
    NoMemory,
    /// What is checked is refused, with a code and a place.
    Refused(Diag),
}

impl From<AllocError> for Stop {
    ghost use Rattle.std.specs.Prelude.{◌≡◌};
    ghost use Rattle.cc_known.specs.declared.stop.Stop.TheVariants.{NoMemory};

    ghost from_gives = { λ _ stop. stop ≡ NoMemory };

    fn from(_error: AllocError) -> Stop {
        Stop::NoMemory
    }
}

impl<T: Drop> From<AllocFailed<T>> for Stop {
    ghost use Rattle.std.specs.Prelude.{◌≡◌};
    ghost use Rattle.cc_known.specs.declared.stop.Stop.TheVariants.{NoMemory};

    ghost from_gives = { λ _ stop. stop ≡ NoMemory };

    fn from(_error: AllocFailed<T>) -> Stop {
        Stop::NoMemory
    }
}

/// The refusal with the code at the place.
pub fn refused(code: Code, place: Place) -> Stop
    ensures { result ≡ Refused (record { code = code; place = place }) }
{
    Stop::Refused(Diag { code, place })
}
