ghost use Rattle.std.specs.Prelude.{◌≡◌};
ghost use Rattle.cc_elaboration_reasons.specs.ElaborationCauses.{refused};
ghost use Rattle.cc_elaboration_reasoning.specs.Answers.{Halts};
ghost use Rattle.cc_elaboration_reasoning.specs.Views.{cause_seen};

use crate::refusal::{ElaborationCause, ElaborationRefusal};
use cc_base::place::Place;
use std::alloc::{AllocError, AllocFailed};

/// Why the walk stops before its end.
#[derive(Drop)]
pub enum Halt {
    /// There is no memory.
    NoMemory,
    /// The module is refused.
    Refused(ElaborationRefusal),
}

impl From<AllocError> for Halt {
    ghost use Rattle.std.specs.Prelude.{◌≡◌};
    ghost use Rattle.cc_elaboration_reasoning.specs.declared.halt.Halt.TheVariants.{NoMemory};

    ghost from_gives = { λ _ halt. halt ≡ NoMemory };

    fn from(_error: AllocError) -> Halt {
        Halt::NoMemory
    }
}

impl<T: Drop> From<AllocFailed<T>> for Halt {
    ghost use Rattle.std.specs.Prelude.{◌≡◌};
    ghost use Rattle.cc_elaboration_reasoning.specs.declared.halt.Halt.TheVariants.{NoMemory};

    ghost from_gives = { λ _ halt. halt ≡ NoMemory };

    fn from(_error: AllocFailed<T>) -> Halt {
        Halt::NoMemory
    }
}

/// Refused for the cause at the place.
pub fn refused(cause: ElaborationCause, at: Place) -> Halt
    ensures { Halts result (refused (cause_seen cause) at) }
{
    Halt::Refused(ElaborationRefusal { cause, at })
}
