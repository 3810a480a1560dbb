//! Whether a place of a type may become larger or smaller.

ghost use Rattle.std.specs.Prelude.{◌≡◌};
ghost use Rattle.cc_checking.specs.Avoidance as plain;
ghost use Rattle.cc_avoid.specs.Avoiding.{sign_of};

/// Whether a place may become larger or smaller.
#[derive(Clone, Copy)]
pub enum Sign {
    /// It may become larger.
    Positive,
    /// It may become smaller.
    Negative,
}

/// The sign of the places that a place of the sign is against.
pub fn opposite(sign: Sign) -> Sign
    ensures { sign_of result ≡ plain.opposite (sign_of sign) }
{
    match sign {
        Sign::Positive => Sign::Negative,
        Sign::Negative => Sign::Positive,
    }
}
