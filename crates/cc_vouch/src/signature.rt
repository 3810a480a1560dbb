//! The type that others see of a definition, over the devices alone.

ghost use Rattle.std.specs.Prelude.{◌≡◌, IfOk};
ghost use Rattle.std.specs.Option.{option_map};
ghost use Rattle.cc_core.specs.TermViews.{type_of};
ghost use Rattle.cc_checking.specs.Avoidance.{Positive, avoided_type};
ghost use Rattle.cc_checking.specs.Verdicts.{signature_of};
ghost use Rattle.cc_vouch.specs.BindViews.{context_of};

use cc_avoid::{AvoidError, avoid_type};
use cc_base::name::Name;
use cc_core::Ty;
use std::alloc::{AllocError, Global};

// The type in which the position is avoided that was bound with the other one, if it can be.
fn avoided(alloc: Global, position: usize, bound: &Ty, ty: &Ty) -> Result<Option<Ty>, AllocError>
    ensures { IfOk result (λ t. option_map type_of t ≡ avoided_type Positive position (type_of bound.now).set (type_of ty.now)) }
{
    if position > u32::MAX as usize {
        return Err(AllocError);
    }
    match avoid_type(alloc, position as u32, &bound.set, ty) {
        Ok(avoided) => Ok(Some(avoided)),
        Err(AvoidError::Unavoidable) => Ok(None),
        Err(AvoidError::NoMemory) => Err(AllocError),
    }
}

/// The type that others see of what has the type behind the binds, of which the first so many are devices: each position
/// behind those is avoided, the latest first. There is none where one is free in a bound or in the shape of an exit.
///
/// Fails only for want of memory, as which more than 2^32 positions count.
pub fn signature(
    alloc: Global,
    binds: &[(Name, Ty)],
    devices: usize,
    ty: &Ty,
) -> Result<Option<Ty>, AllocError>
    ensures { IfOk result (λ t. option_map type_of t ≡ signature_of devices (context_of binds.now) (type_of ty.now)) }
{
    let mut left = ty.clone()?;
    let mut rest = binds;
    while rest.len() > devices {
        match rest.split_last() {
            Some((last, earlier)) => match avoided(alloc, earlier.len(), &last.1, &left)? {
                Some(next) => {
                    left = next;
                    rest = earlier;
                }
                None => return Ok(None),
            },
            None => return Ok(Some(left)),
        }
    }
    Ok(Some(left))
}
