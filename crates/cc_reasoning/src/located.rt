//! The local variables where each thing was asked that is kept.

ghost use Rattle.std.specs.Prelude.{◌≡◌, ◌++◌, ◌-◌, length, map, replicate, IfOk};
ghost use Rattle.cc_causes.specs.Views.{locals_of};

use cc_causes::reason::Locals;
use std::alloc::AllocError;
use std::rc::Rc;

/// Puts these local variables behind the others, until there are so many.
pub(crate) fn fill(
    known: &mut Vec<Rc<Locals>>,
    locals: &Rc<Locals>,
    count: usize,
) -> Result<(), AllocError>
    ensures { IfOk result (λ _. map (λ l. locals_of l.value) known.new.items ≡ map (λ l. locals_of l.value) known.old.items ++ replicate (count - length known.old.items) (locals_of locals.now.value)) }
{
    while known.len() < count {
        known.push(locals.clone()?)?;
    }
    Ok(())
}
