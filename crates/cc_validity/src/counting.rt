//! How many nodes a derivation has, counted by a loop.

ghost use Rattle.std.specs.Prelude.{◌≡◌, ◌^◌, ◌<◌, ◌++◌, map, IfOk, OnOk};
ghost use Rattle.cc_derivation.specs.DerivationViews.{premises_of, der_of};
ghost use Rattle.cc_checking.specs.DerivationSizes.{nodes};
ghost use Rattle.cc_validity.specs.Counting.{premise_list};

use cc_derivation::{Der, Premises};
use std::alloc::{AllocError, Global};
use std::rc::Rc;

// The premises wait to be counted.
fn wait_above(premises: &Premises, waiting: &mut Vec<Rc<Der>>) -> Result<(), AllocError>
    ensures { OnOk result (map (λ d. der_of d.value) waiting.new.items ≡ map (λ d. der_of d.value) waiting.old.items ++ premise_list (premises_of premises.now)) }
{
    let mut left = premises;
    while let Premises::More(first, rest) = left {
        waiting.push(first.clone()?)?;
        left = &**rest;
    }
    Ok(())
}

/// How many nodes the derivation has. A part that is shared counts at each of its places. Fails only for want of memory.
pub(crate) fn count(alloc: Global, der: &Rc<Der>) -> Result<u32, AllocError>
    requires { nodes (der_of der.now.value) < 2 ^ 32 }
    ensures { IfOk result (λ n. n ≡ nodes (der_of der.now.value)) }
{
    let mut number = 0;
    let mut waiting = Vec::new(alloc);
    waiting.push(der.clone()?)?;
    while let Some(next) = waiting.pop() {
        number += 1;
        wait_above(&next.premises, &mut waiting)?;
    }
    Ok(number)
}
