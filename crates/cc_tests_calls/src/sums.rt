//! Functions that give a sum of two sums, each of them of two sums, and so on down to their parameter.
use crate::derivations::{derived, size};
use cc_derivation::node_count;
use std::alloc::{AllocError, Global};

// The text of the definition, with sums of so many levels.
fn sums(alloc: Global, levels: u32) -> Result<String, AllocError> {
    let mut sum = format!(in alloc; "x")?;
    for _level in 0..levels {
        sum = format!(in alloc; "({sum} + {sum})")?;
    }
    format!(in alloc; "def a = fun (x: Int) => {sum}")
}

// How many nodes the derivation has, which is built so many times and then gone over.
fn built(alloc: Global, levels: u32, times: u32) -> Result<u64, AllocError> {
    let text = sums(alloc, levels)?;
    match derived(alloc, &text, true, times)? {
        Some(tree) => match tree.der {
            Some(der) => Ok(node_count(&der)),
            None => Ok(0),
        },
        None => Ok(0),
    }
}

#[test]
fn sums_of_twelve_and_thirteen_levels_are_counted(rt: HostRuntime) -> Result<(), AllocError> {
    let alloc = rt.alloc();
    assert!(rt; size(alloc, &sums(alloc, 12)?, 1)? == 57330);
    assert!(rt; size(alloc, &sums(alloc, 13)?, 1)? == 114674);
    Ok(())
}

#[test]
fn sums_of_2048_once(rt: HostRuntime) -> Result<(), AllocError> {
    assert!(rt; built(rt.alloc(), 11, 1)? == 28658);
    Ok(())
}

#[test]
fn sums_of_2048_a_hundred_times(rt: HostRuntime) -> Result<(), AllocError> {
    assert!(rt; built(rt.alloc(), 11, 100)? == 28658);
    Ok(())
}

#[test]
fn sums_of_4096_once(rt: HostRuntime) -> Result<(), AllocError> {
    assert!(rt; built(rt.alloc(), 12, 1)? == 57330);
    Ok(())
}

#[test]
fn sums_of_4096_a_hundred_times(rt: HostRuntime) -> Result<(), AllocError> {
    assert!(rt; built(rt.alloc(), 12, 100)? == 57330);
    Ok(())
}
