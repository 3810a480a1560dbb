// Large sets: unions, equality and inclusion, once and a thousand times. Two sets without a common element are taken
// whose elements alternate, either next to one another or so far apart that no two stand in one word.
use crate::contexts::at;
use cc_core::CapSet;
use std::alloc::{AllocError, Global};

const NEAR: u32 = 1;

const FAR: u32 = 64;

// So many positions, each so far from the one before.
fn positions(alloc: Global, first: u32, count: u32, apart: u32) -> Result<CapSet, AllocError> {
    let mut set = CapSet::new(alloc);
    for index in 0..count {
        set.insert(at(first.saturating_add(index.saturating_mul(apart))))?;
    }
    Ok(set)
}

// Two sets of so many elements each, and all elements of both.
#[derive(Drop)]
struct Sides {
    left: CapSet,
    right: CapSet,
    both: CapSet,
}

fn sides_of(alloc: Global, count: u32, apart: u32) -> Result<Sides, AllocError> {
    let twice = apart.saturating_mul(2);
    Ok(Sides {
        left: positions(alloc, 0, count, twice)?,
        right: positions(alloc, apart, count, twice)?,
        both: positions(alloc, 0, count.saturating_mul(2), apart)?,
    })
}

// Whether the union is all elements of both each time.
fn unions(alloc: Global, count: u32, apart: u32, times: u32) -> Result<bool, AllocError> {
    let sides = sides_of(alloc, count, apart)?;
    let mut all = true;
    for _index in 0..times {
        all &= sides.left.union(alloc, &sides.right)? == sides.both;
    }
    Ok(all)
}

// Whether each of the two sets is included in all elements of both each time, and is another set.
fn inclusions(alloc: Global, count: u32, times: u32) -> Result<bool, AllocError> {
    let sides = sides_of(alloc, count, FAR)?;
    let again = sides.both.clone()?;
    let mut all = true;
    for _index in 0..times {
        all &= sides.left.is_subset(&sides.both) && sides.right.is_subset(&sides.both);
        all &= again == sides.both && !sides.both.is_subset(&sides.left);
    }
    Ok(all)
}

#[test]
fn unions_of_2500_once(rt: HostRuntime) -> Result<(), AllocError> {
    assert!(rt; unions(rt.alloc(), 2500, NEAR, 1)?);
    Ok(())
}

#[test]
fn unions_of_2500_a_thousand_times(rt: HostRuntime) -> Result<(), AllocError> {
    assert!(rt; unions(rt.alloc(), 2500, NEAR, 1000)?);
    Ok(())
}

#[test]
fn unions_of_5000_once(rt: HostRuntime) -> Result<(), AllocError> {
    assert!(rt; unions(rt.alloc(), 5000, NEAR, 1)?);
    Ok(())
}

#[test]
fn unions_of_5000_a_thousand_times(rt: HostRuntime) -> Result<(), AllocError> {
    assert!(rt; unions(rt.alloc(), 5000, NEAR, 1000)?);
    Ok(())
}

#[test]
fn far_unions_of_2500_once(rt: HostRuntime) -> Result<(), AllocError> {
    assert!(rt; unions(rt.alloc(), 2500, FAR, 1)?);
    Ok(())
}

#[test]
fn far_unions_of_2500_a_thousand_times(rt: HostRuntime) -> Result<(), AllocError> {
    assert!(rt; unions(rt.alloc(), 2500, FAR, 1000)?);
    Ok(())
}

#[test]
fn far_unions_of_5000_once(rt: HostRuntime) -> Result<(), AllocError> {
    assert!(rt; unions(rt.alloc(), 5000, FAR, 1)?);
    Ok(())
}

#[test]
fn far_unions_of_5000_a_thousand_times(rt: HostRuntime) -> Result<(), AllocError> {
    assert!(rt; unions(rt.alloc(), 5000, FAR, 1000)?);
    Ok(())
}

#[test]
fn inclusions_of_2500_once(rt: HostRuntime) -> Result<(), AllocError> {
    assert!(rt; inclusions(rt.alloc(), 2500, 1)?);
    Ok(())
}

#[test]
fn inclusions_of_2500_a_thousand_times(rt: HostRuntime) -> Result<(), AllocError> {
    assert!(rt; inclusions(rt.alloc(), 2500, 1000)?);
    Ok(())
}

#[test]
fn inclusions_of_5000_once(rt: HostRuntime) -> Result<(), AllocError> {
    assert!(rt; inclusions(rt.alloc(), 5000, 1)?);
    Ok(())
}

#[test]
fn inclusions_of_5000_a_thousand_times(rt: HostRuntime) -> Result<(), AllocError> {
    assert!(rt; inclusions(rt.alloc(), 5000, 1000)?);
    Ok(())
}

// A set takes no more for its greatest position than for others.
#[test]
fn the_last_position_is_one_element(rt: HostRuntime) -> Result<(), AllocError> {
    let alloc = rt.alloc();
    let first = CapSet::from_elems(alloc, &[at(0)])?;
    let last = CapSet::from_elems(alloc, &[at(4294967295)])?;
    let both = first.union(alloc, &last)?;
    assert!(rt; both.len() == 2 && both == CapSet::from_elems(alloc, &[at(4294967295), at(0)])?);
    assert!(rt; both.get(0) == Some(at(0)) && both.get(1) == Some(at(4294967295)));
    Ok(())
}
