//! Chains of closures, each of which calls the two before it. How many nodes their derivations have grows as numbers do
//! that are the sums of the two before them, while few of the nodes differ.
use crate::derivations::{derived, size};
use cc_derivation::node_count;
use cc_derive::Tree;
use std::alloc::{AllocError, Global};

// The text of a function of a console that names so many closures, at least two, and gives the last one with the
// console's set.
fn chain(alloc: Global, count: u32) -> Result<String, AllocError> {
    let mut text = format!(in alloc;
        "def main = fun (c: Console^{{cap}}) =>
  val a1 = fun (x: Int) => c.print(x);
  val a2 = fun (x: Int) => a1(x);
"
    )?;
    for index in 3..count.saturating_add(1) {
        let before = index.saturating_sub(2);
        let last = index.saturating_sub(1);
        let line = format!(in alloc;
            "  val a{index} = fun (x: Int) => val w = a{before}(x); a{last}(x);\n"
        )?;
        text.push_str(&line)?;
    }
    let end = format!(in alloc; "  val f: ((x: Int) -> Unit)^{{c}} = a{count}; f")?;
    text.push_str(&end)?;
    Ok(text)
}

// How many nodes there are, or the greatest number where that is less. That the last closure is below the console are two
// nodes and those of the two closures that it captures; for each closure 21 nodes stand elsewhere, but 6.
fn expected(count: u32) -> u64 {
    let mut older: u64 = 3;
    let mut newer: u64 = 5;
    for _index in 2..count {
        let next = older.saturating_add(newer).saturating_add(2);
        older = newer;
        newer = next;
    }
    newer
        .saturating_add(u64::from(count).saturating_mul(21))
        .saturating_sub(6)
}

// How many nodes the derivation of so many closures has, counted without it so many times.
fn counted(alloc: Global, count: u32, times: u32) -> Result<u64, AllocError> {
    size(alloc, &chain(alloc, count)?, times)
}

// How many nodes the tree of so many closures says that it has, and how many it has.
fn built(alloc: Global, count: u32) -> Result<Option<(u64, u64)>, AllocError> {
    match derived(alloc, &chain(alloc, count)?, true, 1)? {
        Some(tree) => {
            let Tree { nodes, der } = tree;
            match der {
                Some(der) => Ok(Some((nodes, node_count(&der)))),
                None => Ok(None),
            }
        }
        None => Ok(None),
    }
}

#[test]
fn chains_are_counted_as_they_are_built(rt: HostRuntime) -> Result<(), AllocError> {
    for count in [2, 3, 4, 9, 16] {
        let wanted = expected(count);
        assert!(rt; built(rt.alloc(), count)? == Some((wanted, wanted)));
    }
    Ok(())
}

#[test]
fn chains_are_counted(rt: HostRuntime) -> Result<(), AllocError> {
    let alloc = rt.alloc();
    assert!(rt; counted(alloc, 30, 1)? == 5189280);
    assert!(rt; counted(alloc, 90, 1)? == 17960294803863510860);
    // Here the number is no u64 any more.
    assert!(rt; counted(alloc, 91, 1)? == u64::MAX);
    assert!(rt; counted(alloc, 95, 1)? == u64::MAX);
    Ok(())
}

// A derivation of more nodes than there is memory for is built and dropped, since its parts are shared.
#[test]
fn a_chain_of_ninety_closures_is_built(rt: HostRuntime) -> Result<(), AllocError> {
    let alloc = rt.alloc();
    match derived(alloc, &chain(alloc, 90)?, true, 1)? {
        Some(tree) => {
            assert!(rt; tree.nodes == 17960294803863510860);
            assert!(rt; tree.der.is_some());
        }
        None => assert!(rt; false),
    }
    Ok(())
}

#[test]
fn closures_of_45_once(rt: HostRuntime) -> Result<(), AllocError> {
    assert!(rt; counted(rt.alloc(), 45, 1)? == expected(45));
    Ok(())
}

#[test]
fn closures_of_45_a_hundred_times(rt: HostRuntime) -> Result<(), AllocError> {
    assert!(rt; counted(rt.alloc(), 45, 100)? == expected(45));
    Ok(())
}

#[test]
fn closures_of_90_once(rt: HostRuntime) -> Result<(), AllocError> {
    assert!(rt; counted(rt.alloc(), 90, 1)? == expected(90));
    Ok(())
}

#[test]
fn closures_of_90_a_hundred_times(rt: HostRuntime) -> Result<(), AllocError> {
    assert!(rt; counted(rt.alloc(), 90, 100)? == expected(90));
    Ok(())
}
