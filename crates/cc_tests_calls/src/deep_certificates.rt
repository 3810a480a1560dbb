//! Certificates of derivations as deep as they may be. Writing and dropping take no stack for each node.
use cc_base::place::Place;
use cc_certificate_writing::cert_text;
use cc_core::{CapSet, Ctx, Form, Lit, Node};
use cc_derivation::{Claim, Der, Premises, Rule};
use cc_print::Names;
use std::alloc::{AllocError, Global};
use std::rc::Rc;
use std::test::Fail;

// A node that concludes that the empty set is below itself.
fn node(alloc: Global, rule: Rule, premises: Premises) -> Result<Rc<Der>, AllocError> {
    let claim = Claim::SetBelow(CapSet::new(alloc), CapSet::new(alloc));
    let der = Der {
        rule,
        claim,
        premises,
    };
    Ok(Rc::new(alloc, der)?)
}

fn before(alloc: Global, first: Rc<Der>, rest: Premises) -> Result<Premises, AllocError> {
    let rest = Rc::new(alloc, rest)?;
    Ok(Premises::More(first, rest))
}

// So many nodes, each over the one before it alone.
fn over_one(alloc: Global, count: u32) -> Result<Rc<Der>, AllocError> {
    let mut der = node(alloc, Rule::BySet, Premises::End)?;
    for _ in 1..count {
        let premises = before(alloc, der, Premises::End)?;
        der = node(alloc, Rule::ByVariable, premises)?;
    }
    Ok(der)
}

// So many nodes that have a leaf and then the one before them.
fn behind_leaves(alloc: Global, count: u32) -> Result<Rc<Der>, AllocError> {
    let mut der = node(alloc, Rule::ByReflexivity, Premises::End)?;
    for _ in 0..count {
        let leaf = node(alloc, Rule::ByTypeVariable, Premises::End)?;
        let last = before(alloc, der, Premises::End)?;
        let premises = before(alloc, leaf, last)?;
        der = node(alloc, Rule::ByTransitivity, premises)?;
    }
    Ok(der)
}

// So many nodes that have the one before them and then a leaf.
fn before_leaves(alloc: Global, count: u32) -> Result<Rc<Der>, AllocError> {
    let mut der = node(alloc, Rule::Variable, Premises::End)?;
    for _ in 0..count {
        let leaf = node(alloc, Rule::ByCapturing, Premises::End)?;
        let last = before(alloc, leaf, Premises::End)?;
        let premises = before(alloc, der, last)?;
        der = node(alloc, Rule::Subsumption, premises)?;
    }
    Ok(der)
}

// Its certificate, about a unit.
fn written(alloc: Global, der: &Der) -> Result<String, AllocError> {
    let at = Place { line: 1, col: 1 };
    let term = Node {
        form: Form::Lit(Lit::Unit),
        at,
        first: at,
        second: at,
    };
    let names = Names {
        names: Vec::new(alloc),
        locals: 0,
    };
    cert_text(alloc, &names, &Ctx::new(), &term, der)
}

#[test]
fn nodes_over_one_another(rt: HostRuntime) -> Result<(), Fail> {
    let der = over_one(rt.alloc(), 100_000)?;
    let text = written(rt.alloc(), &der)?;
    assert!(rt; text.as_str().ends_with("\n100000 var [99999] {} <: {}\n"));
    Ok(())
}

#[test]
fn nodes_behind_leaves(rt: HostRuntime) -> Result<(), Fail> {
    let der = behind_leaves(rt.alloc(), 49_999)?;
    let text = written(rt.alloc(), &der)?;
    assert!(rt; text.as_str().ends_with("\n99999 tran [1 99998] {} <: {}\n"));
    Ok(())
}

#[test]
fn nodes_before_leaves(rt: HostRuntime) -> Result<(), Fail> {
    let der = before_leaves(rt.alloc(), 49_999)?;
    let text = written(rt.alloc(), &der)?;
    assert!(rt;
        text.as_str()
            .ends_with("\n99999 t-sub [99997 99998] {} <: {}\n")
    );
    Ok(())
}
