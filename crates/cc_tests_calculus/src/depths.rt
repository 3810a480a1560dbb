// Deep terms, deep types and long contexts. A walk takes stack for each level of a term or a type, a drop of nested
// lets takes none, and a context has few levels however long it is.
use crate::nodes::{node_of, place};
use cc_captured::captured::cv;
use cc_core::same::same_type;
use cc_core::sizes::size;
use cc_core::substitution::{instantiate, instantiate_term};
use cc_core::wellformed::{wf, wf_term};
use cc_core::{Bind, CapSet, Ctx, Form, Lit, Node, Note, Shape, Ty, Var};
use std::alloc::{AllocError, Global};
use std::rc::Rc;

// So many lets, each the body of the one before.
fn nested_lets(alloc: Global, depth: u32) -> Result<Rc<Node>, AllocError> {
    let mut term = node_of(alloc, place(1), Form::Var(Var::Bound(0)))?;
    for _index in 0..depth {
        let right = node_of(alloc, place(2), Form::Lit(Lit::Unit))?;
        term = node_of(alloc, place(3), Form::Let(Note::Absent, right, term))?;
    }
    Ok(term)
}

fn long_context(alloc: Global, length: u32) -> Result<Ctx, AllocError> {
    let mut context = Ctx::new();
    for _index in 0..length {
        let shape = Rc::new(alloc, Shape::Any)?;
        let set = CapSet::new(alloc);
        context = context.push(alloc, Bind::Var(Ty { shape, set }))?;
    }
    Ok(context)
}

// A text has terms of a height of 100 at most.
#[test]
fn long_chains_of_lets_are_dropped(rt: HostRuntime) -> Result<(), AllocError> {
    let term = nested_lets(rt.alloc(), 200000)?;
    drop(term);
    Ok(())
}

#[test]
fn deep_terms_are_walked(rt: HostRuntime) -> Result<(), AllocError> {
    let alloc = rt.alloc();
    let term = nested_lets(alloc, 10000)?;
    assert!(rt; wf_term(alloc, &Ctx::new(), &term)?);
    assert!(rt; cv(alloc, &term)?.is_empty());
    let opened = instantiate_term(alloc, &term, 3)?;
    assert!(rt; wf_term(alloc, &Ctx::new(), &opened)?);
    Ok(())
}

// A type has a size of 4,096 at most.
#[test]
fn deep_types_are_walked(rt: HostRuntime) -> Result<(), AllocError> {
    let alloc = rt.alloc();
    let mut shape = Rc::new(alloc, Shape::Any)?;
    for _index in 0..4095 {
        let set = CapSet::new(alloc);
        let content = Rc::new(alloc, Ty { shape, set })?;
        shape = Rc::new(alloc, Shape::Boxed(content))?;
    }
    let set = CapSet::new(alloc);
    let ty = Ty { shape, set };
    assert!(rt; size(&ty) == 4096);
    assert!(rt; wf(alloc, &Ctx::new(), &ty)?);
    let opened = instantiate(alloc, &ty, 3)?;
    assert!(rt; same_type(&opened, &ty));
    Ok(())
}

#[test]
fn long_contexts_are_read_and_dropped(rt: HostRuntime) -> Result<(), AllocError> {
    let context = long_context(rt.alloc(), 200000)?;
    for position in 0..context.len() {
        assert!(rt; context.get(position).is_some());
    }
    assert!(rt; context.get(200000).is_none());
    drop(context);
    Ok(())
}
