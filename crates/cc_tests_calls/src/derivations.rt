//! What is made of the derivation of a text's last definition, as it is accepted beside three devices.
use crate::fixture::{devices, judged};
use cc_core::{Base, Bind, CapSet, Ctx, Elem, Shape, Ty};
use cc_derive::{Tree, derive_filled};
use cc_module::judgement::CheckedDef;
use std::alloc::{AllocError, Global};
use std::rc::Rc;

// The context of the three devices.
fn declared(alloc: Global) -> Result<Ctx, AllocError> {
    let mut ctx = Ctx::new();
    for base in [Base::Console, Base::Counter, Base::File] {
        let shape = Rc::new(alloc, Shape::Base(base))?;
        let set = CapSet::from_elems(alloc, &[Elem::Cap])?;
        ctx = ctx.push(alloc, Bind::Var(Ty { shape, set }))?;
    }
    Ok(ctx)
}

// What is made of the derivation of the last definition, which is made so many times.
fn last(
    alloc: Global,
    defs: &[CheckedDef],
    build: bool,
    times: u32,
) -> Result<Option<Tree>, AllocError> {
    let mut ctx = declared(alloc)?;
    let mut tree = None;
    for (index, def) in defs.iter().enumerate() {
        let after = ctx.push(alloc, Bind::Var(def.checked.sig.clone()?))?;
        if index + 1 == defs.len() {
            let inside = if def.recursive { &after } else { &ctx };
            for _time in 0..times {
                tree = Some(derive_filled(alloc, build, inside, &def.checked)?);
            }
        }
        ctx = after;
    }
    Ok(tree)
}

/// What is made of the derivation of the text's last definition, so many times; none where the text is not accepted.
pub(crate) fn derived(
    alloc: Global,
    text: &str,
    build: bool,
    times: u32,
) -> Result<Option<Tree>, AllocError> {
    match devices(alloc)? {
        Some(devices) => match judged(alloc, text.as_bytes(), &devices)? {
            Some(verdict) => match verdict.defs() {
                Ok(defs) => last(alloc, defs, build, times),
                Err(_) => Ok(None),
            },
            None => Ok(None),
        },
        None => Ok(None),
    }
}

/// How many nodes that derivation has, counted without it so many times; 0 where the text is not accepted.
pub(crate) fn size(alloc: Global, text: &str, times: u32) -> Result<u64, AllocError> {
    match derived(alloc, text, false, times)? {
        Some(tree) => Ok(tree.nodes),
        None => Ok(0),
    }
}
