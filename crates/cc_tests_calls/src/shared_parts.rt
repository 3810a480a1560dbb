// Derivations that no certificate has: a part that stands at two places, and a term with an omitted set.
use crate::nodes::{judged, leaf, node, none, over, over_both, term, type_of, unit};
use cc_capture::{CapSet, Elem, Var};
use cc_core::{Base, Bind, Ctx, Form, Operator, Shape};
use cc_derivation::{Claim, Rule};
use std::alloc::AllocError;
use std::rc::Rc;

// The root is the third node.
#[test]
fn a_shared_part_is_numbered_at_each_place(rt: HostRuntime) -> Result<(), AllocError> {
    let alloc = rt.alloc();
    let number = type_of(alloc, Shape::Base(Base::Int), &[])?;
    let ctx = Ctx::new().push(alloc, Bind::Var(number))?;
    let term = term(alloc, Form::Prim(Operator::Add, Var::Free(0), Var::Free(0)))?;
    let operand = type_of(alloc, Shape::Base(Base::Int), &[Elem::Var(Var::Free(0))])?;
    let part = leaf(alloc, Rule::Variable, operand)?;
    let claim = Claim::Typed(unit(alloc, &[])?);
    let der = over_both(alloc, Rule::Primitive, part.clone()?, part.clone()?, claim)?;
    assert!(rt; judged(alloc, &ctx, &term, &der)? == 3);
    let claim = Claim::Typed(type_of(alloc, Shape::Base(Base::Int), &[])?);
    let der = over_both(alloc, Rule::Primitive, part.clone()?, part, claim)?;
    assert!(rt; judged(alloc, &ctx, &term, &der)? == 0);
    Ok(())
}

// The premise has no place, so it does not count, though it breaks its rule.
#[test]
fn an_omitted_set_has_no_rule(rt: HostRuntime) -> Result<(), AllocError> {
    let alloc = rt.alloc();
    let content = Rc::new(alloc, unit(alloc, &[])?)?;
    let boxed = type_of(alloc, Shape::Boxed(content), &[])?;
    let ctx = Ctx::new().push(alloc, Bind::Var(boxed))?;
    let term = term(alloc, Form::Unbox(None, Var::Free(0)))?;
    let claim = Claim::SetBelow(CapSet::new(alloc), CapSet::new(alloc));
    let wrong = node(alloc, Rule::Literal, none(), claim)?;
    let claim = Claim::Typed(unit(alloc, &[])?);
    let der = over(alloc, Rule::Unboxing, wrong, claim)?;
    assert!(rt; judged(alloc, &ctx, &term, &der)? == 2);
    Ok(())
}
