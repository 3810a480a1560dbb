// Programs from texts: the definitions of an accepted module, of which the last one is applied to unit.
ghost use Rattle.std.specs.Prelude.{◌≡◌, ◌<◌, ◌≤◌, IfSome};
ghost use Rattle.std.specs.Bool.{MatchBool};
ghost use Rattle.cc_capture.specs.declared.var.Var.TheVariants.{Free};
ghost use Rattle.cc_core.specs.Terms.{Application};
ghost use Rattle.cc_core.specs.TermViews.{shape_of, term_of, type_of};
ghost use Rattle.cc_device.specs.Declarations.{declared_base, declared_bases};
ghost use Rattle.cc_verdicts.specs.ModuleLaws.{NamesOfDevicesDiffer};
ghost use Rattle.cc_machine.specs.Programs.{shapes_of};
ghost use Rattle.cc_tests_calls.specs.Linked.{AreCellsOf, AreTypedOver, IsCellOf, is_unit, takes_unit};

use crate::fixture::judged;
use cc_base::device::{DeviceDecl, Kind};
use cc_base::literal::Base;
use cc_base::place::Place;
use cc_core::{Form, Node, Shape, Ty, Var};
use cc_machine::{Program, TypedValue};
use cc_module::judgement::CheckedDef;
use std::alloc::{AllocError, Global};
use std::rc::Rc;

fn is_unit(shape: &Shape) -> bool
    ensures { result ≡ is_unit (shape_of shape.now) }
{
    match shape {
        Shape::Base(Base::Unit) => true,
        _ => false,
    }
}

fn takes_unit(ty: &Ty) -> bool
    ensures { result ≡ takes_unit (type_of ty.now).shape }
{
    match &*ty.shape {
        Shape::Fun(parameter, _) => is_unit(&parameter.shape),
        _ => false,
    }
}

fn value_of(def: &CheckedDef) -> Option<TypedValue>
    ensures { IfSome result (λ value. IsCellOf def.now value) }
{
    let value = def.checked.filled.clone().ok()?;
    let ty = def.checked.sig.clone().ok()?;
    Some(TypedValue { value, ty })
}

// The values of the definitions, with the types of their signatures.
fn values(alloc: Global, defs: &[CheckedDef]) -> Option<Vec<TypedValue>>
    ensures { IfSome result (λ values. AreCellsOf defs.now values.items) }
{
    let mut values = Vec::new(alloc);
    for def in defs {
        values.push(value_of(def)?).ok()?;
    }
    Some(values)
}

fn base_of(kind: &Kind) -> Base
    ensures { result ≡ declared_base kind.now }
{
    match kind {
        Kind::Console => Base::Console,
        Kind::File(_) => Base::File,
        Kind::Counter => Base::Counter,
    }
}

fn shapes(alloc: Global, decls: &[DeviceDecl]) -> Option<Vec<Base>>
    ensures { IfSome result (λ shapes. shapes.items ≡ declared_bases decls.now) }
{
    let mut shapes = Vec::new(alloc);
    for decl in decls {
        shapes.push(base_of(&decl.kind)).ok()?;
    }
    Some(shapes)
}

// The function applied to the argument.
fn application(alloc: Global, function: u32, argument: u32) -> Option<Rc<Node>>
    ensures { IfSome result (λ node. term_of node.value ≡ Application (Free function) (Free argument)) }
{
    let at = Place { line: 1, col: 1 };
    let form = Form::App(Var::Free(function), Var::Free(argument));
    Rc::new(
        alloc,
        Node {
            form,
            at,
            first: at,
            second: at,
        },
    )
    .ok()
}

// Whether there is a position behind this one.
fn has_next(position: u32) -> bool
    ensures { MatchBool result (position < 4294967295) (4294967295 ≤ position) }
{
    position < 4294967295
}

// The program of the definitions, of which the last is applied to unit.
fn linked(alloc: Global, decls: &[DeviceDecl], defs: &[CheckedDef]) -> Option<Program>
    requires { AreTypedOver decls.now defs.now }
    ensures { IfSome result (λ program. shapes_of program ≡ declared_bases decls.now) }
{
    let last = defs.len().checked_sub(1)?;
    if !takes_unit(&defs[last].checked.sig) {
        return None;
    }
    let function = u32::try_from(decls.len().saturating_add(last)).ok()?;
    let unit = u32::try_from(decls.len().saturating_add(defs.len())).ok()?;
    if !has_next(unit) {
        return None;
    }
    let shapes = shapes(alloc, decls)?;
    let values = values(alloc, defs)?;
    let term = application(alloc, function, unit)?;
    Some(Program::new(shapes, values, term))
}

/// The program of a text, if it has one.
pub(crate) fn program_of(alloc: Global, decls: &[DeviceDecl], text: &str) -> Option<Program>
    requires { NamesOfDevicesDiffer decls.now }
    ensures { IfSome result (λ program. shapes_of program ≡ declared_bases decls.now) }
{
    match judged(alloc, text.as_bytes(), decls) {
        Ok(Some(verdict)) => match verdict.defs() {
            Ok(defs) => linked(alloc, decls, defs),
            Err(_) => None,
        },
        _ => None,
    }
}
