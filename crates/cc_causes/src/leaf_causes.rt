//! The causes of forms without parts that are refused, by the code.

ghost use Rattle.std.specs.Prelude.{◌≡◌, Some, IfOk, MatchOption};
ghost use Rattle.cc_base.specs.Literals.{literal_of};
ghost use Rattle.cc_base.specs.declared.code.Code.TheVariants as codes;
ghost use Rattle.cc_base.specs.declared.literal.Base.TheVariants as bases;
ghost use Rattle.cc_core.specs.Shapes.{BaseShape};
ghost use Rattle.cc_core.specs.Typing.{base_taken};
ghost use Rattle.cc_core.specs.Terms.{VariableTerm, LiteralTerm, BoxTerm, Application, TypeApplication, Unboxing, Primitive, Repetition, Operation, Leave};
ghost use Rattle.cc_core.specs.TermViews.{shape_of, type_of, term_of, context_of};
ghost use Rattle.cc_core.specs.WellFormed.{IsWellFormedContext};
ghost use Rattle.cc_causes.specs.LeafReasons.{IsCauseIn, IsExposedAs, IsMisplaced, IsOfOperands, opened_under};
ghost use Rattle.cc_causes.specs.Views.{scene_of, cause_of};

use crate::causes::{too_large, wrong_head, wrong_shape, wrong_type};
use crate::heads::{
    box_content, exit_shape, exposed_shape, function_parts, matches_base, shape_of_variable,
    type_function_parts, type_of_variable,
};
use crate::reason::{Cause, Head, Scene};
use cc_base::code::Code;
use cc_base::literal::{Base, Lit, Op, Operator};
use cc_capture::{CapSet, Var};
use cc_core::reading::{read_set, read_shape, read_type};
use cc_core::substitution::{subst_type, subst_var};
use cc_core::{Ctx, Form, Node, Shape, Ty};
use cc_known::steps::{entries, in_context};
use cc_type::bases::{
    base_answered, base_given, base_of, base_operated, base_shape, base_taken, base_type,
    function_on_numbers, pure_type,
};
use std::alloc::{AllocError, Global};
use std::rc::Rc;

// A variable is refused for its size alone.
fn variable_cause(
    alloc: Global,
    scene: &Scene,
    variable: Var,
    code: Code,
) -> Result<Cause, AllocError>
    ensures { IfOk result (λ c. IsCauseIn code (scene_of scene.now) (VariableTerm variable) (cause_of c)) }
{
    let ty = type_of_variable(alloc, &scene.ctx, variable)?;
    let cause = too_large(scene, ty)?;
    Ok(cause)
}

// So is a literal, which never is.
fn literal_cause(
    alloc: Global,
    scene: &Scene,
    literal: &Lit,
    code: Code,
) -> Result<Cause, AllocError>
    ensures { IfOk result (λ c. IsCauseIn code (scene_of scene.now) (LiteralTerm (literal_of literal.now)) (cause_of c)) }
{
    let ty = base_type(alloc, base_of(literal))?;
    let cause = too_large(scene, ty)?;
    Ok(cause)
}

// And so is a box.
fn box_cause(alloc: Global, scene: &Scene, content: Var, code: Code) -> Result<Cause, AllocError>
    ensures { IfOk result (λ c. IsCauseIn code (scene_of scene.now) (BoxTerm content) (cause_of c)) }
{
    let inside = type_of_variable(alloc, &scene.ctx, content)?;
    let shape = Rc::new(alloc, Shape::Boxed(Rc::new(alloc, inside)?))?;
    let cause = too_large(scene, pure_type(alloc, shape))?;
    Ok(cause)
}

// What stands at the head is no function.
fn application_head(
    scene: &Scene,
    function: Var,
    argument: Var,
    code: Code,
    found: Rc<Shape>,
) -> Result<Cause, AllocError>
    requires exposed { IsExposedAs (context_of scene.now.ctx) function (shape_of found.value) }
    requires code { code ≡ codes.E13 }
    ensures { IfOk result (λ c. IsCauseIn code (scene_of scene.now) (Application function argument) (cause_of c)) }
{
    let cause = wrong_head(scene, found, Head::AFunction)?;
    Ok(cause)
}

// The argument of a function does not match.
fn application_mismatch(
    alloc: Global,
    scene: &Scene,
    function: Var,
    argument: Var,
    code: Code,
    found: &Rc<Shape>,
) -> Result<Cause, AllocError>
    requires exposed { IsExposedAs (context_of scene.now.ctx) function (shape_of found.now.value) }
    requires code { code ≡ codes.E14 }
    ensures { IfOk result (λ c. IsCauseIn code (scene_of scene.now) (Application function argument) (cause_of c)) }
{
    let (takes, _) = function_parts(found)?;
    let wanted = takes.as_ref().clone()?;
    let given = type_of_variable(alloc, &scene.ctx, argument)?;
    let cause = wrong_type(scene, given, wanted)?;
    Ok(cause)
}

// What a function gives is too large.
fn application_large(
    alloc: Global,
    scene: &Scene,
    function: Var,
    argument: Var,
    code: Code,
    found: &Rc<Shape>,
) -> Result<Cause, AllocError>
    requires exposed { IsExposedAs (context_of scene.now.ctx) function (shape_of found.now.value) }
    requires no_head { code ≡ codes.E13 → ⊥ }
    requires no_mismatch { code ≡ codes.E14 → ⊥ }
    ensures { IfOk result (λ c. IsCauseIn code (scene_of scene.now) (Application function argument) (cause_of c)) }
{
    let (_, gives) = function_parts(found)?;
    let ty = subst_var(alloc, gives, in_context(&scene.ctx, argument))?;
    let cause = too_large(scene, ty)?;
    Ok(cause)
}

// Why a function applied to a variable is refused.
fn application_cause(
    alloc: Global,
    scene: &Scene,
    function: Var,
    argument: Var,
    code: Code,
) -> Result<Cause, AllocError>
    requires { IsWellFormedContext (context_of scene.now.ctx) }
    ensures { IfOk result (λ c. IsCauseIn code (scene_of scene.now) (Application function argument) (cause_of c)) }
{
    let found = exposed_shape(alloc, &scene.ctx, function)?;
    match code {
        Code::E13 => application_head(scene, function, argument, code, found),
        Code::E14 => application_mismatch(alloc, scene, function, argument, code, &found),
        _ => application_large(alloc, scene, function, argument, code, &found),
    }
}

// What stands at the head is no type function.
fn type_application_head(
    scene: &Scene,
    function: Var,
    argument: &Rc<Shape>,
    code: Code,
    found: Rc<Shape>,
) -> Result<Cause, AllocError>
    requires exposed { IsExposedAs (context_of scene.now.ctx) function (shape_of found.value) }
    requires code { code ≡ codes.E13 }
    ensures { IfOk result (λ c. IsCauseIn code (scene_of scene.now) (TypeApplication function (shape_of argument.now.value)) (cause_of c)) }
{
    let cause = wrong_head(scene, found, Head::ATypeFunction)?;
    Ok(cause)
}

// The argument of a type function does not match.
fn type_application_mismatch(
    alloc: Global,
    scene: &Scene,
    function: Var,
    argument: &Rc<Shape>,
    code: Code,
    found: &Rc<Shape>,
) -> Result<Cause, AllocError>
    requires exposed { IsExposedAs (context_of scene.now.ctx) function (shape_of found.now.value) }
    requires code { code ≡ codes.E14 }
    ensures { IfOk result (λ c. IsCauseIn code (scene_of scene.now) (TypeApplication function (shape_of argument.now.value)) (cause_of c)) }
{
    let (bound, _) = type_function_parts(found)?;
    let wanted = bound.clone()?;
    let read = read_shape(alloc, argument, entries(&scene.ctx))?;
    let cause = wrong_shape(scene, read, wanted)?;
    Ok(cause)
}

// What a type function gives is too large.
fn type_application_large(
    alloc: Global,
    scene: &Scene,
    function: Var,
    argument: &Rc<Shape>,
    code: Code,
    found: &Rc<Shape>,
) -> Result<Cause, AllocError>
    requires exposed { IsExposedAs (context_of scene.now.ctx) function (shape_of found.now.value) }
    requires no_head { code ≡ codes.E13 → ⊥ }
    requires no_mismatch { code ≡ codes.E14 → ⊥ }
    ensures { IfOk result (λ c. IsCauseIn code (scene_of scene.now) (TypeApplication function (shape_of argument.now.value)) (cause_of c)) }
{
    let (_, gives) = type_function_parts(found)?;
    let read = read_shape(alloc, argument, entries(&scene.ctx))?;
    let ty = subst_type(alloc, gives, &read)?;
    let cause = too_large(scene, ty)?;
    Ok(cause)
}

// Why a type function applied to a shape is refused.
fn type_application_cause(
    alloc: Global,
    scene: &Scene,
    function: Var,
    argument: &Rc<Shape>,
    code: Code,
) -> Result<Cause, AllocError>
    requires { IsWellFormedContext (context_of scene.now.ctx) }
    ensures { IfOk result (λ c. IsCauseIn code (scene_of scene.now) (TypeApplication function (shape_of argument.now.value)) (cause_of c)) }
{
    let found = exposed_shape(alloc, &scene.ctx, function)?;
    match code {
        Code::E13 => type_application_head(scene, function, argument, code, found),
        Code::E14 => type_application_mismatch(alloc, scene, function, argument, code, &found),
        _ => type_application_large(alloc, scene, function, argument, code, &found),
    }
}

// The set under which a box is opened.
fn opened_set(
    alloc: Global,
    ctx: &Ctx,
    content: &CapSet,
    set: &Option<CapSet>,
) -> Result<CapSet, AllocError>
    ensures { IfOk result (λ s. s ≡ opened_under (context_of ctx.now) content.now set.now) }
{
    match set {
        Some(set) => read_set(alloc, set, entries(ctx)),
        None => content.clone(),
    }
}

// What is opened is no box.
fn unboxing_head(
    scene: &Scene,
    set: &Option<CapSet>,
    content: Var,
    code: Code,
    found: Rc<Shape>,
) -> Result<Cause, AllocError>
    requires exposed { IsExposedAs (context_of scene.now.ctx) content (shape_of found.value) }
    requires code { code ≡ codes.E13 }
    ensures { IfOk result (λ c. IsCauseIn code (scene_of scene.now) (Unboxing set.now content) (cause_of c)) }
{
    let cause = wrong_head(scene, found, Head::ABox)?;
    Ok(cause)
}

// What is in a box is too large.
fn unboxing_large(
    alloc: Global,
    scene: &Scene,
    set: &Option<CapSet>,
    content: Var,
    code: Code,
    found: &Rc<Shape>,
) -> Result<Cause, AllocError>
    requires exposed { IsExposedAs (context_of scene.now.ctx) content (shape_of found.now.value) }
    requires no_head { code ≡ codes.E13 → ⊥ }
    ensures { IfOk result (λ c. IsCauseIn code (scene_of scene.now) (Unboxing set.now content) (cause_of c)) }
{
    let inside = box_content(found)?;
    let under = opened_set(alloc, &scene.ctx, &inside.set, set)?;
    let shape = inside.shape.clone()?;
    let cause = too_large(scene, Ty { shape, set: under })?;
    Ok(cause)
}

// Why the opening of a box is refused.
fn unboxing_cause(
    alloc: Global,
    scene: &Scene,
    set: &Option<CapSet>,
    content: Var,
    code: Code,
) -> Result<Cause, AllocError>
    requires { IsWellFormedContext (context_of scene.now.ctx) }
    ensures { IfOk result (λ c. IsCauseIn code (scene_of scene.now) (Unboxing set.now content) (cause_of c)) }
{
    let found = exposed_shape(alloc, &scene.ctx, content)?;
    match code {
        Code::E13 => unboxing_head(scene, set, content, code, found),
        _ => unboxing_large(alloc, scene, set, content, code, &found),
    }
}

// Which of two operands does not match: the first, which has to be a number, or the second, for which this is wanted.
fn operands_cause(
    alloc: Global,
    scene: &Scene,
    left: Var,
    right: Var,
    wanted: Rc<Shape>,
) -> Result<Cause, AllocError>
    requires { IsWellFormedContext (context_of scene.now.ctx) }
    ensures { IfOk result (λ c. IsOfOperands (scene_of scene.now) left right (BaseShape bases.Int) (shape_of wanted.value) (cause_of c)) }
{
    let first = shape_of_variable(alloc, &scene.ctx, left)?;
    let matches = matches_base(alloc, &scene.ctx, left, Base::Int)?;
    if matches {
        let second = shape_of_variable(alloc, &scene.ctx, right)?;
        let cause = wrong_shape(scene, second, wanted)?;
        return Ok(cause);
    }
    let number = base_shape(alloc, Base::Int)?;
    let cause = wrong_shape(scene, first, number)?;
    Ok(cause)
}

// An operand of an operator is no number.
fn primitive_mismatch(
    alloc: Global,
    scene: &Scene,
    operator: Operator,
    left: Var,
    right: Var,
    code: Code,
) -> Result<Cause, AllocError>
    requires formed { IsWellFormedContext (context_of scene.now.ctx) }
    requires code { code ≡ codes.E14 }
    ensures { IfOk result (λ c. IsCauseIn code (scene_of scene.now) (Primitive operator left right) (cause_of c)) }
{
    let number = base_shape(alloc, Base::Int)?;
    let cause = operands_cause(alloc, scene, left, right, number)?;
    Ok(cause)
}

// What an operator gives is never too large.
fn primitive_large(
    alloc: Global,
    scene: &Scene,
    operator: Operator,
    left: Var,
    right: Var,
    code: Code,
) -> Result<Cause, AllocError>
    requires no_mismatch { code ≡ codes.E14 → ⊥ }
    ensures { IfOk result (λ c. IsCauseIn code (scene_of scene.now) (Primitive operator left right) (cause_of c)) }
{
    let ty = base_type(alloc, base_given(operator))?;
    let cause = too_large(scene, ty)?;
    Ok(cause)
}

// Why an operator on two variables is refused.
fn primitive_cause(
    alloc: Global,
    scene: &Scene,
    operator: Operator,
    left: Var,
    right: Var,
    code: Code,
) -> Result<Cause, AllocError>
    requires { IsWellFormedContext (context_of scene.now.ctx) }
    ensures { IfOk result (λ c. IsCauseIn code (scene_of scene.now) (Primitive operator left right) (cause_of c)) }
{
    match code {
        Code::E14 => primitive_mismatch(alloc, scene, operator, left, right, code),
        _ => primitive_large(alloc, scene, operator, left, right, code),
    }
}

// The count of a repetition is no number, or what is repeated is no function on numbers.
fn repetition_mismatch(
    alloc: Global,
    scene: &Scene,
    count: Var,
    function: Var,
    code: Code,
) -> Result<Cause, AllocError>
    requires formed { IsWellFormedContext (context_of scene.now.ctx) }
    requires code { code ≡ codes.E14 }
    ensures { IfOk result (λ c. IsCauseIn code (scene_of scene.now) (Repetition count function) (cause_of c)) }
{
    let wanted = function_on_numbers(alloc)?;
    let cause = operands_cause(alloc, scene, count, function, wanted)?;
    Ok(cause)
}

// What a repetition gives is never too large.
fn repetition_large(
    alloc: Global,
    scene: &Scene,
    count: Var,
    function: Var,
    code: Code,
) -> Result<Cause, AllocError>
    requires no_mismatch { code ≡ codes.E14 → ⊥ }
    ensures { IfOk result (λ c. IsCauseIn code (scene_of scene.now) (Repetition count function) (cause_of c)) }
{
    let ty = base_type(alloc, Base::Unit)?;
    let cause = too_large(scene, ty)?;
    Ok(cause)
}

// Why a repetition is refused.
fn repetition_cause(
    alloc: Global,
    scene: &Scene,
    count: Var,
    function: Var,
    code: Code,
) -> Result<Cause, AllocError>
    requires { IsWellFormedContext (context_of scene.now.ctx) }
    ensures { IfOk result (λ c. IsCauseIn code (scene_of scene.now) (Repetition count function) (cause_of c)) }
{
    match code {
        Code::E14 => repetition_mismatch(alloc, scene, count, function, code),
        _ => repetition_large(alloc, scene, count, function, code),
    }
}

// The base of the argument that is taken, and the argument, where both are there.
fn taken_argument(taken: Option<Base>, argument: Option<Var>) -> Option<(Base, Var)>
    ensures { MatchOption result (IsMisplaced taken argument) (λ p. (taken ≡ Some p.0) × (argument ≡ Some p.1)) }
{
    match taken {
        Some(base) => match argument {
            Some(variable) => Some((base, variable)),
            None => None,
        },
        None => None,
    }
}

// What is operated is no device of the base.
fn operation_head(
    scene: &Scene,
    operation: Op,
    receiver: Var,
    argument: Option<Var>,
    code: Code,
    found: Rc<Shape>,
) -> Result<Cause, AllocError>
    requires exposed { IsExposedAs (context_of scene.now.ctx) receiver (shape_of found.value) }
    requires code { code ≡ codes.E13 }
    ensures { IfOk result (λ c. IsCauseIn code (scene_of scene.now) (Operation operation receiver argument) (cause_of c)) }
{
    let wanted = Head::ABase(base_operated(operation));
    let cause = wrong_head(scene, found, wanted)?;
    Ok(cause)
}

// An argument is there where none is taken, or is not where one is.
fn operation_misplaced(
    _scene: &Scene,
    operation: Op,
    receiver: Var,
    argument: Option<Var>,
    code: Code,
    _found: &Rc<Shape>,
) -> Result<Cause, AllocError>
    requires exposed { IsExposedAs (context_of _scene.now.ctx) receiver (shape_of _found.now.value) }
    requires code { code ≡ codes.E14 }
    requires misplaced { IsMisplaced (base_taken operation) argument }
    ensures { IfOk result (λ c. IsCauseIn code (scene_of _scene.now) (Operation operation receiver argument) (cause_of c)) }
{
    Ok(Cause::NothingThere)
}

// The argument of an operation does not match.
fn operation_argument(
    alloc: Global,
    scene: &Scene,
    operation: Op,
    receiver: Var,
    argument: Option<Var>,
    code: Code,
    found: &Rc<Shape>,
    base: Base,
    variable: Var,
) -> Result<Cause, AllocError>
    requires exposed { IsExposedAs (context_of scene.now.ctx) receiver (shape_of found.now.value) }
    requires formed { IsWellFormedContext (context_of scene.now.ctx) }
    requires code { code ≡ codes.E14 }
    requires taken { base_taken operation ≡ Some base }
    requires there { argument ≡ Some variable }
    ensures { IfOk result (λ c. IsCauseIn code (scene_of scene.now) (Operation operation receiver argument) (cause_of c)) }
{
    let given = shape_of_variable(alloc, &scene.ctx, variable)?;
    let wanted = base_shape(alloc, base)?;
    let cause = wrong_shape(scene, given, wanted)?;
    Ok(cause)
}

// The argument of an operation is not what is taken.
fn operation_mismatch(
    alloc: Global,
    scene: &Scene,
    operation: Op,
    receiver: Var,
    argument: Option<Var>,
    code: Code,
    found: &Rc<Shape>,
) -> Result<Cause, AllocError>
    requires exposed { IsExposedAs (context_of scene.now.ctx) receiver (shape_of found.now.value) }
    requires formed { IsWellFormedContext (context_of scene.now.ctx) }
    requires code { code ≡ codes.E14 }
    ensures { IfOk result (λ c. IsCauseIn code (scene_of scene.now) (Operation operation receiver argument) (cause_of c)) }
{
    match taken_argument(base_taken(operation), argument) {
        Some((base, variable)) => operation_argument(
            alloc, scene, operation, receiver, argument, code, found, base, variable,
        ),
        None => operation_misplaced(scene, operation, receiver, argument, code, found),
    }
}

// What an operation answers is never too large.
fn operation_large(
    alloc: Global,
    scene: &Scene,
    operation: Op,
    receiver: Var,
    argument: Option<Var>,
    code: Code,
    _found: &Rc<Shape>,
) -> Result<Cause, AllocError>
    requires exposed { IsExposedAs (context_of scene.now.ctx) receiver (shape_of _found.now.value) }
    requires no_head { code ≡ codes.E13 → ⊥ }
    requires no_mismatch { code ≡ codes.E14 → ⊥ }
    ensures { IfOk result (λ c. IsCauseIn code (scene_of scene.now) (Operation operation receiver argument) (cause_of c)) }
{
    let ty = base_type(alloc, base_answered(operation))?;
    let cause = too_large(scene, ty)?;
    Ok(cause)
}

// Why an operation of a device is refused.
fn operation_cause(
    alloc: Global,
    scene: &Scene,
    operation: Op,
    receiver: Var,
    argument: Option<Var>,
    code: Code,
) -> Result<Cause, AllocError>
    requires { IsWellFormedContext (context_of scene.now.ctx) }
    ensures { IfOk result (λ c. IsCauseIn code (scene_of scene.now) (Operation operation receiver argument) (cause_of c)) }
{
    let found = exposed_shape(alloc, &scene.ctx, receiver)?;
    match code {
        Code::E13 => operation_head(scene, operation, receiver, argument, code, found),
        Code::E14 => operation_mismatch(alloc, scene, operation, receiver, argument, code, &found),
        _ => operation_large(alloc, scene, operation, receiver, argument, code, &found),
    }
}

// What is left through is no exit.
fn leave_head(
    scene: &Scene,
    gives: &Rc<Ty>,
    exit: Var,
    value: Var,
    code: Code,
    found: Rc<Shape>,
) -> Result<Cause, AllocError>
    requires exposed { IsExposedAs (context_of scene.now.ctx) exit (shape_of found.value) }
    requires code { code ≡ codes.E13 }
    ensures { IfOk result (λ c. IsCauseIn code (scene_of scene.now) (Leave (shape_of gives.now.value.shape.value) gives.now.value.set exit value) (cause_of c)) }
{
    let cause = wrong_head(scene, found, Head::AnExit)?;
    Ok(cause)
}

// The value that a boundary is left with does not match.
fn leave_mismatch(
    alloc: Global,
    scene: &Scene,
    gives: &Rc<Ty>,
    exit: Var,
    value: Var,
    code: Code,
    found: &Rc<Shape>,
) -> Result<Cause, AllocError>
    requires exposed { IsExposedAs (context_of scene.now.ctx) exit (shape_of found.now.value) }
    requires code { code ≡ codes.E14 }
    ensures { IfOk result (λ c. IsCauseIn code (scene_of scene.now) (Leave (shape_of gives.now.value.shape.value) gives.now.value.set exit value) (cause_of c)) }
{
    let takes = exit_shape(found)?;
    let wanted = takes.clone()?;
    let given = type_of_variable(alloc, &scene.ctx, value)?;
    let cause = wrong_type(scene, given, pure_type(alloc, wanted))?;
    Ok(cause)
}

// What leaving stands for is too large.
fn leave_large(
    alloc: Global,
    scene: &Scene,
    gives: &Rc<Ty>,
    exit: Var,
    value: Var,
    code: Code,
    _found: &Rc<Shape>,
) -> Result<Cause, AllocError>
    requires exposed { IsExposedAs (context_of scene.now.ctx) exit (shape_of _found.now.value) }
    requires no_head { code ≡ codes.E13 → ⊥ }
    requires no_mismatch { code ≡ codes.E14 → ⊥ }
    ensures { IfOk result (λ c. IsCauseIn code (scene_of scene.now) (Leave (shape_of gives.now.value.shape.value) gives.now.value.set exit value) (cause_of c)) }
{
    let ty = read_type(alloc, gives, entries(&scene.ctx))?;
    let cause = too_large(scene, ty)?;
    Ok(cause)
}

// Why the leaving of a boundary is refused.
fn leave_cause(
    alloc: Global,
    scene: &Scene,
    gives: &Rc<Ty>,
    exit: Var,
    value: Var,
    code: Code,
) -> Result<Cause, AllocError>
    requires { IsWellFormedContext (context_of scene.now.ctx) }
    ensures { IfOk result (λ c. IsCauseIn code (scene_of scene.now) (Leave (shape_of gives.now.value.shape.value) gives.now.value.set exit value) (cause_of c)) }
{
    let found = exposed_shape(alloc, &scene.ctx, exit)?;
    match code {
        Code::E13 => leave_head(scene, gives, exit, value, code, found),
        Code::E14 => leave_mismatch(alloc, scene, gives, exit, value, code, &found),
        _ => leave_large(alloc, scene, gives, exit, value, code, &found),
    }
}

/// Why a form without parts is refused in the scene, where this is the code. It is none where no memory is wanting.
pub fn leaf_cause(
    alloc: Global,
    scene: &Scene,
    node: &Node,
    code: Code,
) -> Result<Cause, AllocError>
    requires { IsWellFormedContext (context_of scene.now.ctx) }
    ensures { IfOk result (λ c. IsCauseIn code (scene_of scene.now) (term_of node.now) (cause_of c)) }
{
    match &node.form {
        Form::Var(variable) => variable_cause(alloc, scene, *variable, code),
        Form::Lit(literal) => literal_cause(alloc, scene, literal, code),
        Form::Boxed(content) => box_cause(alloc, scene, *content, code),
        Form::App(function, argument) => {
            application_cause(alloc, scene, *function, *argument, code)
        }
        Form::TApp(function, argument) => {
            type_application_cause(alloc, scene, *function, argument, code)
        }
        Form::Unbox(set, content) => unboxing_cause(alloc, scene, set, *content, code),
        Form::Prim(operator, left, right) => {
            primitive_cause(alloc, scene, *operator, *left, *right, code)
        }
        Form::Repeat(count, function) => repetition_cause(alloc, scene, *count, *function, code),
        Form::Operate(operation, receiver, argument) => {
            operation_cause(alloc, scene, *operation, *receiver, *argument, code)
        }
        Form::Leave(gives, exit, value) => leave_cause(alloc, scene, gives, *exit, *value, code),
        Form::Fun(_, _) => Err(AllocError),
        Form::TFun(_, _) => Err(AllocError),
        Form::Let(_, _, _) => Err(AllocError),
        Form::If(_, _, _, _) => Err(AllocError),
        Form::Boundary(_, _) => Err(AllocError),
    }
}
