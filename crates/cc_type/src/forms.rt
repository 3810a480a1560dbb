//! Whether two shapes match by their forms alone, where nothing is asked that may force an element into a hole. Behind
//! something lost nothing of such a comparison is kept, so neither contexts nor left sets are looked at.

ghost use Rattle.std.specs.Prelude.{◌≡◌, true, IsTrue};
ghost use Rattle.cc_core.specs.Contexts.{Context};
ghost use Rattle.cc_core.specs.Shapes.{FunctionShape, BoxShape};
ghost use Rattle.cc_core.specs.TermViews.{shape_of, type_of};
ghost use Rattle.cc_checking.specs.Comparison.{comparison, type_comparison};
ghost use Rattle.cc_checking.specs.Inference.{shape_in, type_in};
ghost use Rattle.cc_type.specs.Comparing.{most_steps};
ghost use Rattle.cc_subty.specs.Demands.{asked_of};
ghost use Rattle.cc_type.specs.FormsAlone.{forces_nothing};
ghost use Rattle.cc_known.specs.Keeping.{has_lost};
ghost use Rattle.cc_known.specs.KeptWalks.{form_compared};

use crate::log::{Log, has_hole};
use cc_core::same::same_shape;
use cc_core::{Shape, Ty};
use cc_subty::parts::is_any;

// The parameters from the right one to the left one, and the results.
#[cycle(forms)]
fn functions_match(takes: &Ty, gives: &Ty, others: &Ty, other_gives: &Ty, steps: u32) -> bool
    ensures { let t = type_of takes.now in let g = type_of gives.now in let t' = type_of others.now in let g' = type_of other_gives.now in
        IsTrue result → (context : Context) → forces_nothing (form_compared steps context (FunctionShape t.shape t.set g.shape g.set) (FunctionShape t'.shape t'.set g'.shape g'.set)) ≡ true }
{
    if !types_match(others, takes, steps) {
        return false;
    }
    types_match(gives, other_gives, steps)
}

#[cycle(forms)]
fn boxes_match(content: &Ty, other: &Ty, steps: u32) -> bool
    ensures { let t = type_of content.now in let t' = type_of other.now in
        IsTrue result → (context : Context) → forces_nothing (form_compared steps context (BoxShape t.shape t.set) (BoxShape t'.shape t'.set)) ≡ true }
{
    types_match(content, other, steps)
}

// Two shapes of which the right one is not Any. Of type functions and of variables none but equal ones are told.
#[cycle(forms)]
fn form_matches(left: &Shape, right: &Shape, steps: u32) -> bool
    ensures { IsTrue result → (context : Context) → forces_nothing (form_compared steps context (shape_of left.now) (shape_of right.now)) ≡ true }
{
    match left {
        Shape::Fun(takes, gives) => match right {
            Shape::Fun(others, other_gives) => functions_match(
                takes,
                gives,
                others,
                other_gives,
                steps,
            ),
            _ => false,
        },
        Shape::Boxed(content) => match right {
            Shape::Boxed(other) => boxes_match(content, other, steps),
            _ => false,
        },
        _ => same_shape(left, right),
    }
}

// Whether the two shapes match in so many levels at most, with no hole on a right side. Where the answer is no nothing is
// told.
#[cycle(forms)]
fn shapes_match(left: &Shape, right: &Shape, steps: u32) -> bool
    ensures { IsTrue result → (context : Context) → forces_nothing (comparison steps context (shape_in context (shape_of left.now)) (shape_in context (shape_of right.now))) ≡ true }
{
    if steps == 0 {
        return false;
    }
    if is_any(right) {
        return true;
    }
    form_matches(left, right, steps - 1)
}

// The same of types.
#[cycle(forms)]
fn types_match(left: &Ty, right: &Ty, steps: u32) -> bool
    ensures { IsTrue result → (context : Context) → forces_nothing (type_comparison steps context (type_in context (type_of left.now)) (type_in context (type_of right.now))) ≡ true }
{
    if has_hole(&right.set) {
        return false;
    }
    shapes_match(&left.shape, &right.shape, steps)
}

/// Whether something is lost, and the two shapes match with nothing that has to be kept behind it. Where the answer is no
/// nothing is told.
pub(crate) fn match_behind(left: &Shape, right: &Shape, log: &Log) -> bool
    ensures lost { IsTrue result → has_lost (asked_of log.now.demands) ≡ true }
    ensures forms { IsTrue result → (context : Context) → forces_nothing (comparison most_steps context (shape_in context (shape_of left.now)) (shape_in context (shape_of right.now))) ≡ true }
{
    if !log.is_lost() {
        return false;
    }
    shapes_match(left, right, u32::MAX)
}
