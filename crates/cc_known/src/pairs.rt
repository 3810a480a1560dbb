//! Pairs of a type variable and a shape that were compared, as they are remembered.

ghost use Rattle.std.specs.Prelude.{◌≡◌, ◌≤◌, true, List, length, IsTrue, IfOk};
ghost use Rattle.std.specs.List.{list_all};
ghost use Rattle.cc_core.specs.Contexts.{Context};
ghost use Rattle.cc_core.specs.TermViews.{shape_of};
ghost use Rattle.cc_checking.specs.Outcomes.{Placed};
ghost use Rattle.cc_known.specs.KeptWalks.{is_remembered, is_remembered_as};

use cc_capture::{Var, same_var};
use cc_core::Shape;
use cc_core::same::same_shape;
use std::alloc::AllocError;

/// A type variable and a shape of which the comparison matched in so many steps, with demands that need not be kept where
/// they come again: each is settled or repeats what is kept, or it may not be kept only because something is lost.
#[derive(Drop)]
pub struct Pair {
    pub variable: Var,
    pub right: Shape,
    pub steps: u32,
    pub lost: bool,
    // The last pair before this one with the same trace, if there is one.
    pub before: Option<usize>,
}

// The same shape. Its parts are shared.
pub(crate) fn copy(shape: &Shape) -> Result<Shape, AllocError>
    ensures { IfOk result (λ s. shape_of s ≡ shape_of shape.now) }
{
    match shape {
        Shape::Base(base) => Ok(Shape::Base(*base)),
        Shape::Any => Ok(Shape::Any),
        Shape::TVar(variable) => Ok(Shape::TVar(*variable)),
        Shape::Fun(takes, gives) => {
            let takes = takes.clone()?;
            let gives = gives.clone()?;
            Ok(Shape::Fun(takes, gives))
        }
        Shape::TFun(bound, gives) => {
            let bound = bound.clone()?;
            let gives = gives.clone()?;
            Ok(Shape::TFun(bound, gives))
        }
        Shape::Boxed(content) => Ok(Shape::Boxed(content.clone()?)),
        Shape::Exit(gives) => Ok(Shape::Exit(gives.clone()?)),
    }
}

/// The pair of the variable and the shape, whose parts are shared.
pub fn pair_of(
    variable: Var,
    right: &Shape,
    steps: u32,
    lost: bool,
    before: Option<usize>,
) -> Result<Pair, AllocError>
    ensures { IfOk result (λ p. (log : List Placed) (context : Context) → is_remembered log context p ≡ is_remembered_as (length context) log context lost steps variable (shape_of right.now)) }
{
    let right = copy(right)?;
    Ok(Pair {
        variable,
        right,
        steps,
        lost,
        before,
    })
}

// Whether the pair is that of the variable and the shape, in as many steps at most.
fn is_of(pair: &Pair, variable: Var, right: &Shape, steps: u32, lost: bool) -> bool
    ensures variable { IsTrue result → pair.now.variable ≡ variable }
    ensures right { IsTrue result → shape_of pair.now.right ≡ shape_of right.now }
    ensures steps { IsTrue result → pair.now.steps ≤ steps }
    ensures lost { IsTrue result → pair.now.lost ≡ lost }
{
    if pair.lost != lost {
        return false;
    }
    if pair.steps > steps {
        return false;
    }
    if !same_var(pair.variable, variable) {
        return false;
    }
    same_shape(&pair.right, right)
}

/// Whether one of the pairs, at the place or of those with the same trace before it, is that of the variable and the
/// shape, in as many steps at most.
pub fn is_among(
    pairs: &[Pair],
    last: Option<usize>,
    variable: Var,
    right: &Shape,
    steps: u32,
    lost: bool,
) -> bool
    ensures { IsTrue result → (log : List Placed) (context : Context) → list_all (is_remembered log context) pairs.now ≡ true → IsTrue (is_remembered_as (length context) log context lost steps variable (shape_of right.now)) }
{
    let mut limit = pairs.len();
    let mut next = last;
    while let Some(place) = next {
        if place >= limit {
            return false;
        }
        let pair = &pairs[place];
        if is_of(pair, variable, right, steps, lost) {
            return true;
        }
        limit = place;
        next = pair.before;
    }
    false
}
