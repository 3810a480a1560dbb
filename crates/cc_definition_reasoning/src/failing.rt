//! The first of what is asked that a filling does not serve, by its place in the list, and why it does not.

ghost use Rattle.std.specs.Prelude.{◌≡◌, ◌∷◌, [], IfOk, MatchOption};
ghost use Rattle.cc_checking.specs.Fillings.{AllServed};
ghost use Rattle.cc_subty.specs.Demands.{asked_of, demand_of};
ghost use Rattle.cc_solve.specs.Solutions.{CanBeJudged, filling_of};
ghost use Rattle.cc_reasons.specs.DefinitionReasons as plain;
ghost use Rattle.cc_causes.specs.Views.{locals_of};
ghost use Rattle.cc_definition_reasoning.specs.Keeping.{FailsAt};
ghost use Rattle.cc_definition_reasoning.specs.Reasons.{reason_of};

use crate::reason::DefinitionReason;
use cc_base::place::Place;
use cc_causes::reason::{Locals, Scene};
use cc_sets::marks::Marks;
use cc_solve::judging::filled;
use cc_solve::{Filling, is_served};
use cc_subty::demands::Demand;
use std::alloc::{AllocError, Global};
use std::rc::Rc;

/// The place of the first of what is asked that the filling does not serve, if there is one.
///
/// Fails only for want of memory.
pub(crate) fn first_failing(
    alloc: Global,
    demands: &[Demand],
    filling: &Filling,
) -> Result<Option<usize>, AllocError>
    requires { CanBeJudged (filling_of filling.now) (asked_of demands.now) }
    ensures { IfOk result (λ r. MatchOption r (AllServed (filling_of filling.now) (asked_of demands.now)) (λ place. FailsAt (filling_of filling.now) demands.now place)) }
{
    let mut marks = Marks::new(alloc);
    for index in 0..demands.len() {
        if !is_served(alloc, &demands[index], filling, &mut marks)? {
            return Ok(Some(index));
        }
    }
    Ok(None)
}

/// Why the filling does not serve what is asked where these are the local variables, if it does not. The filling goes
/// into the reason.
///
/// Fails only for want of memory.
pub(crate) fn unserved(
    alloc: Global,
    demand: &Demand,
    locals: &Rc<Locals>,
    filling: Filling,
) -> Result<DefinitionReason, AllocError>
    ensures { IfOk result (λ r. reason_of r ≡ plain.unserved (filling_of filling) (locals_of locals.now.value) (demand_of demand.now).asked) }
{
    match demand {
        Demand::Sub {
            ctx,
            left,
            right,
            at: _,
        } => {
            let left = filled(alloc, left, &filling)?;
            let right = filled(alloc, right, &filling)?;
            let ctx = ctx.clone()?;
            let locals = locals.clone()?;
            Ok(DefinitionReason::NotBelow {
                scene: Scene { ctx, locals },
                filling,
                left,
                right,
            })
        }
        Demand::NoCap { set, at: _ } => {
            let set = filled(alloc, set, &filling)?;
            let locals = locals.clone()?;
            Ok(DefinitionReason::WithCap { locals, set })
        }
    }
}

/// The place that is named where what is asked does not hold.
pub(crate) fn place_of(demand: &Demand) -> Place
    ensures { result ≡ (demand_of demand.now).at }
{
    match demand {
        Demand::Sub {
            ctx: _,
            left: _,
            right: _,
            at,
        } => *at,
        Demand::NoCap { set: _, at } => *at,
    }
}
