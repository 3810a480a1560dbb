//! The kinds of the binders in scope at the places of nodes.

ghost use Rattle.std.specs.Prelude.{◌≡◌, [], ◌∷◌, map, ◌++◌, option_map, IfOk, OnOk};
ghost use Rattle.cc_derivation.specs.DerivationViews.{rule_of};
ghost use Rattle.cc_certificate_judging.specs.Judging as plain;
ghost use Rattle.cc_certificate_judging.specs.Passes.{kinds_above};
ghost use Rattle.cc_certificate_judging.specs.PassViews.{kind_of_binder, kinds_in};

use cc_capture::CapSet;
use cc_core::{Bind, Ctx, Shape, Ty};
use cc_derivation::Rule;
use std::alloc::{AllocError, Global};
use std::rc::Rc;

/// What a binder names.
#[derive(Clone, Copy)]
pub(crate) enum Binder {
    /// A variable of terms.
    Term,
    /// A type variable.
    Type,
}

// The binder under which the first premise of a rule stands beside those of the node.
fn first_binder(rule: Rule) -> Option<Binder>
    ensures { option_map kind_of_binder result ≡ plain.first_binder (rule_of rule) }
{
    match rule {
        Rule::Function => Some(Binder::Term),
        Rule::TypeFunction => Some(Binder::Type),
        Rule::Boundary => Some(Binder::Term),
        _ => None,
    }
}

// That of the second premise.
fn second_binder(rule: Rule) -> Option<Binder>
    ensures { option_map kind_of_binder result ≡ plain.second_binder (rule_of rule) }
{
    match rule {
        Rule::Let => Some(Binder::Term),
        Rule::ByFunction => Some(Binder::Term),
        Rule::ByTypeFunction => Some(Binder::Type),
        _ => None,
    }
}

// That of the premise of the index.
fn binder_at(rule: Rule, index: usize) -> Option<Binder>
    ensures { option_map kind_of_binder result ≡ plain.binder_at (rule_of rule) index }
{
    if index == 0 {
        return first_binder(rule);
    }
    if index == 1 {
        second_binder(rule)
    } else {
        None
    }
}

// An entry of which the kind alone counts.
fn entry_of_kind(alloc: Global, binder: Binder) -> Result<Bind, AllocError>
    ensures { IfOk result (λ bind. kinds_in (bind ∷ []) ≡ kind_of_binder binder ∷ []) }
{
    let shape = Rc::new(alloc, Shape::Any)?;
    match binder {
        Binder::Term => Ok(Bind::Var(Ty {
            shape,
            set: CapSet::new(alloc),
        })),
        Binder::Type => Ok(Bind::TVar(shape)),
    }
}

// What is in scope at the place of the premise of the index.
fn scope_of(alloc: Global, rule: Rule, index: usize, ctx: &Ctx) -> Result<Ctx, AllocError>
    ensures { IfOk result (λ inner. kinds_in inner ≡ plain.under_binder (plain.binder_at (rule_of rule) index) (kinds_in ctx.now)) }
{
    match binder_at(rule, index) {
        Some(binder) => {
            let entry = entry_of_kind(alloc, binder)?;
            ctx.push(alloc, entry)
        }
        None => ctx.clone(),
    }
}

/// The places of so many premises of the rule wait behind the others, in order.
pub(crate) fn wait_for(
    alloc: Global,
    rule: Rule,
    count: usize,
    ctx: &Ctx,
    waiting: &mut Vec<Ctx>,
) -> Result<(), AllocError>
    ensures { OnOk result (map kinds_in waiting.new.items ≡ map kinds_in waiting.old.items ++ kinds_above (kinds_in ctx.now) (rule_of rule) 0 count) }
{
    for index in 0..count {
        let inner = scope_of(alloc, rule, index, ctx)?;
        waiting.push(inner)?;
    }
    Ok(())
}
