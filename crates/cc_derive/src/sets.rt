//! That a set is below another: an element is a member of it, or a variable whose declared set is below it. How the
//! variables of a context are below one set is found once for each, from the oldest on, and shared.

ghost use Rattle.std.specs.Prelude.{◌≡◌, length, IfOk, option_map};
ghost use Rattle.cc_capture.specs.declared.var.Elem.TheVariants.{Var as Variable};
ghost use Rattle.cc_capture.specs.declared.var.Var.TheVariants.{Free};
ghost use Rattle.cc_core.specs.Contexts.{Context};
ghost use Rattle.cc_core.specs.TermViews.{bind_of, context_of};
ghost use Rattle.cc_checking.specs.CanonicalDerivations.{elements_derived, element_derived, set_derived};
ghost use Rattle.cc_derive.specs.Tables.{IsTable, reached_derived, declared_in, declared_derived};
ghost use Rattle.cc_derive.specs.Trees.{IsMade};

use crate::trees::{
    Making, Tree, element_node, no_parts, one_part, set_node, share, variable_node, with_part,
};
use cc_capture::{CapSet, Elem, Var};
use cc_core::{Bind, Ctx};
use std::alloc::{AllocError, Global};

// How the element is below the set, where it is known how the variables of the first positions are. A later variable is
// below it as a member.
fn reach(
    alloc: Global,
    build: Making,
    table: &[Tree],
    elem: Elem,
    right: &CapSet,
) -> Result<Tree, AllocError>
    ensures { IfOk result (λ t. (context : Context) → IsTable build context right.now table.now → IsMade build t (reached_derived (length table.now) context right.now elem)) }
{
    if let Elem::Var(variable) = elem {
        if let Var::Free(position) = variable {
            if let Some(tree) = table.get(position as usize) {
                return share(tree);
            }
        }
    }
    element_node(alloc, build, elem, right)
}

// How the left set is below the right one, where it is known how the variables of the first positions are.
fn reach_all(
    alloc: Global,
    build: Making,
    table: &[Tree],
    left: &CapSet,
    right: &CapSet,
) -> Result<Tree, AllocError>
    ensures { IfOk result (λ t. (context : Context) → IsTable build context right.now table.now → IsMade build t (elements_derived (reached_derived (length table.now) context right.now) left.now right.now)) }
{
    let mut parts = no_parts(alloc, build);
    for elem in left.iter() {
        let tree = reach(alloc, build, table, elem, right)?;
        parts = with_part(parts, tree)?;
    }
    set_node(alloc, parts, left, right)
}

// The declared set of an entry, if it is that of a variable of terms.
fn declared_set(bind: &Bind) -> Option<&CapSet>
    ensures { option_map (λ s. s.now) result ≡ declared_in (bind_of bind.now) }
{
    match bind {
        Bind::Var(ty) => Some(&ty.set),
        Bind::TVar(_) => None,
        Bind::Unread { set, .. } => Some(set),
    }
}

// How the variable of the position is below the right set, by the entry, where it is no member.
fn reach_declared(
    alloc: Global,
    build: Making,
    bind: &Bind,
    position: u32,
    table: &[Tree],
    right: &CapSet,
) -> Result<Tree, AllocError>
    requires { length table.now ≡ position }
    ensures { IfOk result (λ t. (context : Context) → IsTable build context right.now table.now → IsMade build t (declared_derived context right.now position (declared_in (bind_of bind.now)))) }
{
    match declared_set(bind) {
        Some(declared) => {
            let below = reach_all(alloc, build, table, declared, right)?;
            let parts = one_part(alloc, build, below)?;
            variable_node(alloc, parts, Var::Free(position), right)
        }
        None => element_node(alloc, build, Elem::Var(Var::Free(position)), right),
    }
}

// How the variable of the position is below the right set.
fn reach_position(
    alloc: Global,
    build: Making,
    ctx: &Ctx,
    position: u32,
    table: &[Tree],
    right: &CapSet,
) -> Result<Tree, AllocError>
    requires { length table.now ≡ position }
    ensures { IfOk result (λ t. IsTable build (context_of ctx.now) right.now table.now → IsMade build t (element_derived (context_of ctx.now) right.now (Variable (Free position)))) }
{
    let elem = Elem::Var(Var::Free(position));
    if right.contains(elem) {
        return element_node(alloc, build, elem, right);
    }
    match ctx.get(position) {
        Some(bind) => reach_declared(alloc, build, bind, position, table, right),
        None => element_node(alloc, build, elem, right),
    }
}

// How each variable of the context is below the right set, the oldest first.
fn reach_context(
    alloc: Global,
    build: Making,
    ctx: &Ctx,
    right: &CapSet,
) -> Result<Vec<Tree>, AllocError>
    ensures all { IfOk result (λ v. length v.items ≡ length (context_of ctx.now)) }
    ensures is { IfOk result (λ v. IsTable build (context_of ctx.now) right.now v.items) }
{
    let mut table = Vec::new(alloc);
    for position in 0..ctx.len() {
        let tree = reach_position(alloc, build, ctx, position, &table, right)?;
        table.push(tree)?;
    }
    Ok(table)
}

/// The canonical derivation that the left set is below the right one, built or counted alone.
///
/// Fails only for want of memory.
pub fn derive_sets(
    alloc: Global,
    build: Making,
    ctx: &Ctx,
    left: &CapSet,
    right: &CapSet,
) -> Result<Tree, AllocError>
    ensures { IfOk result (λ t. IsMade build t (set_derived (context_of ctx.now) left.now right.now)) }
{
    if left.is_subset(right) {
        return reach_all(alloc, build, &[], left, right);
    }
    let table = reach_context(alloc, build, ctx, right)?;
    reach_all(alloc, build, &table, left, right)
}
