//! The entries beyond a base that a shape goes by, and both with positions of their own. Nothing is claimed of what is
//! found here: something else costs time alone.

use crate::traces::{with_set, with_shape, with_variable};
use cc_capture::{CapSet, Elem, Var};
use cc_core::acting::{Action, act_set, act_shape};
use cc_core::{Bind, Ctx, Shape, Ty};
use std::alloc::{AllocError, Global};
use std::rc::Rc;

/// What the comparison of a type variable with a shape goes by: the entries beyond the base that the two name, closed
/// under what they are declared with, and the two, as if these entries alone stood on the base.
#[derive(Drop)]
pub struct Key {
    // Where each position stands in the context: those of the base, and those of the entries.
    pub(crate) places: Vec<u32>,
    pub(crate) entries: Vec<Bind>,
    pub(crate) variable: Var,
    pub(crate) right: Rc<Shape>,
    pub(crate) trace: u64,
}

// Marks the entry beyond the base that the variable names, if it names one.
fn mark_variable(variable: Var, base: u32, marks: &mut Vec<bool>) {
    match variable {
        Var::Bound(_) => {}
        Var::Free(position) => {
            if position >= base {
                let index = (position - base) as usize;
                if index < marks.len() {
                    marks[index] = true;
                }
            }
        }
    }
}

fn mark_elem(elem: Elem, base: u32, marks: &mut Vec<bool>) {
    match elem {
        Elem::Var(variable) => mark_variable(variable, base, marks),
        Elem::Cap => {}
        Elem::Hole(_) => {}
    }
}

fn mark_set(set: &CapSet, base: u32, marks: &mut Vec<bool>) {
    for elem in set.iter() {
        mark_elem(elem, base, marks);
    }
}

#[cycle(marking)]
fn mark_type(ty: &Ty, base: u32, marks: &mut Vec<bool>) {
    mark_set(&ty.set, base, marks);
    mark_shape(&ty.shape, base, marks);
}

#[cycle(marking)]
fn mark_shape(shape: &Shape, base: u32, marks: &mut Vec<bool>) {
    match shape {
        Shape::Base(_) => {}
        Shape::Any => {}
        Shape::TVar(variable) => mark_variable(*variable, base, marks),
        Shape::Fun(takes, gives) => {
            mark_type(takes, base, marks);
            mark_type(gives, base, marks);
        }
        Shape::TFun(bound, gives) => {
            mark_shape(bound, base, marks);
            mark_type(gives, base, marks);
        }
        Shape::Boxed(content) => mark_type(content, base, marks),
        Shape::Exit(gives) => mark_shape(gives, base, marks),
    }
}

// Marks what the entry is declared with.
fn mark_entry(bind: &Bind, base: u32, marks: &mut Vec<bool>) {
    match bind {
        Bind::Var(ty) => mark_set(&ty.set, base, marks),
        Bind::TVar(bound) => mark_shape(bound, base, marks),
        Bind::Unread { set, .. } => mark_set(set, base, marks),
    }
}

// Whether the entry is marked.
fn is_marked(marks: &[bool], index: usize) -> bool {
    match marks.get(index) {
        Some(mark) => *mark,
        None => false,
    }
}

// No mark at any of so many places.
fn no_marks(alloc: Global, count: u32) -> Result<Vec<bool>, AllocError> {
    let mut marks = Vec::new(alloc);
    for _index in 0..count {
        marks.push(false)?;
    }
    Ok(marks)
}

// Marks the entries beyond the base by which those with marks are declared.
fn mark_declared(base: u32, ctx: &Ctx, count: u32, marks: &mut Vec<bool>) {
    for index in 0..count {
        let older = count.saturating_sub(index).saturating_sub(1);
        if is_marked(marks.as_slice(), older as usize) {
            if let Some(bind) = ctx.get(base.saturating_add(older)) {
                mark_entry(bind, base, marks);
            }
        }
    }
}

// Marks the entries beyond the base that the variable and the shape name, and those by which they are declared.
fn marked(
    alloc: Global,
    base: u32,
    ctx: &Ctx,
    variable: Var,
    shape: &Shape,
) -> Result<Vec<bool>, AllocError> {
    let count = ctx.len().saturating_sub(base);
    let mut marks = no_marks(alloc, count)?;
    mark_variable(variable, base, &mut marks);
    mark_shape(shape, base, &mut marks);
    mark_declared(base, ctx, count, &mut marks);
    Ok(marks)
}

/// Marks at the positions of the entries that the two shapes of the context name, and of those by which they are
/// declared.
pub(crate) fn marks_of(
    alloc: Global,
    ctx: &Ctx,
    left: &Shape,
    right: &Shape,
) -> Result<Vec<bool>, AllocError> {
    let mut marks = no_marks(alloc, ctx.len())?;
    mark_shape(left, 0, &mut marks);
    mark_shape(right, 0, &mut marks);
    mark_declared(0, ctx, ctx.len(), &mut marks);
    Ok(marks)
}

// The variable with the position that the list has for its own.
fn renamed_name(to: &[u32], variable: Var) -> Var {
    match variable {
        Var::Bound(_) => variable,
        Var::Free(position) => match to.get(position as usize) {
            Some(at) => Var::Free(*at),
            None => variable,
        },
    }
}

// The entry with the positions that the list has for its own, as far as a comparison goes by it.
fn renamed_entry(alloc: Global, to: &[u32], bind: &Bind) -> Result<Bind, AllocError> {
    match bind {
        Bind::Var(ty) => renamed_variable(alloc, to, &ty.set),
        Bind::TVar(bound) => {
            let bound = act_shape(alloc, &Action::Rename(to), 0, bound)?;
            Ok(Bind::TVar(bound))
        }
        Bind::Unread { set, .. } => renamed_variable(alloc, to, set),
    }
}

fn renamed_variable(alloc: Global, to: &[u32], set: &CapSet) -> Result<Bind, AllocError> {
    let set = act_set(alloc, &Action::Rename(to), 0, set)?;
    let shape = Rc::new(alloc, Shape::Any)?;
    Ok(Bind::Var(Ty { shape, set }))
}

fn trace_with(bind: &Bind, trace: u64) -> u64 {
    match bind {
        Bind::Var(ty) => with_set(&ty.set, trace),
        Bind::TVar(bound) => with_shape(bound, trace),
        Bind::Unread { set, .. } => with_set(set, trace),
    }
}

/// The key of the variable and a shape of the context, where so many entries are those of the base.
pub fn key_of(
    alloc: Global,
    base: u32,
    ctx: &Ctx,
    variable: Var,
    right: &Rc<Shape>,
) -> Result<Key, AllocError> {
    let marks = marked(alloc, base, ctx, variable, right)?;
    let mut places = Vec::new(alloc);
    let mut own = Vec::new(alloc);
    for position in 0..base {
        places.push(position)?;
        own.push(position)?;
    }
    let mut entries = Vec::new(alloc);
    let mut trace = 0;
    let mut next = base;
    for index in 0..ctx.len().saturating_sub(base) {
        own.push(next)?;
        if is_marked(marks.as_slice(), index as usize) {
            let position = base.saturating_add(index);
            if let Some(bind) = ctx.get(position) {
                let entry = renamed_entry(alloc, own.as_slice(), bind)?;
                trace = trace_with(&entry, trace);
                entries.push(entry)?;
                places.push(position)?;
                next = next.saturating_add(1);
            }
        }
    }
    let right = act_shape(alloc, &Action::Rename(own.as_slice()), 0, right)?;
    let variable = renamed_name(own.as_slice(), variable);
    let trace = with_shape(&right, with_variable(variable, trace));
    Ok(Key {
        places,
        entries,
        variable,
        right,
        trace,
    })
}
