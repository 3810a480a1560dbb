//! What is told for the positions of a scene: the names of the module's positions, and behind them those of its local
//! variables.

ghost use Rattle.std.specs.Prelude.{◌≡◌, ◌++◌, length, map, reverse, IfOk, OnOk};
ghost use Rattle.cc_core.specs.TermViews.{context_of};
ghost use Rattle.cc_labels.specs.LabelTexts.{label_of, labels_in};
ghost use Rattle.cc_reasons.specs.ReasonTexts.{local_name, with_locals, behind_names};
ghost use Rattle.cc_causes.specs.Views.{locals_of};
ghost use Rattle.cc_cause_texts.specs.CauseLines.{IsLabelling};

use cc_base::name::Name;
use cc_causes::reason::Locals;
use cc_core::Ctx;
use cc_labels::{Label, Labels};
use std::alloc::{AllocError, Global};
use std::rc::Rc;

// A copy of the name, which is shared.
fn copy_name(name: &Option<Name>) -> Result<Option<Name>, AllocError>
    ensures { IfOk result (λ n. n ≡ name.now) }
{
    match name {
        Some(name) => Ok(Some(name.clone()?)),
        None => Ok(None),
    }
}

// Adds the labels of local variables, the newest first.
fn put_locals(labels: &mut Vec<Label>, locals: &Locals) -> Result<(), AllocError>
    ensures { OnOk result (map label_of labels.new.items ≡ map label_of labels.old.items ++ map local_name (locals_of locals.now)) }
{
    let mut rest = locals;
    while let Locals::More(local, older) = rest {
        let name = copy_name(&local.name)?;
        labels.push(Label::Local(name, local.at))?;
        rest = older;
    }
    Ok(())
}

// The labels of local variables, the oldest first.
fn local_labels(alloc: Global, locals: &Locals) -> Result<Vec<Label>, AllocError>
    ensures { IfOk result (λ l. map label_of l.items ≡ reverse (map local_name (locals_of locals.now))) }
{
    let mut labels = Vec::new(alloc);
    put_locals(&mut labels, locals)?;
    labels.reverse();
    Ok(labels)
}

// The labels of names.
fn name_labels(alloc: Global, names: &[Name]) -> Result<Vec<Label>, AllocError>
    ensures { IfOk result (λ l. map label_of l.items ≡ names.now) }
{
    let mut labels = Vec::new(alloc);
    for name in names {
        labels.push(Label::Known(name.clone()?))?;
    }
    Ok(labels)
}

// How many entries the context has.
fn entries(ctx: &Ctx) -> u32
    ensures { result ≡ length (context_of ctx.now) }
{
    ctx.len()
}

/// The labels of the positions of a context, of which the first ones have these names, and those behind them are of these
/// local variables. Fails only for want of memory.
pub fn labels_there(
    alloc: Global,
    names: &[Name],
    locals: &Locals,
    ctx: &Ctx,
) -> Result<Labels, AllocError>
    ensures labels { IfOk result (λ l. labels_in l ≡ with_locals names.now (locals_of locals.now)) }
    ensures locals { IfOk result (λ l. l.locals ≡ behind_names (with_locals names.now (locals_of locals.now)) (context_of ctx.now)) }
{
    let mut labels = name_labels(alloc, names)?;
    let mut others = local_labels(alloc, locals)?;
    labels.append(&mut others)?;
    let count = labels.len();
    let locals = (entries(ctx) as usize).saturating_sub(count) as u32;
    Ok(Labels { labels, locals })
}

/// The same, shared. Fails only for want of memory.
pub fn shared_labels(
    alloc: Global,
    names: &[Name],
    locals: &Locals,
    ctx: &Ctx,
) -> Result<Rc<Labels>, AllocError>
    ensures { IfOk result (λ l. IsLabelling names.now (record { context = context_of ctx.now; locals = locals_of locals.now }) l.value) }
{
    let labels = labels_there(alloc, names, locals, ctx)?;
    Ok(Rc::new(alloc, labels)?)
}
