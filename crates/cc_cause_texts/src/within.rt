//! The lines of the first parts that do not match.

ghost use Rattle.std.specs.Prelude.{◌≡◌, ◌++◌, [], ◌∷◌, ℕ, Some, map, OnOk};
ghost use Rattle.cc_core.specs.TermViews.{shape_of, context_of};
ghost use Rattle.cc_checking.specs.Comparison.{Mismatch, comparison};
ghost use Rattle.cc_labels.specs.LabelledLines.{line_of};
ghost use Rattle.cc_mismatch.specs.Views.{pair_of};
ghost use Rattle.cc_reasons.specs.Mismatches as plain;
ghost use Rattle.cc_reasons.specs.ReasonTexts.{with_locals, within_lines};
ghost use Rattle.cc_causes.specs.Views.{locals_of};
ghost use Rattle.cc_cause_texts.specs.CauseLines.{DoNotMatch, parts_lines};

use crate::scene_labels::shared_labels;
use crate::single_lines::shape_line;
use cc_base::name::Name;
use cc_causes::reason::{Locals, Scene};
use cc_core::Shape;
use cc_core::same::same_shape;
use cc_labels::Line;
use cc_mismatch::{Parts, mismatch};
use std::alloc::{AllocError, Global};
use std::rc::Rc;

// Adds two lines.
fn push_two(lines: &mut Vec<Line>, first: Line, second: Line) -> Result<(), AllocError>
    ensures { OnOk result (map line_of lines.new.items ≡ map line_of lines.old.items ++ line_of first ∷ (line_of second ∷ [])) }
{
    lines.push(first)?;
    lines.push(second)?;
    Ok(())
}

// Adds the lines of the parts.
fn put_parts(
    alloc: Global,
    names: &[Name],
    locals: &Locals,
    parts: &Parts,
    lines: &mut Vec<Line>,
) -> Result<(), AllocError>
    ensures { OnOk result (map line_of lines.new.items ≡ map line_of lines.old.items ++ parts_lines (with_locals names.now (locals_of locals.now)) (pair_of parts.now)) }
{
    let labels = shared_labels(alloc, names, locals, &parts.ctx)?;
    let found = shape_line(alloc, "within found ", &labels, &parts.found)?;
    let wanted = shape_line(alloc, "within wanted ", &labels, &parts.wanted)?;
    push_two(lines, found, wanted)
}

// Adds the lines of the parts, unless they are the whole shapes.
fn put_inner(
    alloc: Global,
    names: &[Name],
    locals: &Locals,
    parts: &Parts,
    found: &Shape,
    wanted: &Shape,
    lines: &mut Vec<Line>,
) -> Result<(), AllocError>
    ensures { OnOk result (map line_of lines.new.items ≡ map line_of lines.old.items
        ++ within_lines (with_locals names.now (locals_of locals.now)) (shape_of found.now) (shape_of wanted.now) (Some (pair_of parts.now))) }
{
    if !same_shape(&parts.found, found) {
        return put_parts(alloc, names, locals, parts, lines);
    }
    if !same_shape(&parts.wanted, wanted) {
        return put_parts(alloc, names, locals, parts, lines);
    }
    Ok(())
}

/// Adds the lines of the first parts of two shapes that do not match, unless these are the whole shapes.
pub(crate) fn put_within(
    alloc: Global,
    names: &[Name],
    scene: &Scene,
    found: &Rc<Shape>,
    wanted: &Rc<Shape>,
    lines: &mut Vec<Line>,
) -> Result<(), AllocError>
    requires { DoNotMatch (context_of scene.now.ctx) (shape_of found.now.value) (shape_of wanted.now.value) }
    ensures { OnOk result ((steps : ℕ) → comparison steps (context_of scene.now.ctx) (shape_of found.now.value) (shape_of wanted.now.value) ≡ Mismatch
        → map line_of lines.new.items ≡ map line_of lines.old.items
        ++ within_lines (with_locals names.now (locals_of scene.now.locals.value)) (shape_of found.now.value) (shape_of wanted.now.value)
        (plain.mismatch steps (context_of scene.now.ctx) (shape_of found.now.value) (shape_of wanted.now.value))) }
{
    let parts = mismatch(alloc, &scene.ctx, found, wanted)?;
    put_inner(alloc, names, &scene.locals, &parts, found, wanted, lines)
}
