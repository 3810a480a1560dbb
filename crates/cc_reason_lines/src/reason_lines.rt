//! The lines of a reason.

ghost use Rattle.std.specs.Prelude.{◌≡◌, ◌++◌, [], ◌∷◌, codes, map, IfOk};
ghost use Rattle.cc_core.specs.TermViews.{context_of};
ghost use Rattle.cc_checking.specs.Fillings.{filled_context};
ghost use Rattle.cc_solve.specs.Solutions.{filling_of};
ghost use Rattle.cc_print.specs.TypeTexts.{set_text};
ghost use Rattle.cc_labels.specs.LabelledLines.{line_of};
ghost use Rattle.cc_reasons.specs.DefinitionReasons as plain;
ghost use Rattle.cc_reasons.specs.ReasonTexts.{with_locals, AreLines};
ghost use Rattle.cc_captured_reasons.specs.FilledScenes.{IsFilledScene};
ghost use Rattle.cc_causes.specs.Views.{locals_of, scene_of};
ghost use Rattle.cc_definition_reasoning.specs.Reasons.{filled_scene, reason_of};
ghost use Rattle.cc_reason_lines.specs.ReasonLines.{ReasonCanBeTold};

use crate::captured_lines::{captured_line, put_chains, set_line};
use crate::filled_sets::filled_sets;
use cc_base::name::Name;
use cc_capture::CapSet;
use cc_captured_reasons::captured::captured_chains;
use cc_cause_texts::cause_lines::cause_lines;
use cc_cause_texts::scene_labels::shared_labels;
use cc_causes::reason::{Locals, Scene};
use cc_core::Ctx;
use cc_definition_reasoning::reason::DefinitionReason;
use cc_labels::Line;
use cc_solve::Filling;
use std::alloc::{AllocError, Global};

// A set is not below another.
fn not_below(
    alloc: Global,
    names: &[Name],
    devices: u32,
    scene: &Scene,
    filling: &Filling,
    left: &CapSet,
    right: &CapSet,
) -> Result<Vec<Line>, AllocError>
    requires { IsFilledScene (filled_context (filling_of filling.now) (context_of scene.now.ctx)) left.now }
    ensures { IfOk result (λ lines. AreLines devices names.now (plain.NotBelow (filled_scene filling.now (scene_of scene.now)) left.now right.now) (map line_of lines.items)) }
{
    let sets = filled_sets(alloc, &scene.ctx, filling)?;
    let found = captured_chains(alloc, &sets, devices, left, right)?;
    let labels = shared_labels(alloc, names, &scene.locals, &scene.ctx)?;
    let mut lines = Vec::new(alloc);
    lines.push(captured_line(alloc, &labels, found.elems.as_slice())?)?;
    lines.push(set_line(alloc, "allowed ", &labels, right)?)?;
    put_chains(alloc, &labels, found.chains.as_slice(), &mut lines)?;
    Ok(lines)
}

// A set has the universal capability.
fn with_cap(
    alloc: Global,
    names: &[Name],
    locals: &Locals,
    set: &CapSet,
) -> Result<Vec<Line>, AllocError>
    ensures { IfOk result (λ lines. map line_of lines.items ≡ (codes "set " ++ set_text (with_locals names.now (locals_of locals.now)) 0 set.now) ∷ []) }
{
    let labels = shared_labels(alloc, names, locals, &Ctx::new())?;
    let mut lines = Vec::new(alloc);
    lines.push(set_line(alloc, "set ", &labels, set)?)?;
    Ok(lines)
}

/// The lines of a reason, where the first positions have these names, of which so many are those of devices: those of the
/// cause; or what was captured and is not allowed, with what is, and how each of it leads to an end; or the set with the
/// universal capability.
///
/// Each declared set of a scene is filled once and gone over once, and each on the way of a chain once more. Fails only for
/// want of memory, as which a size of 2^64 - 1 or more, where sizes are told, counts.
pub fn reason_lines(
    alloc: Global,
    names: &[Name],
    devices: u32,
    reason: &DefinitionReason,
) -> Result<Vec<Line>, AllocError>
    requires told { ReasonCanBeTold (reason_of reason.now) }
    ensures { IfOk result (λ lines. AreLines devices names.now (reason_of reason.now) (map line_of lines.items)) }
{
    match reason {
        DefinitionReason::OfStep(cause) => cause_lines(alloc, names, cause),
        DefinitionReason::NotBelow {
            scene,
            filling,
            left,
            right,
        } => not_below(alloc, names, devices, scene, filling, left, right),
        DefinitionReason::WithCap { locals, set } => with_cap(alloc, names, locals, set),
    }
}
