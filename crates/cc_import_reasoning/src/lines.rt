//! The lines by which the reason of an import that finds no definition is told.

ghost use Rattle.std.specs.Prelude.{◌≡◌, ◌++◌, ◌∷◌, [], map, encode_utf8_all, IfOk, OnOk};
ghost use Rattle.std.specs.String.{string_bytes};
ghost use Rattle.cc_graph.specs.Places.{name_at};
ghost use Rattle.cc_judge.specs.KnownGraphs.{entries_of};
ghost use Rattle.cc_parse.specs.Trees.{import_syntax};
ghost use Rattle.cc_module_reasons.specs.ImportReasonTexts.{import_text, refusal_text, circle_text, import_reason_lines};
ghost use Rattle.cc_import_reasoning.specs.ToldImports.{reason_of};

use crate::reason::ImportCause;
use cc_base::code::Diag;
use cc_base::literal::Import;
use cc_base::name::Name;
use cc_judge::importing::Importing;
use std::alloc::{AllocError, Global};

// The import as it is written.
fn import_line(alloc: Global, import: &Import) -> Result<String, AllocError>
    ensures { IfOk result (λ line. string_bytes line ≡ import_text (import_syntax import.now)) }
{
    let source = &import.module;
    let def = &import.def;
    format!(in alloc; "import {source}.{def}")
}

// The refusal of the module that is imported from.
fn refusal_line(alloc: Global, diag: Diag) -> Result<String, AllocError>
    ensures { IfOk result (λ line. string_bytes line ≡ refusal_text diag.code diag.place) }
{
    let code = diag.code;
    let place = diag.place;
    format!(in alloc; "refused {code} {place}")
}

// Adds the name behind a space.
fn put_name(line: &mut String, name: &Name) -> Result<(), AllocError>
    ensures { OnOk result (string_bytes line.new ≡ string_bytes line.old ++ (32 ∷ encode_utf8_all name.now)) }
{
    line.push_str(" ")?;
    line.push_str(name.as_str())
}

// Adds the name of the module at the place behind a space.
fn put_place(line: &mut String, modules: &[Importing], place: usize) -> Result<(), AllocError>
    ensures { OnOk result (string_bytes line.new ≡ string_bytes line.old ++ (32 ∷ encode_utf8_all (name_at (entries_of modules.now) place))) }
{
    match modules.get(place) {
        Some(module) => put_name(line, &module.name),
        None => line.push_str(" "),
    }
}

// The names of a circle, from the importing module on.
fn circle_line(
    alloc: Global,
    modules: &[Importing],
    name: &Name,
    places: &[usize],
) -> Result<String, AllocError>
    ensures { IfOk result (λ line. string_bytes line ≡ circle_text (name.now ∷ map (name_at (entries_of modules.now)) places.now)) }
{
    let mut line = String::from_str(alloc, "circle")?;
    put_name(&mut line, name)?;
    for place in places {
        put_place(&mut line, modules, *place)?;
    }
    Ok(line)
}

/// The lines that tell why the import of the module of the name finds no definition, without line feeds. The modules are those
/// by whose places a circle is given. Fails only for want of memory.
pub fn import_lines(
    alloc: Global,
    modules: &[Importing],
    name: &Name,
    import: &Import,
    cause: &ImportCause,
) -> Result<Vec<String>, AllocError>
    ensures { IfOk result (λ lines. map string_bytes lines.items ≡ import_reason_lines (reason_of (entries_of modules.now) name.now (import_syntax import.now) cause.now)) }
{
    let mut lines = Vec::new(alloc);
    lines.push(import_line(alloc, import)?)?;
    match cause {
        ImportCause::NoModule => {}
        ImportCause::NoDefinition => {}
        ImportCause::RefusedModule(diag) => lines.push(refusal_line(alloc, *diag)?)?,
        ImportCause::InCircle(places) => {
            lines.push(circle_line(alloc, modules, name, places)?)?;
        }
    }
    Ok(lines)
}
