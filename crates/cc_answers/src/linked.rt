//! Entries with their programs.

ghost use Rattle.std.specs.Prelude.{◌≡◌, IfOk};
ghost use Rattle.cc_answers.specs.LinkedPrograms.{IsProgramOf};

use cc_link::link;
use cc_machine::Program;
use cc_session::Entry;
use std::alloc::{AllocError, Global};
use std::rc::Rc;

/// An entry with its program.
#[derive(Drop)]
pub struct LinkedEntry {
    pub entry: Entry,
    pub program: Program,
}

/// The entry with its program. Fails only for want of memory, as which too many cells count.
pub fn linked(alloc: Global, entry: Entry) -> Result<Rc<LinkedEntry>, AllocError>
    ensures entry { IfOk result (λ it. it.value.entry ≡ entry) }
    ensures program { IfOk result (λ it. IsProgramOf it.value.program it.value.entry) }
{
    let program = link(alloc, &entry)?;
    Ok(Rc::new(alloc, LinkedEntry { entry, program })?)
}
